//! The words of a run of `size`.

use gs_quantity::Mem;
use gs_top::Words;
use std::alloc::Global;

/// `size` with a file for each option that it needs, `n.lib`, `n.v` and so on, and so many passes.
pub(crate) fn size_words(alloc: Global, passes: &str) -> Result<Words, Mem> {
    let mut words = Words::new(alloc);
    for word in [
        "size",
        "--lib",
        "n.lib",
        "--verilog",
        "n.v",
        "--spef",
        "n.spef",
        "--sdc",
        "n.sdc",
        "--sizes",
        "n.sizes",
        "--log",
        "n.log",
        "--report",
        "n.rpt",
        "--passes",
        passes,
    ] {
        words.add(word)?;
    }
    Ok(words)
}
