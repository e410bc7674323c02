//! The program `gate-sizer`: it gives the words after its name to `run`, over real files and standard output, and ends
//! with the exit code of the status. What `explain` makes of the status is printed on standard error; a fault there changes nothing.
//!
//! Nothing is decided here. Where the system does not give the words it ends with exit code 2, and where there is no
//! memory for them with exit code 6; it prints nothing in either case.
#![tactic(auto)]

#[cfg(test)]
mod book_tests;
#[cfg(test)]
mod chain;
#[cfg(test)]
mod check_tests;
#[cfg(test)]
mod cone_tests;
#[cfg(test)]
mod generated_tests;
#[cfg(test)]
mod limits;
#[cfg(test)]
mod link_tests;
#[cfg(test)]
mod linked;
#[cfg(test)]
mod many_chains;
#[cfg(test)]
mod mixed;
#[cfg(test)]
mod numbered;
#[cfg(test)]
mod size_tests;
#[cfg(test)]
mod sizes_tests;
#[cfg(test)]
mod start_tests;
#[cfg(test)]
mod timing_tests;
#[cfg(test)]
mod trial_tests;
#[cfg(test)]
mod words;

use gs_explain::explain;
use gs_quantity::Mem;
use gs_shelf::HostShelf;
use gs_top::{Status, Words, exit_of, run};
use std::alloc::Global;
use std::env;
use std::io::Write;
use std::process::ExitCode;

/// The words after the program's name.
fn words_after_name(alloc: Global, args: env::Args) -> Result<Words, Mem> {
    let mut words = Words::new(alloc);
    for word in args.skip(1) {
        words.add(word.as_str())?;
    }
    Ok(words)
}

fn main(rt: HostRuntime) -> ExitCode {
    let alloc = rt.alloc();
    let Ok(args) = env::args(&rt) else {
        return ExitCode::from(exit_of(&Status::Usage));
    };
    let Ok(words) = words_after_name(alloc, args) else {
        return ExitCode::from(exit_of(&Status::OutOfMemory));
    };
    let mut shelf = HostShelf::new(alloc, &rt);
    let status = run(&rt, alloc, &words, &mut shelf);
    let reason = shelf.reason();
    if let Ok(text) = explain(alloc, &words, &status, reason, &mut shelf) {
        let _fault = rt.stderr().write_all(text.as_slice());
    }
    ExitCode::from(exit_of(&status))
}
