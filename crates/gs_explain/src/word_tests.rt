//! What is printed of words that make no job.

use crate::status_tests::says;
use gs_quantity::Mem;
use gs_top::{Status, Words};
use std::alloc::Global;
use std::test::Fail;

fn words_of(alloc: Global, texts: &[&str]) -> Result<Words, Mem> {
    let mut words = Words::new(alloc);
    for text in texts {
        words.add(text)?;
    }
    Ok(words)
}

/// Whether this is printed of these words, which make no job.
fn of_words(alloc: Global, texts: &[&str], printed: &'static str) -> Result<bool, Fail> {
    let words = words_of(alloc, texts)?;
    says(alloc, &words, &Status::Usage, printed)
}

fn no_jobs() -> [(&'static [&'static str], &'static str); 7] {
    [
        (
            &[],
            "gate-sizer: no command is given\nusage: gate-sizer size --lib FILE --verilog FILE --spef FILE --sdc FILE --sizes FILE --log FILE --report FILE --passes NUMBER\nusage: gate-sizer check --lib FILE --verilog FILE --spef FILE --sdc FILE --report FILE [--from FILE]\n",
        ),
        (
            &["resize", "--lib"],
            "gate-sizer: 'resize' is no command\nusage: gate-sizer size --lib FILE --verilog FILE --spef FILE --sdc FILE --sizes FILE --log FILE --report FILE --passes NUMBER\nusage: gate-sizer check --lib FILE --verilog FILE --spef FILE --sdc FILE --report FILE [--from FILE]\n",
        ),
        (
            &["size", "--lib", "a", "--spef", "b"],
            "gate-sizer: '--spef' stands where --verilog is to stand\nusage: gate-sizer size --lib FILE --verilog FILE --spef FILE --sdc FILE --sizes FILE --log FILE --report FILE --passes NUMBER\n",
        ),
        (
            &["check", "--lib", "a", "--verilog"],
            "gate-sizer: --verilog has no value\nusage: gate-sizer check --lib FILE --verilog FILE --spef FILE --sdc FILE --report FILE [--from FILE]\n",
        ),
        (
            &[
                "check",
                "--lib",
                "a",
                "--verilog",
                "b",
                "--spef",
                "c",
                "--sdc",
                "d",
                "--report",
                "e",
                "--from",
            ],
            "gate-sizer: --from has no value\nusage: gate-sizer check --lib FILE --verilog FILE --spef FILE --sdc FILE --report FILE [--from FILE]\n",
        ),
        (
            &[
                "check",
                "--lib",
                "a",
                "--verilog",
                "b",
                "--spef",
                "c",
                "--sdc",
                "d",
                "--report",
                "a",
            ],
            "gate-sizer: a file's name is empty, two options name the same file, or a number is out of its range\nusage: gate-sizer check --lib FILE --verilog FILE --spef FILE --sdc FILE --report FILE [--from FILE]\n",
        ),
        (
            &[
                "check",
                "--lib",
                "a",
                "--verilog",
                "b",
                "--spef",
                "c",
                "--sdc",
                "d",
                "--report",
                "e",
                "--from",
                "f",
                "g",
            ],
            "gate-sizer: 'g' is one word too many\nusage: gate-sizer check --lib FILE --verilog FILE --spef FILE --sdc FILE --report FILE [--from FILE]\n",
        ),
    ]
}

#[test]
fn words_that_make_no_job(rt: HostRuntime) -> Result<(), Fail> {
    let alloc = rt.alloc();
    for (words, printed) in no_jobs() {
        assert!(rt; of_words(alloc, words, printed)?, "{}", printed);
    }
    Ok(())
}
