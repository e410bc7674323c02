//! What is said of words that make no job.
ghost use Rattle.std.specs.Prelude.{◌≡◌, [], ◌∷◌, ◌++◌, IfOk, codes, length, map, string_bytes};
ghost use Rattle.gs_top.specs.Job.{size_options};
ghost use Rattle.gs_explain.specs.Words.{check_departure, check_synopsis, departure, extra, in_place_of, odd_word, size_synopsis, synopsis, usage_text};

use crate::joined::joined;
use gs_quantity::Mem;
use gs_top::Words;
use std::alloc::Global;

const SIZE: &str =
    "usage: gate-sizer size --lib FILE --verilog FILE --spef FILE --sdc FILE --sizes FILE --log FILE --report FILE --passes NUMBER\n";

const CHECK: &str =
    "usage: gate-sizer check --lib FILE --verilog FILE --spef FILE --sdc FILE --report FILE [--from FILE]\n";

/// What is said of the words after all options.
fn extra(alloc: Global, words: &[String]) -> Result<Vec<u8>, Mem>
    ensures { IfOk result (λ v. v.items ≡ extra (map string_bytes words.now)) }
{
    if words.is_empty() {
        return joined(
            alloc,
            &[
                b"a file's name is empty, two options name the same file, or a number is out of its range",
            ],
        );
    }
    joined(
        alloc,
        &[b"'", words[0].as_bytes(), b"' is one word too many"],
    )
}

/// What is said of a word that isn't the option that is to stand there.
fn in_place_of(alloc: Global, word: &str, option: &str) -> Result<Vec<u8>, Mem>
    ensures { IfOk result (λ v. v.items ≡ in_place_of word.now option.now) }
{
    joined(
        alloc,
        &[
            b"'",
            word.as_bytes(),
            b"' stands where ",
            option.as_bytes(),
            b" is to stand",
        ],
    )
}

/// The first of the words that departs from these options in this order, each with a value.
fn departure(alloc: Global, options: &[&str], words: &[String]) -> Result<Vec<u8>, Mem>
    ensures { IfOk result (λ v. v.items ≡ departure (map (λ o. o.now) options.now) (map string_bytes words.now)) }
{
    if options.is_empty() {
        return extra(alloc, words);
    }
    if words.is_empty() {
        return joined(alloc, &[options[0].as_bytes(), b" is missing"]);
    }
    if words[0].as_str() != options[0] {
        return in_place_of(alloc, words[0].as_str(), options[0]);
    }
    if words.len() < 2 {
        return joined(alloc, &[options[0].as_bytes(), b" has no value"]);
    }
    departure(alloc, &options[1..], &words[2..])
}

/// The first of the words after `size` that departs from its form.
fn size_departure(alloc: Global, words: &[String]) -> Result<Vec<u8>, Mem>
    ensures { IfOk result (λ v. v.items ≡ departure size_options (map string_bytes words.now)) }
{
    departure(
        alloc,
        &[
            "--lib",
            "--verilog",
            "--spef",
            "--sdc",
            "--sizes",
            "--log",
            "--report",
            "--passes",
        ],
        words,
    )
}

/// The first of the words after `check` that departs from its form.
fn check_departure(alloc: Global, words: &[String]) -> Result<Vec<u8>, Mem>
    ensures { IfOk result (λ v. v.items ≡ check_departure (map string_bytes words.now)) }
{
    if words.len() > 10 {
        return departure(
            alloc,
            &[
                "--lib",
                "--verilog",
                "--spef",
                "--sdc",
                "--report",
                "--from",
            ],
            words,
        );
    }
    departure(
        alloc,
        &["--lib", "--verilog", "--spef", "--sdc", "--report"],
        words,
    )
}

/// The first word that departs from the form of the command that it is.
fn odd_word(alloc: Global, words: &[String]) -> Result<Vec<u8>, Mem>
    ensures { IfOk result (λ v. v.items ≡ odd_word (map string_bytes words.now)) }
{
    match words {
        [] => joined(alloc, &[b"no command is given"]),
        [command, words @ ..] if command.as_str() == "size" => size_departure(alloc, words),
        [command, words @ ..] if command.as_str() == "check" => check_departure(alloc, words),
        [command, ..] => joined(alloc, &[b"'", command.as_bytes(), b"' is no command"]),
    }
}

/// The forms of all commands.
fn all_synopses(alloc: Global) -> Result<Vec<u8>, Mem>
    ensures { IfOk result (λ v. v.items ≡ size_synopsis ++ check_synopsis) }
{
    joined(alloc, &[SIZE.as_bytes(), CHECK.as_bytes()])
}

/// The form of the command that is meant, or of all.
fn synopsis(alloc: Global, words: &[String]) -> Result<Vec<u8>, Mem>
    ensures { IfOk result (λ v. v.items ≡ synopsis (map string_bytes words.now)) }
{
    match words {
        [] => all_synopses(alloc),
        [command, ..] if command.as_str() == "size" => joined(alloc, &[SIZE.as_bytes()]),
        [command, ..] if command.as_str() == "check" => joined(alloc, &[CHECK.as_bytes()]),
        [_, ..] => all_synopses(alloc),
    }
}

/// What is printed of words that make no job: the first that departs from the form, and the form of the command.
pub(crate) fn usage_text(alloc: Global, words: &Words) -> Result<Vec<u8>, Mem>
    ensures { IfOk result (λ v. v.items ≡ usage_text words.now) }
{
    let odd = odd_word(alloc, words.as_slice())?;
    let form = synopsis(alloc, words.as_slice())?;
    joined(
        alloc,
        &[b"gate-sizer: ", odd.as_slice(), b"\n", form.as_slice()],
    )
}
