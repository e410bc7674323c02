//! How a command ended.
ghost use Rattle.std.specs.Prelude.{◌≡◌};
ghost use Rattle.gs_top.specs.Exit.{exit_of};

use gs_lib::LibErr;
use gs_link::LinkErr;
use gs_move::Ended;
use gs_quantity::Micro;

/// A file that a command reads.
#[derive(Clone, Copy, Debug, PartialEq, Eq)]
pub enum Input {
    /// The Liberty library.
    Lib,
    /// The netlist.
    Verilog,
    /// The wires, in SPEF.
    Spef,
    /// The constraints, in SDC.
    Sdc,
    /// The sizes to start from.
    From,
}

/// What a command writes.
#[derive(Clone, Copy, Debug, PartialEq, Eq)]
pub enum Output {
    /// The file of sizes.
    Sizes,
    /// The log of the run.
    Log,
    /// The report.
    Report,
    /// The status line.
    Console,
}

/// Why a text is refused.
#[derive(Clone, Copy, Debug, PartialEq, Eq)]
pub enum TextWhy {
    /// A string without an end.
    OpenString,
    /// A comment without an end.
    OpenComment,
    /// A group of a library that is more than 64 deep.
    TooDeep,
    /// A piece with which no text of the form begins.
    BadPiece,
    /// A piece that only breaks a rule on names.
    TwoNames,
    /// The pieces end too early.
    NoEnd,
    /// A line of SPEF, or a command of SDC, that is not of its form.
    BadLine,
    /// A line of SPEF that gives resistances.
    Distributed,
    /// A line of SPEF with an index that no line before it maps.
    UnknownIndex,
    /// A second block of a net.
    TwoNets,
    /// A command of SDC that is not built yet.
    NotBuilt,
    /// A second clock.
    TwoClocks,
    /// A second value of one kind for a port.
    TwoValues,
    /// No clock.
    NoClock,
    /// A line of sizes that names no instance.
    Unknown,
    /// A line of sizes that names an instance again.
    Twice,
    /// A line of sizes whose cell isn't one of the instance's alternatives.
    WrongCell,
    /// An instance that no line of the sizes names.
    Absent,
}

/// How a command ended.
#[derive(Debug, Drop)]
pub enum Status {
    /// The design was sized; the sizes, the log and the report were written: how the run ended, how many limits the sizes don't meet, what
    /// they leak in millionths of the library's unit, and how many moves were committed.
    Done {
        ended: Ended,
        violations: u64,
        leakage: Micro,
        commits: u64,
    },
    /// The sizes were timed and judged, and the report was written: how many limits aren't met, and the leakage in millionths of the
    /// library's unit.
    Checked {
        violations: u64,
        leakage: Micro,
    },
    /// The words make no job: they are not of the form, a file's name is empty, or two names are the same.
    Usage,
    /// The file could not be read.
    ReadFault {
        file: Input,
    },
    /// The file has more than `2^28` bytes.
    TooLarge {
        file: Input,
    },
    /// The file's text is refused. `place` counts bytes from 0 for `OpenString` and `OpenComment`, lines from 1 for SPEF, SDC and
    /// sizes (of `NoClock` and `Absent` it is the number of lines), and pieces from 0 for the others; it is the number of pieces where the text ends too early.
    BadText {
        file: Input,
        why: TextWhy,
        place: u32,
    },
    /// The library's text has its form, and is refused for what it says; never for want of memory.
    BadLibrary(LibErr),
    /// The four files make no design; never for want of memory.
    BadDesign(LinkErr),
    /// The file could not be written, or the line of a success could not be said.
    WriteFault {
        file: Output,
    },
    /// Memory ran out.
    OutOfMemory,
}

/// The exit code of the program.
pub fn exit_of(status: &Status) -> u8
    ensures { result ≡ exit_of status.now }
{
    match status {
        Status::Done { violations: 0, .. } | Status::Checked { violations: 0, .. } => 0,
        Status::Done { .. } | Status::Checked { .. } => 1,
        Status::Usage => 2,
        Status::BadText { .. }
        | Status::TooLarge { .. }
        | Status::BadLibrary(_)
        | Status::BadDesign(_) => 3,
        Status::ReadFault { .. } => 4,
        Status::WriteFault { .. } => 5,
        Status::OutOfMemory => 6,
    }
}
