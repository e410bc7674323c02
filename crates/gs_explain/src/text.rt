//! What is said of a refused text, and where it is shown.
ghost use Rattle.std.specs.Prelude.{◌≡◌};
ghost use Rattle.gs_explain.specs.Text.{form_of, line_text, spot_of, why_text};

use crate::form::Form;
use crate::spot::Spot;
use gs_top::{Input, TextWhy};

/// The form of a file that is read piece by piece.
fn form_of(file: Input) -> Form
    ensures { result ≡ form_of file }
{
    match file {
        Input::Verilog => Form::Netlist,
        Input::Lib | Input::Spef | Input::Sdc | Input::From => Form::Liberty,
    }
}

/// The place of a refusal, by what its number counts.
pub(crate) fn spot_of(file: Input, why: TextWhy, place: u32) -> Spot
    ensures { result ≡ spot_of file why place }
{
    match why {
        TextWhy::OpenString | TextWhy::OpenComment => Spot::AtByte(place),
        TextWhy::TooDeep | TextWhy::TwoNames => Spot::AtPiece(form_of(file), place),
        TextWhy::BadPiece | TextWhy::NoEnd => Spot::Wrong(form_of(file), place),
        TextWhy::NoClock | TextWhy::Absent => Spot::Nowhere,
        TextWhy::BadLine
        | TextWhy::Distributed
        | TextWhy::UnknownIndex
        | TextWhy::TwoNets
        | TextWhy::NotBuilt
        | TextWhy::TwoClocks
        | TextWhy::TwoValues
        | TextWhy::Unknown
        | TextWhy::Twice
        | TextWhy::WrongCell => Spot::AtLine(place),
    }
}

fn line_text(file: Input) -> &'static str
    ensures { result.now ≡ line_text file }
{
    match file {
        Input::Spef => "this line has none of the forms of SPEF that are read",
        Input::Sdc => "this command, or a number in it, has none of the forms that are read",
        Input::From => "a line of sizes is the name of an instance and the name of its cell",
        Input::Lib | Input::Verilog => "this line is not of its form",
    }
}

/// What is said of a refusal.
pub(crate) fn why_text(file: Input, why: TextWhy) -> &'static str
    ensures { result.now ≡ why_text file why }
{
    match why {
        TextWhy::OpenString => "this string has no end",
        TextWhy::OpenComment => "this comment has no end",
        TextWhy::TooDeep => "opens a group that is more than 64 deep",
        TextWhy::BadPiece => "the text is not of its form",
        TextWhy::TwoNames => "is declared or connected a second time",
        TextWhy::NoEnd => "the text ends too early",
        TextWhy::BadLine => line_text(file),
        TextWhy::Distributed => "resistances are not read: a net has a total capacitance alone",
        TextWhy::UnknownIndex => "no line before maps this index to a name",
        TextWhy::TwoNets => "an earlier block is of the same net",
        TextWhy::NotBuilt => "this command is not supported yet",
        TextWhy::TwoClocks => "this command makes a second clock, and there may be one alone",
        TextWhy::TwoValues => "this command gives a port a second value of the same kind",
        TextWhy::NoClock => "no command makes a clock (create_clock)",
        TextWhy::Unknown => "no instance has this name",
        TextWhy::Twice => "an earlier line names the same instance",
        TextWhy::WrongCell => "this cell may not take the instance's place",
        TextWhy::Absent => "not each instance has a line",
    }
}
