//! The forms of texts that are read piece by piece, and what their pieces may be.
ghost use Rattle.std.specs.Prelude.{◌≡◌};
ghost use Rattle.gs_explain.specs.Wanted.{sorts_of, style_of, wanted_name, wanted_text};

use gs_text::Style;

/// A form of text that is read piece by piece.
#[derive(Clone, Copy, Debug, PartialEq, Eq)]
pub enum Form {
    /// A netlist in structural Verilog.
    Netlist,
    /// A library in Liberty.
    Liberty,
}

/// A sort of piece that could stand at a place.
#[derive(Clone, Copy, Debug, PartialEq, Eq)]
pub enum Wanted {
    Name,
    /// What stands between two double quotes.
    Text,
    Module,
    EndModule,
    Input,
    Output,
    Wire,
    Open,
    Close,
    OpenBrace,
    CloseBrace,
    Comma,
    Semicolon,
    Colon,
    Dot,
}

/// The sorts of a netlist's pieces, in the order in which they are told.
const NETLIST: [Wanted; 11] = [
    Wanted::Name,
    Wanted::Module,
    Wanted::EndModule,
    Wanted::Input,
    Wanted::Output,
    Wanted::Wire,
    Wanted::Open,
    Wanted::Close,
    Wanted::Dot,
    Wanted::Comma,
    Wanted::Semicolon,
];

/// The sorts of a library's pieces.
const LIBERTY: [Wanted; 9] = [
    Wanted::Name,
    Wanted::Text,
    Wanted::Open,
    Wanted::Close,
    Wanted::OpenBrace,
    Wanted::CloseBrace,
    Wanted::Colon,
    Wanted::Comma,
    Wanted::Semicolon,
];

pub(crate) fn style_of(form: Form) -> Style
    ensures { result ≡ style_of form }
{
    match form {
        Form::Netlist => Style::Verilog,
        Form::Liberty => Style::Lib,
    }
}

/// The sorts of pieces that texts of the form have.
pub(crate) fn sorts_of(form: Form) -> &'static [Wanted]
    ensures { result.now ≡ sorts_of form }
{
    match form {
        Form::Netlist => &NETLIST,
        Form::Liberty => &LIBERTY,
    }
}

/// A piece of this sort.
pub(crate) fn wanted_text(wanted: Wanted) -> &'static str
    ensures { result.now ≡ wanted_text wanted }
{
    match wanted {
        Wanted::Name => "x",
        Wanted::Text => "\"x\"",
        Wanted::Module => "module",
        Wanted::EndModule => "endmodule",
        Wanted::Input => "input",
        Wanted::Output => "output",
        Wanted::Wire => "wire",
        Wanted::Open => "(",
        Wanted::Close => ")",
        Wanted::OpenBrace => "{",
        Wanted::CloseBrace => "}",
        Wanted::Comma => ",",
        Wanted::Semicolon => ";",
        Wanted::Colon => ":",
        Wanted::Dot => ".",
    }
}

/// What it is called.
pub(crate) fn wanted_name(wanted: Wanted) -> &'static str
    ensures { result.now ≡ wanted_name wanted }
{
    match wanted {
        Wanted::Name => "a name",
        Wanted::Text => "a string",
        Wanted::Module => "'module'",
        Wanted::EndModule => "'endmodule'",
        Wanted::Input => "'input'",
        Wanted::Output => "'output'",
        Wanted::Wire => "'wire'",
        Wanted::Open => "'('",
        Wanted::Close => "')'",
        Wanted::OpenBrace => "'{'",
        Wanted::CloseBrace => "'}'",
        Wanted::Comma => "','",
        Wanted::Semicolon => "';'",
        Wanted::Colon => "':'",
        Wanted::Dot => "'.'",
    }
}
