//! Why a text is no netlist.
#![tactic(auto)]

ghost use Rattle.std.specs.Prelude.{◌≡◌};
ghost use Rattle.gs_drive.specs.declared.machine.Fault.{Fault};
ghost use Rattle.gs_drive.specs.declared.machine.StepErr.{StepErr};
ghost use Rattle.gs_verilog.specs.Index.{refusal_of};

use gs_drive::{Fault, Refusal, StepErr};
use gs_text::TextErr;

/// Why a text is no netlist. A place `i` counts the pieces of the text from 0.
#[derive(Debug, PartialEq, Eq, Drop)]
pub enum VerilogErr {
    /// The comment that begins at byte `at` has no end.
    OpenComment { at: u32 },
    /// Piece `i` is the first with which no netlist of the form begins.
    BadPiece { i: u32 },
    /// Piece `i` is the first that only breaks a rule on names: a name that gets a direction again, an instance's name that
    /// an earlier instance has, a pin that the instance has connected already.
    TwoNames { i: u32 },
    /// The pieces end before `endmodule`; `i` is their number.
    NoEnd { i: u32 },
    /// Memory ran out.
    Mem,
}

/// A rule that a netlist of the form may break.
#[derive(Debug, PartialEq, Eq, Drop)]
pub enum Rule {
    /// No name has a direction twice, no two instances have one name, and no pin is connected twice in one instance.
    NamesDiffer,
}

/// Why a reader can't go on from a token.
pub type Stop = StepErr<Rule>;

/// A token that breaks the rule on names.
pub fn twice() -> Stop
    ensures { result ≡ StepErr.Refused (Fault.Broken Rule.NamesDiffer) }
{
    StepErr::Refused(Fault::Broken(Rule::NamesDiffer))
}

/// A netlist's refusal for the driver's. The driver tells of strings without an end too, which this style doesn't have.
pub fn refusal_of(refusal: Refusal<Rule>) -> VerilogErr
    ensures { result ≡ refusal_of refusal }
{
    match refusal {
        Refusal::Text(TextErr::OpenComment { at } | TextErr::OpenString { at }) => {
            VerilogErr::OpenComment { at }
        }
        Refusal::Bad { i } => VerilogErr::BadPiece { i },
        Refusal::Broken { i, .. } => VerilogErr::TwoNames { i },
        Refusal::Early { i } => VerilogErr::NoEnd { i },
        Refusal::Text(TextErr::Mem) | Refusal::Mem => VerilogErr::Mem,
    }
}
