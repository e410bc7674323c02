//! The law of logs.
#![tactic(auto)]

ghost use Rattle.std.specs.Prelude.{◌≡◌};
ghost use Rattle.gs_report.specs.Log.{IsLogOf, log_text};
ghost use Rattle.gs_report.specs.declared.run.Log.{Log};

use gs_design::Design;

/// Two logs of a design with the same text are one log: the bytes say each entry's kind, worker, instance and place, how the run ended and what
/// it was allowed. The call does nothing.
pub fn each_log_is_determined(design: &Design)
    ensures { (k l : Log) → IsLogOf design.now k → IsLogOf design.now l → log_text design.now k ≡ log_text design.now l → k ≡ l }
{
    let _ = design;
}
