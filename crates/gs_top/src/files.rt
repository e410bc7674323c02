//! The files of a job, by what each is to the command.
ghost use Rattle.std.specs.Prelude.{◌≡◌};
ghost use Rattle.gs_top.specs.Job.{name_or_none};

use crate::job::{CheckJob, SizeJob};
use crate::name::Name;
use crate::status::{Input, Output};

/// A name that may be left out; empty where it is.
fn text_or_none(name: &Option<Name>) -> &str
    ensures { result.now ≡ name_or_none name.now }
{
    match name {
        Some(name) => name.as_str(),
        None => "",
    }
}

/// A job, as the stages and the stores see it: the names of its files.
pub(crate) trait JobFiles {
    ghost use Rattle.std.specs.Prelude.{◌≡◌, ℕ, List};
    ghost use Rattle.gs_top.specs.declared.status.Input.{Input};
    ghost use Rattle.gs_top.specs.declared.status.Output.{Output};

    ghost inputs: { Self → Input → List ℕ };

    ghost outputs: { Self → Output → List ℕ };

    /// The name of a file that the command reads; empty for one that it doesn't read.
    fn input(&self, file: Input) -> &str
        ensures { result.now ≡ inputs self.now file };

    /// The name of a file that the command writes; empty for one that it doesn't write, and for the console.
    fn output(&self, to: Output) -> &str
        ensures { result.now ≡ outputs self.now to };
}

impl JobFiles for SizeJob {
    ghost use Rattle.gs_top.specs.Job.{input_of, output_of};
    ghost use Rattle.gs_top.specs.declared.job.Job.TheVariants.{Size};

    ghost inputs = { λ job. input_of (Size job) };

    ghost outputs = { λ job. output_of (Size job) };

    fn input(&self, file: Input) -> &str {
        match file {
            Input::Lib => self.lib.as_str(),
            Input::Verilog => self.verilog.as_str(),
            Input::Spef => self.spef.as_str(),
            Input::Sdc => self.sdc.as_str(),
            Input::From => text_or_none(&self.from),
        }
    }

    fn output(&self, to: Output) -> &str {
        match to {
            Output::Sizes => self.sizes.as_str(),
            Output::Log => self.log.as_str(),
            Output::Report => self.report.as_str(),
            Output::Console => "",
        }
    }
}

impl JobFiles for CheckJob {
    ghost use Rattle.gs_top.specs.Job.{input_of, output_of};
    ghost use Rattle.gs_top.specs.declared.job.Job.TheVariants.{Check};

    ghost inputs = { λ job. input_of (Check job) };

    ghost outputs = { λ job. output_of (Check job) };

    fn input(&self, file: Input) -> &str {
        match file {
            Input::Lib => self.lib.as_str(),
            Input::Verilog => self.verilog.as_str(),
            Input::Spef => self.spef.as_str(),
            Input::Sdc => self.sdc.as_str(),
            Input::From => text_or_none(&self.from),
        }
    }

    fn output(&self, to: Output) -> &str {
        match to {
            Output::Report => self.report.as_str(),
            Output::Sizes | Output::Log | Output::Console => "",
        }
    }
}
