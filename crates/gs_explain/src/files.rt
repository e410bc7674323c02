//! The names of a job's files.
ghost use Rattle.std.specs.Prelude.{◌≡◌, IfOk, None, Some};
ghost use Rattle.gs_top.specs.Job.{input_of, job_of, name_or_none};
ghost use Rattle.gs_top.specs.declared.job.Job.{Job};
ghost use Rattle.gs_explain.specs.Explain.{input_name, output_name};

use gs_quantity::Mem;
use gs_top::{CheckJob, Input, Job, Name, Output, SizeJob, Words, WordsErr, read_words};
use std::alloc::Global;

/// The job that the words make, where they make one.
pub(crate) fn job_in(alloc: Global, words: &Words) -> Result<Option<Job>, Mem>
    ensures { IfOk result (λ job. job ≡ job_of words.now) }
{
    match read_words(alloc, words) {
        Ok(job) => Ok(Some(job)),
        Err(WordsErr::Usage) => Ok(None),
        Err(WordsErr::Mem) => Err(Mem),
    }
}

/// A name that may be left out; empty where it is.
fn text_or_none(name: &Option<Name>) -> &str
    ensures { result.now ≡ name_or_none name.now }
{
    match name {
        Some(name) => name.as_str(),
        None => "",
    }
}

fn size_input(job: &SizeJob, file: Input) -> &str
    ensures { result.now ≡ input_of (Job.Size job.now) file }
{
    match file {
        Input::Lib => job.lib.as_str(),
        Input::Verilog => job.verilog.as_str(),
        Input::Spef => job.spef.as_str(),
        Input::Sdc => job.sdc.as_str(),
        Input::From => text_or_none(&job.from),
    }
}

fn check_input(job: &CheckJob, file: Input) -> &str
    ensures { result.now ≡ input_of (Job.Check job.now) file }
{
    match file {
        Input::Lib => job.lib.as_str(),
        Input::Verilog => job.verilog.as_str(),
        Input::Spef => job.spef.as_str(),
        Input::Sdc => job.sdc.as_str(),
        Input::From => text_or_none(&job.from),
    }
}

/// The name of a file that the job reads; empty for one that it doesn't read.
pub(crate) fn input_name(job: &Option<Job>, file: Input) -> &str
    ensures { result.now ≡ input_name job.now file }
{
    match job {
        Some(Job::Size(job)) => size_input(job, file),
        Some(Job::Check(job)) => check_input(job, file),
        None => "",
    }
}

fn size_output(job: &SizeJob, to: Output) -> &str
    ensures { result.now ≡ output_name (Some (Job.Size job.now)) to }
{
    match to {
        Output::Sizes => job.sizes.as_str(),
        Output::Log => job.log.as_str(),
        Output::Report => job.report.as_str(),
        Output::Console => "standard output",
    }
}

fn check_output(job: &CheckJob, to: Output) -> &str
    ensures { result.now ≡ output_name (Some (Job.Check job.now)) to }
{
    match to {
        Output::Sizes | Output::Log => "",
        Output::Report => job.report.as_str(),
        Output::Console => "standard output",
    }
}

fn jobless_output(to: Output) -> &'static str
    ensures { result.now ≡ output_name None to }
{
    match to {
        Output::Sizes | Output::Log | Output::Report => "",
        Output::Console => "standard output",
    }
}

/// The name of what the job writes.
pub(crate) fn output_name(job: &Option<Job>, to: Output) -> &str
    ensures { result.now ≡ output_name job.now to }
{
    match job {
        Some(Job::Size(job)) => size_output(job, to),
        Some(Job::Check(job)) => check_output(job, to),
        None => jobless_output(to),
    }
}
