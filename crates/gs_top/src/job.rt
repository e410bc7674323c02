//! The job that a command's words make.
ghost use Rattle.std.specs.Prelude.{◌≡◌};
ghost use Rattle.gs_top.specs.Job.{is_good};

use crate::name::Name;
use crate::options::are_names;

/// How many passes may choose the sizes at the start.
pub const MOST_PASSES: u32 = 64;

/// The files that `size` reads and those that it writes, and how it is to size.
#[derive(Debug, Drop)]
pub struct SizeJob {
    pub lib: Name,
    pub verilog: Name,
    pub spef: Name,
    pub sdc: Name,
    pub sizes: Name,
    pub log: Name,
    pub report: Name,
    /// The file of the sizes at the start. Without one the passes choose them.
    pub from: Option<Name>,
    /// How many workers share the work; 0, as long as there are none.
    pub workers: u32,
    /// How many passes choose the sizes at the start, where no file gives them; at most [`MOST_PASSES`].
    pub passes: u32,
    /// How many entries the log may have. Without a number there are as many as any run needs.
    pub budget: Option<u64>,
}

impl SizeJob {
    /// Whether it is a job that `run_size_alone` takes: no name is empty, all differ, and its numbers are in their ranges.
    pub fn is_good(&self) -> bool
        ensures { result ≡ is_good (Job.Size self.now) }
    {
        if self.workers != 0 || self.passes > MOST_PASSES {
            return false;
        }
        let lib = self.lib.as_str();
        let verilog = self.verilog.as_str();
        let spef = self.spef.as_str();
        let sdc = self.sdc.as_str();
        let sizes = self.sizes.as_str();
        let log = self.log.as_str();
        let report = self.report.as_str();
        match &self.from {
            None => are_names(&[lib, verilog, spef, sdc, sizes, log, report]),
            Some(from) => are_names(&[lib, verilog, spef, sdc, sizes, log, report, from.as_str()]),
        }
    }
}

/// The files that `check` reads, and the report that it writes.
#[derive(Debug, Drop)]
pub struct CheckJob {
    pub lib: Name,
    pub verilog: Name,
    pub spef: Name,
    pub sdc: Name,
    pub report: Name,
    /// The file of the sizes that are checked. Without one they are those of the netlist.
    pub from: Option<Name>,
}

/// What a command is to do.
#[derive(Debug, Drop)]
pub enum Job {
    Size(SizeJob),
    Check(CheckJob),
}
