//! The laws of jobs and of what is written.
ghost use Rattle.gs_top.specs.Law.{EachJobIsDecided, EachSizeIsTheNetlists};

/// Each job is decided by the bytes of its files: they make one thing, or there is a first refusal, and never both. There is
/// one first refusal, up to the cycle that it names.
pub fn each_job_is_decided()
    ensures { EachJobIsDecided }
{
    gs_libtree::each_text_is_decided();
    gs_lib::each_tree_is_decided();
    gs_verilog::each_text_is_decided();
    gs_verilog::each_netlist_is_kept();
    gs_spef::each_text_is_decided();
    gs_sdc::each_text_is_decided();
    gs_sizes::each_text_is_decided();
    gs_link::each_design_is_decided();
}

/// The sizes file of a linked design has the instances of the netlist, in order, each with the cell that the netlist names.
pub fn each_size_is_the_netlists()
    ensures { EachSizeIsTheNetlists }
{}
