//! What is said of refusals that have no place in a text so far: of a library and of a design, by the names that the status has.
ghost use Rattle.std.specs.Prelude.{◌≡◌, [], ◌∷◌, ◌++◌, IfOk, OnOk, codes};
ghost use Rattle.std.specs.List.{concat, flat_map};
ghost use Rattle.gs_explain.specs.Rest.{counted_text, lib_text, link_file, link_text, loop_text, nets_text, of_cell, reason_text, table_name, table_text, what_text};

use crate::joined::joined;
use gs_lib::{LibErr, What};
use gs_quantity::Mem;
use gs_shelf::Reason;
use gs_survey::{Counted, LinkErr};
use gs_text::{Name, Names};
use gs_top::Input;
use itoa::Buffer;
use std::alloc::Global;

/// Why the system refused a file, as far as it tells.
pub(crate) fn reason_text(reason: Option<Reason>) -> &'static str
    ensures { result.now ≡ reason_text reason }
{
    match reason {
        Some(Reason::NotFound) => ": there is no such file or folder",
        Some(Reason::IsFolder) => ": it is a folder",
        Some(Reason::Denied) => ": permission denied",
        Some(Reason::NoSpace) => ": no space is left",
        Some(Reason::SameFile) => ": it is the same file as another one of this run",
        Some(Reason::Other) => "",
        None => "",
    }
}

fn what_text(what: What) -> &'static str
    ensures { result.now ≡ what_text what }
{
    match what {
        What::Library => "the outermost group is not a library",
        What::Leakage => "attribute cell_leakage_power is missing",
        What::Capacitance => "attribute capacitance of an input pin is missing",
        What::RelatedPin => "related_pin of a timing group is missing or names no input",
        What::CellRise => "table cell_rise of a timing group is missing",
        What::CellFall => "table cell_fall of a timing group is missing",
        What::RiseTransition => "table rise_transition of a timing group is missing",
        What::FallTransition => "table fall_transition of a timing group is missing",
    }
}

/// What is said of a cell, or without a name of the library itself.
fn of_cell(alloc: Global, cell: &Name, said: &[u8]) -> Result<Vec<u8>, Mem>
    ensures { IfOk result (λ v. v.items ≡ of_cell cell.now said.now) }
{
    let name = cell.as_bytes();
    if name.is_empty() {
        return joined(alloc, &[said]);
    }
    joined(alloc, &[b"cell ", name, b": ", said])
}

/// The tables of a timing group in their order.
fn table_name(k: u32) -> &'static str
    ensures { result.now ≡ table_name k }
{
    if k == 0 {
        "cell_rise"
    } else if k == 1 {
        "cell_fall"
    } else if k == 2 {
        "rise_transition"
    } else {
        "fall_transition"
    }
}

fn table_text(alloc: Global, i: u32) -> Result<Vec<u8>, Mem>
    ensures { IfOk result (λ v. v.items ≡ table_text i) }
{
    let mut group = Buffer::new();
    joined(
        alloc,
        &[
            b"table ",
            table_name(i % 4).as_bytes(),
            b" of timing group ",
            group.format(i / 4 + 1).as_bytes(),
            b", of those that are read, is not of its form",
        ],
    )
}

/// What is said of the refusal of a table.
fn bad_table(alloc: Global, cell: &Name, i: u32) -> Result<Vec<u8>, Mem>
    ensures { IfOk result (λ v. v.items ≡ of_cell cell.now (table_text i)) }
{
    let said = table_text(alloc, i)?;
    of_cell(alloc, cell, said.as_slice())
}

/// What is said of a library's refusal.
pub(crate) fn lib_text(alloc: Global, error: &LibErr) -> Result<Vec<u8>, Mem>
    ensures { IfOk result (λ v. v.items ≡ lib_text error.now) }
{
    match error {
        LibErr::Missing { cell, what } => of_cell(alloc, cell, what_text(*what).as_bytes()),
        LibErr::NoUnit => joined(alloc, &[b"time_unit or capacitive_load_unit is missing"]),
        LibErr::BadUnit => joined(
            alloc,
            &[b"one of time_unit, capacitive_load_unit and leakage_power_unit is not of its form"],
        ),
        LibErr::TwoCells { name } => of_cell(alloc, name, b"an earlier cell has the same name"),
        LibErr::BadNumber { cell } => of_cell(
            alloc,
            cell,
            b"a number is not decimal, is negative or is out of range",
        ),
        LibErr::BadTable { cell, i } => bad_table(alloc, cell, *i),
        LibErr::TooMany => joined(
            alloc,
            &[
                b"there are more than 65535 cells, or more than 1024 that may take each other's place",
            ],
        ),
        LibErr::Mem => Ok(Vec::new(alloc)),
    }
}

fn counted_text(counted: Counted) -> &'static str
    ensures { result.now ≡ counted_text counted }
{
    match counted {
        Counted::Instances => "instances",
        Counted::Nets => "nets",
        Counted::Pins => "connected pins",
    }
}

/// What is said of too many of these.
fn too_many(alloc: Global, what: Counted, count: u64) -> Result<Vec<u8>, Mem>
    ensures { IfOk result (λ v. v.items ≡ link_text (LinkErr.TooMany what count)) }
{
    let mut number = Buffer::new();
    joined(
        alloc,
        &[
            number.format(count).as_bytes(),
            b" ",
            counted_text(what).as_bytes(),
            b" are too many",
        ],
    )
}

/// How many nets of a cycle are named.
const NAMED: usize = 8;

/// Appends the names, each after a space.
fn add_names(names: &[Name], text: &mut Vec<u8>) -> Result<(), Mem>
    ensures { OnOk result (text.new.items ≡ text.old.items ++ flat_map (λ n. 32 ∷ n) names.now) }
{
    for name in names {
        text.extend_from_slice(b" ")?;
        text.extend_from_slice(name.as_bytes())?;
    }
    Ok(())
}

/// The first nets of a cycle, each after a space.
fn nets_text(alloc: Global, cycle: &Names) -> Result<Vec<u8>, Mem>
    ensures { IfOk result (λ v. v.items ≡ nets_text cycle.now) }
{
    let nets = cycle.as_slice();
    let mut text = Vec::new(alloc);
    add_names(&nets[..NAMED.min(nets.len())], &mut text)?;
    Ok(text)
}

/// What is said of a cycle.
fn loop_text(alloc: Global, cycle: &Names) -> Result<Vec<u8>, Mem>
    ensures { IfOk result (λ v. v.items ≡ loop_text cycle.now) }
{
    let mut count = Buffer::new();
    let nets = nets_text(alloc, cycle)?;
    joined(
        alloc,
        &[
            b"gates drive one another in a cycle of ",
            count.format(cycle.as_slice().len()).as_bytes(),
            b" nets:",
            nets.as_slice(),
        ],
    )
}

/// What is said of a cell that the library lacks.
fn unknown_cell(alloc: Global, by: &Name) -> Result<Vec<u8>, Mem>
    ensures { IfOk result (λ v. v.items ≡ link_text (LinkErr.UnknownCell by.now)) }
{
    joined(alloc, &[b"the library has no cell for ", by.as_bytes()])
}

/// What is said of a pin that a cell lacks.
fn unknown_pin(alloc: Global, by: &Name, pin: &Name) -> Result<Vec<u8>, Mem>
    ensures { IfOk result (λ v. v.items ≡ link_text (LinkErr.UnknownPin by.now pin.now)) }
{
    joined(
        alloc,
        &[
            b"the cell of ",
            by.as_bytes(),
            b" has no pin ",
            pin.as_bytes(),
        ],
    )
}

/// What is said of a pin that is left open.
fn open_pin(alloc: Global, inst: &Name, pin: &Name) -> Result<Vec<u8>, Mem>
    ensures { IfOk result (λ v. v.items ≡ link_text (LinkErr.OpenPin inst.now pin.now)) }
{
    joined(
        alloc,
        &[
            b"instance ",
            inst.as_bytes(),
            b" leaves pin ",
            pin.as_bytes(),
            b" of its cell open",
        ],
    )
}

/// What is said of a net.
fn of_net(alloc: Global, net: &Name, said: &[u8]) -> Result<Vec<u8>, Mem>
    ensures { IfOk result (λ v. v.items ≡ concat (codes "net " ∷ net.now ∷ said.now ∷ [])) }
{
    joined(alloc, &[b"net ", net.as_bytes(), said])
}

/// What is said of a net with two drivers.
pub(crate) fn two_drivers(alloc: Global, net: &Name) -> Result<Vec<u8>, Mem>
    ensures { IfOk result (λ v. v.items ≡ link_text (LinkErr.TwoDrivers net.now)) }
{
    of_net(alloc, net, b" has more than one driver")
}

/// What is said of a port that the netlist lacks.
fn unknown_port(alloc: Global, name: &Name) -> Result<Vec<u8>, Mem>
    ensures { IfOk result (λ v. v.items ≡ link_text (LinkErr.UnknownPort name.now)) }
{
    joined(
        alloc,
        &[
            b"the netlist has no port ",
            name.as_bytes(),
            b", or not in this direction",
        ],
    )
}

/// What is said of a net that the netlist lacks.
fn unknown_net(alloc: Global, name: &Name) -> Result<Vec<u8>, Mem>
    ensures { IfOk result (λ v. v.items ≡ link_text (LinkErr.UnknownNet name.now)) }
{
    joined(alloc, &[b"the netlist has no net ", name.as_bytes()])
}

/// What is said of an input without a timing arc.
fn no_arc(alloc: Global, cell: &Name, pin: &Name) -> Result<Vec<u8>, Mem>
    ensures { IfOk result (λ v. v.items ≡ link_text (LinkErr.NoArc cell.now pin.now)) }
{
    joined(
        alloc,
        &[
            b"cell ",
            cell.as_bytes(),
            b" has no timing arc from pin ",
            pin.as_bytes(),
        ],
    )
}

/// What is said of a design's refusal.
pub(crate) fn link_text(alloc: Global, error: &LinkErr) -> Result<Vec<u8>, Mem>
    ensures { IfOk result (λ v. v.items ≡ link_text error.now) }
{
    match error {
        LinkErr::UnknownCell { by } => unknown_cell(alloc, by),
        LinkErr::UnknownPin { by, pin } => unknown_pin(alloc, by, pin),
        LinkErr::OpenPin { inst, pin } => open_pin(alloc, inst, pin),
        LinkErr::TwoDrivers { net } => two_drivers(alloc, net),
        LinkErr::Undriven { net } => of_net(alloc, net, b" has no driver"),
        LinkErr::UnknownPort { name } => unknown_port(alloc, name),
        LinkErr::UnknownNet { name } => unknown_net(alloc, name),
        LinkErr::NoArc { cell, pin } => no_arc(alloc, cell, pin),
        LinkErr::TooMany { what, count } => too_many(alloc, *what, *count),
        LinkErr::Loop { cycle } => loop_text(alloc, cycle),
        LinkErr::Mem => Ok(Vec::new(alloc)),
    }
}

/// The file that is at fault.
pub(crate) fn link_file(error: &LinkErr) -> Input
    ensures { result ≡ link_file error.now }
{
    match error {
        LinkErr::UnknownPort { .. } => Input::Sdc,
        LinkErr::UnknownNet { .. } => Input::Spef,
        LinkErr::NoArc { .. } => Input::Lib,
        LinkErr::UnknownCell { .. }
        | LinkErr::UnknownPin { .. }
        | LinkErr::OpenPin { .. }
        | LinkErr::TwoDrivers { .. }
        | LinkErr::Undriven { .. }
        | LinkErr::TooMany { .. }
        | LinkErr::Loop { .. }
        | LinkErr::Mem => Input::Verilog,
    }
}
