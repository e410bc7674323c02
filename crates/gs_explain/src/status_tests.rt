//! What is printed of refused libraries and designs, with the places of their objects.

use crate::samples::{CHAIN_ROW, Row, check_words, files_of};
use crate::statuses::explain;
use gs_lib::{LibErr, What};
use gs_shelf::{Bytes, FileList, NeverFails};
use gs_survey::{Counted, LinkErr};
use gs_text::{Name, Names};
use gs_top::{Status, Words};
use std::alloc::{AllocError, Global};
use std::test::Fail;

const LIBRARY: &str = "library (l) {
cell (I1) {
pin (a) { }
}
cell (I1) { }
}
";

const NETLIST: &str = "module c (x, z);
input x;
output z;
I1 g1 (.a(x), .o(n1));
I9 g2 (.a(n1), .o(z));
endmodule
";

const FILES: Row = Row {
    library: LIBRARY,
    netlist: NETLIST,
    ..CHAIN_ROW
};

/// Whether the row's text is printed of a status of the words, with the row's files.
pub(crate) fn row_says(
    alloc: Global,
    words: &Words,
    status: &Status,
    row: Row,
) -> Result<bool, Fail> {
    let mut shelf = NeverFails {
        files: files_of(alloc, row)?,
        said: Bytes::empty(alloc),
    };
    let text = explain(alloc, words, status, None, &mut shelf)?;
    Ok(text.as_slice() == row.printed.as_bytes())
}

/// Whether this is printed of a status of the words.
pub(crate) fn says(
    alloc: Global,
    words: &Words,
    status: &Status,
    printed: &'static str,
) -> Result<bool, Fail> {
    row_says(alloc, words, status, Row { printed, ..FILES })
}

fn of_lib(alloc: Global, error: LibErr, printed: &'static str) -> Result<bool, Fail> {
    says(
        alloc,
        &check_words(alloc)?,
        &Status::BadLibrary(error),
        printed,
    )
}

fn of_design(alloc: Global, error: LinkErr, printed: &'static str) -> Result<bool, Fail> {
    says(
        alloc,
        &check_words(alloc)?,
        &Status::BadDesign(error),
        printed,
    )
}

fn name(alloc: Global, text: &str) -> Result<Name, AllocError> {
    Name::copy_of(alloc, text.as_bytes())
}

fn missing() -> [(What, &'static str); 8] {
    [
        (
            What::Library,
            "n.lib:2:7: cell I1: the outermost group is not a library\ncell (I1) {\n      ^\n",
        ),
        (
            What::Leakage,
            "n.lib:2:7: cell I1: attribute cell_leakage_power is missing\ncell (I1) {\n      ^\n",
        ),
        (
            What::Capacitance,
            "n.lib:2:7: cell I1: attribute capacitance of an input pin is missing\ncell (I1) {\n      ^\n",
        ),
        (
            What::RelatedPin,
            "n.lib:2:7: cell I1: related_pin of a timing group is missing or names no input\ncell (I1) {\n      ^\n",
        ),
        (
            What::CellRise,
            "n.lib:2:7: cell I1: table cell_rise of a timing group is missing\ncell (I1) {\n      ^\n",
        ),
        (
            What::CellFall,
            "n.lib:2:7: cell I1: table cell_fall of a timing group is missing\ncell (I1) {\n      ^\n",
        ),
        (
            What::RiseTransition,
            "n.lib:2:7: cell I1: table rise_transition of a timing group is missing\ncell (I1) {\n      ^\n",
        ),
        (
            What::FallTransition,
            "n.lib:2:7: cell I1: table fall_transition of a timing group is missing\ncell (I1) {\n      ^\n",
        ),
    ]
}

/// The refusals of a library other than a missing part.
fn libraries(alloc: Global) -> Result<[(LibErr, &'static str); 6], AllocError> {
    Ok([
        (
            LibErr::NoUnit,
            "n.lib: time_unit or capacitive_load_unit is missing\n",
        ),
        (
            LibErr::BadUnit,
            "n.lib: one of time_unit, capacitive_load_unit and leakage_power_unit is not of its form\n",
        ),
        (
            LibErr::BadNumber {
                cell: name(alloc, "I1")?,
            },
            "n.lib:2:7: cell I1: a number is not decimal, is negative or is out of range\ncell (I1) {\n      ^\n",
        ),
        (
            LibErr::TwoCells {
                name: name(alloc, "I1")?,
            },
            "n.lib:5:7: cell I1: an earlier cell has the same name\ncell (I1) { }\n      ^\n",
        ),
        (
            LibErr::BadTable {
                cell: name(alloc, "I1")?,
                i: 5,
            },
            "n.lib:2:7: cell I1: table cell_fall of timing group 2, of those that are read, is not of its form\ncell (I1) {\n      ^\n",
        ),
        (
            LibErr::TooMany,
            "n.lib: there are more than 65535 cells, or more than 1024 that may take each other's place\n",
        ),
    ])
}

#[test]
fn each_refusal_of_a_library_by_its_cell(rt: HostRuntime) -> Result<(), Fail> {
    let alloc = rt.alloc();
    for (what, printed) in missing() {
        let cell = name(alloc, "I1")?;
        assert!(rt;
            of_lib(alloc, LibErr::Missing { cell, what }, printed)?,
            "{}",
            printed
        );
    }
    for (error, printed) in libraries(alloc)? {
        assert!(rt; of_lib(alloc, error, printed)?, "{}", printed);
    }
    Ok(())
}

/// The cycle of both nets.
fn cycle(alloc: Global) -> Result<LinkErr, Fail> {
    let mut nets = Vec::new(alloc);
    nets.push(name(alloc, "n1")?)?;
    nets.push(name(alloc, "z")?)?;
    Ok(LinkErr::Loop {
        cycle: Names::from_vec(nets),
    })
}

/// The refusals of a design.
fn designs(alloc: Global) -> Result<[(LinkErr, &'static str); 12], Fail> {
    Ok([
        (
            LinkErr::UnknownCell {
                by: name(alloc, "g2")?,
            },
            "n.v:5:1: the library has no cell for g2\nI9 g2 (.a(n1), .o(z));\n^\n",
        ),
        (
            LinkErr::UnknownPin {
                by: name(alloc, "g1")?,
                pin: name(alloc, "a")?,
            },
            "n.v:4:9: the cell of g1 has no pin a\nI1 g1 (.a(x), .o(n1));\n        ^\n",
        ),
        (
            LinkErr::OpenPin {
                inst: name(alloc, "g2")?,
                pin: name(alloc, "b")?,
            },
            "n.v:5:4: instance g2 leaves pin b of its cell open\nI9 g2 (.a(n1), .o(z));\n   ^\n",
        ),
        (
            LinkErr::TwoDrivers {
                net: name(alloc, "n1")?,
            },
            "n.v:4:18: net n1 has more than one driver\nI1 g1 (.a(x), .o(n1));\n                 ^\n",
        ),
        (
            LinkErr::Undriven {
                net: name(alloc, "z")?,
            },
            "n.v:5:19: net z has no driver\nI9 g2 (.a(n1), .o(z));\n                  ^\n",
        ),
        (
            LinkErr::UnknownPort {
                name: name(alloc, "p")?,
            },
            "n.sdc: the netlist has no port p, or not in this direction\n",
        ),
        (
            LinkErr::UnknownNet {
                name: name(alloc, "q")?,
            },
            "n.spef: the netlist has no net q\n",
        ),
        (
            LinkErr::NoArc {
                cell: name(alloc, "I1")?,
                pin: name(alloc, "a")?,
            },
            "n.lib:3:6: cell I1 has no timing arc from pin a\npin (a) { }\n     ^\n",
        ),
        (
            LinkErr::TooMany {
                what: Counted::Nets,
                count: 4_194_304,
            },
            "n.v: 4194304 nets are too many\n",
        ),
        (
            LinkErr::TooMany {
                what: Counted::Instances,
                count: 2_097_152,
            },
            "n.v: 2097152 instances are too many\n",
        ),
        (
            LinkErr::TooMany {
                what: Counted::Pins,
                count: 4_294_967_296,
            },
            "n.v: 4294967296 connected pins are too many\n",
        ),
        (
            cycle(alloc)?,
            "n.v:4:18: gates drive one another in a cycle of 2 nets: n1 z\nI1 g1 (.a(x), .o(n1));\n                 ^\n",
        ),
    ])
}

#[test]
fn each_refusal_of_a_design(rt: HostRuntime) -> Result<(), Fail> {
    let alloc = rt.alloc();
    for (error, printed) in designs(alloc)? {
        assert!(rt; of_design(alloc, error, printed)?, "{}", printed);
    }
    Ok(())
}

/// What is printed of two drivers of `n1` where a file of this text alone is left.
fn with_one_file(alloc: Global, file: &[u8], text: &str) -> Result<Vec<u8>, Fail> {
    let mut files = FileList::new(alloc);
    files.put(alloc, file, text.as_bytes())?;
    let mut shelf = NeverFails {
        files,
        said: Bytes::empty(alloc),
    };
    let status = Status::BadDesign(LinkErr::TwoDrivers {
        net: name(alloc, "n1")?,
    });
    Ok(explain(alloc, &check_words(alloc)?, &status, None, &mut shelf)?)
}

#[test]
fn two_drivers_without_a_file(rt: HostRuntime) -> Result<(), Fail> {
    let alloc = rt.alloc();
    let netlist = with_one_file(alloc, b"n.v", NETLIST)?;
    let shown =
        "n.v:4:18: net n1 has more than one driver\nI1 g1 (.a(x), .o(n1));\n                 ^\n";
    assert!(rt; netlist.as_slice() == shown.as_bytes());
    let library = with_one_file(alloc, b"n.lib", LIBRARY)?;
    assert!(rt; library.as_slice() == b"n.v: net n1 has more than one driver\n".as_slice());
    Ok(())
}
