//! Worked texts: each is given in two parts, and the place is where they meet.
#![tactic(auto)]

ghost use Rattle.std.specs.Prelude.{◌≡◌, ◌≤◌, length, IfOk};
ghost use Rattle.std.specs.Str.{bytes_eq};
ghost use Rattle.gs_text.specs.Bytes.{max_text};

use crate::{
    Outputs, Values, bad_value_place, cell_item_place, cell_place, constraint_place, driver_place,
    instance_cell_place, instance_place, library_cell_place, library_item_place, library_pin_place,
    net_block_place, net_place, pin_item_place, pin_place, port_place, timing_item_place,
};
use gs_text::MAX_TEXT;
use std::alloc::{AllocError, Global};
use std::test::Fail;

/// Two parts as one text.
fn joined(alloc: Global, before: &str, after: &str) -> Result<Vec<u8>, AllocError>
    ensures { IfOk result (λ v. length v.items ≤ max_text) }
{
    let mut text = Vec::new(alloc);
    text.extend_from_slice(before.as_bytes())?;
    text.extend_from_slice(after.as_bytes())?;
    if text.len() > MAX_TEXT {
        return Err(AllocError);
    }
    Ok(text)
}

/// Whether the place is past so many bytes.
fn is_past(found: Result<Option<u32>, AllocError>, before: &str) -> bool {
    match found {
        Ok(Some(at)) => at as usize == before.len(),
        Ok(None) | Err(_) => false,
    }
}

/// Whether nothing is found.
fn is_nowhere(found: Result<Option<u32>, AllocError>) -> bool {
    match found {
        Ok(found) => found.is_none(),
        Err(_) => false,
    }
}

fn instance_at(alloc: Global, before: &str, after: &str, name: &str) -> bool {
    match joined(alloc, before, after) {
        Ok(text) => is_past(
            instance_place(alloc, text.as_slice(), name.as_bytes()),
            before,
        ),
        Err(_) => false,
    }
}

fn no_instance(alloc: Global, text: &str, name: &str) -> bool {
    match joined(alloc, text, "") {
        Ok(text) => is_nowhere(instance_place(alloc, text.as_slice(), name.as_bytes())),
        Err(_) => false,
    }
}

fn instance_cell_at(alloc: Global, before: &str, after: &str, name: &str) -> bool {
    match joined(alloc, before, after) {
        Ok(text) => is_past(
            instance_cell_place(alloc, text.as_slice(), name.as_bytes()),
            before,
        ),
        Err(_) => false,
    }
}

fn cell_at(alloc: Global, before: &str, after: &str, cell: &str) -> bool {
    match joined(alloc, before, after) {
        Ok(text) => is_past(cell_place(alloc, text.as_slice(), cell.as_bytes()), before),
        Err(_) => false,
    }
}

fn pin_at(alloc: Global, before: &str, after: &str, inst: &str, pin: &str) -> bool {
    match joined(alloc, before, after) {
        Ok(text) => is_past(
            pin_place(alloc, text.as_slice(), inst.as_bytes(), pin.as_bytes()),
            before,
        ),
        Err(_) => false,
    }
}

fn no_pin(alloc: Global, text: &str, inst: &str, pin: &str) -> bool {
    match joined(alloc, text, "") {
        Ok(text) => is_nowhere(pin_place(alloc, text.as_slice(), inst.as_bytes(), pin.as_bytes())),
        Err(_) => false,
    }
}

fn net_at(alloc: Global, before: &str, after: &str, net: &str) -> bool {
    match joined(alloc, before, after) {
        Ok(text) => is_past(net_place(alloc, text.as_slice(), net.as_bytes()), before),
        Err(_) => false,
    }
}

fn port_at(alloc: Global, before: &str, after: &str, name: &str) -> bool {
    match joined(alloc, before, after) {
        Ok(text) => is_past(port_place(alloc, text.as_slice(), name.as_bytes()), before),
        Err(_) => false,
    }
}

/// Pin `Y` of each cell drives, and no other.
struct Ends;

impl Outputs for Ends {
    ghost use Rattle.std.specs.Prelude.{codes};
    ghost use Rattle.std.specs.Str.{bytes_eq};

    ghost drives = { λ s cell pin. bytes_eq pin (codes "Y") };

    fn drives(&self, _cell: &[u8], pin: &[u8]) -> bool {
        pin == b"Y".as_slice()
    }
}

fn driver_at(alloc: Global, before: &str, after: &str, net: &str, n: usize) -> bool {
    match joined(alloc, before, after) {
        Ok(text) => is_past(
            driver_place(alloc, text.as_slice(), &Ends, net.as_bytes(), n),
            before,
        ),
        Err(_) => false,
    }
}

fn no_driver(alloc: Global, text: &str, net: &str, n: usize) -> bool {
    match joined(alloc, text, "") {
        Ok(text) => is_nowhere(driver_place(alloc, text.as_slice(), &Ends, net.as_bytes(), n)),
        Err(_) => false,
    }
}

#[test]
fn instances_are_found_by_name(rt: HostRuntime) {
    let alloc = rt.alloc();
    assert!(rt;
        instance_at(
            alloc,
            "module m (a);\n  INV ",
            "u1 (.A(a), .Y(y));\nendmodule",
            "u1"
        )
    );
    assert!(rt;
        instance_at(
            alloc,
            "module m (a);\r\n  INV u2 (.A(u1), .Y(y)); // u1 (\r\n /* INV u1 ( */ BUF ",
            "u1 (.A(y));\r\nendmodule",
            "u1"
        )
    );
    assert!(rt; instance_at(alloc, "module m; INV ", "\\u[1] (.A(a)); endmodule", "u[1]"));
    assert!(rt;
        instance_cell_at(
            alloc,
            "module m; INV u0 (); ",
            "INV u1 (.A(a)); endmodule",
            "u1"
        )
    );
    assert!(rt;
        cell_at(
            alloc,
            "module INV (BUF); input BUF; ",
            "BUF BUF (.A(BUF)); BUF u ();",
            "BUF"
        )
    );
    // the module's header is no instance, and neither is a declaration
    assert!(rt;
        no_instance(
            alloc,
            "module m (a); input u1; INV u2 (.u1(u1)); endmodule",
            "m"
        )
    );
    assert!(rt;
        no_instance(
            alloc,
            "module m (a); input u1; INV u2 (.u1(u1)); endmodule",
            "u1"
        )
    );
    assert!(rt; no_instance(alloc, "module m; INV u1 (); /* without an end", "u1"));
}

#[test]
fn pins_and_nets_are_found_in_instances(rt: HostRuntime) {
    let alloc = rt.alloc();
    assert!(rt;
        pin_at(
            alloc,
            "module m; INV u0 (.A(a)); INV u1 (.Y(A), .",
            "A(b)); endmodule",
            "u1",
            "A"
        )
    );
    assert!(rt;
        pin_at(
            alloc,
            "module m; INV u1 ( . ",
            "\\A  ( n ) ); endmodule",
            "u1",
            "A"
        )
    );
    assert!(rt;
        no_pin(
            alloc,
            "module m; INV u0 (.A(a)); INV u1 (.Y(A)); INV u2 (.A(a)); endmodule",
            "u1",
            "A"
        )
    );
    assert!(rt;
        net_at(
            alloc,
            "module m (n); input n; wire n; INV n (.n(a), .A( ",
            "n)); INV u1 (.A(n)); endmodule",
            "n"
        )
    );
    assert!(rt;
        port_at(
            alloc,
            "module m (a, y);\ninput b, /* a */ ",
            "a; output y; endmodule",
            "a"
        )
    );
    assert!(rt;
        port_at(
            alloc,
            "module m (a, y); wire y; input a; output ",
            "y; endmodule",
            "y"
        )
    );
}

#[test]
fn drivers_are_output_pins_and_input_ports(rt: HostRuntime) {
    let alloc = rt.alloc();
    assert!(rt;
        driver_at(
            alloc,
            "module m (a); input ",
            "a; INV u0 (.A(a), .Y(y)); INV u1 (.Y(a)); endmodule",
            "a",
            0
        )
    );
    assert!(rt;
        driver_at(
            alloc,
            "module m (a); input a; INV u0 (.A(a), .Y(y)); INV u1 (.Y(",
            "a)); endmodule",
            "a",
            1
        )
    );
    assert!(rt;
        no_driver(
            alloc,
            "module m (a); input a; INV u0 (.A(a), .Y(y)); INV u1 (.Y(a)); endmodule",
            "a",
            2
        )
    );
    assert!(rt;
        driver_at(
            alloc,
            "module m; output y; INV u0 (.A(y), .Y(x)); INV u1 (.Y(",
            "y)); endmodule",
            "y",
            0
        )
    );
}

fn constraint_at(alloc: Global, before: &str, after: &str, command: &str, port: &str) -> bool {
    match joined(alloc, before, after) {
        Ok(text) => is_past(
            constraint_place(alloc, text.as_slice(), command.as_bytes(), port.as_bytes()),
            before,
        ),
        Err(_) => false,
    }
}

fn no_constraint(alloc: Global, text: &str, command: &str, port: &str) -> bool {
    match joined(alloc, text, "") {
        Ok(text) => is_nowhere(constraint_place(
            alloc,
            text.as_slice(),
            command.as_bytes(),
            port.as_bytes(),
        )),
        Err(_) => false,
    }
}

#[test]
fn ports_are_found_in_the_lists_of_a_command(rt: HostRuntime) {
    let alloc = rt.alloc();
    assert!(rt;
        constraint_at(
            alloc,
            "create_clock -name clk -period 1 [get_ports ",
            "clk]\n",
            "create_clock",
            "clk"
        )
    );
    assert!(rt;
        constraint_at(
            alloc,
            "set_load 1 [get_ports {a b}]\r\nset_input_delay 1 -clock b \\\n [get_ports {a ",
            "b}]\r\n",
            "set_input_delay",
            "b"
        )
    );
    assert!(rt;
        constraint_at(
            alloc,
            "# set_load 1 [get_ports a]\nset_load 1 [get_ports {",
            "a c}]",
            "set_load",
            "a"
        )
    );
    assert!(rt;
        no_constraint(
            alloc,
            "set_load 1 [get_ports a]\nset_input_delay 1 -clock [get_clocks a] [get_ports b]",
            "set_input_delay",
            "a"
        )
    );
}

fn net_block_at(alloc: Global, before: &str, after: &str, n: usize) -> bool {
    match joined(alloc, before, after) {
        Ok(text) => is_past(net_block_place(alloc, text.as_slice(), n), before),
        Err(_) => false,
    }
}

fn no_net_block(alloc: Global, text: &str, n: usize) -> bool {
    match joined(alloc, text, "") {
        Ok(text) => is_nowhere(net_block_place(alloc, text.as_slice(), n)),
        Err(_) => false,
    }
}

#[test]
fn blocks_of_nets_are_counted(rt: HostRuntime) {
    let alloc = rt.alloc();
    assert!(rt;
        net_block_at(
            alloc,
            "*NAME_MAP\n*1 n\\[1\\]\n// *D_NET x 1\n*D_NET ",
            "*1 2.5\n*END\n*D_NET m 1\n*END\n",
            0
        )
    );
    assert!(rt;
        net_block_at(
            alloc,
            "*NAME_MAP\r\n*1 n\r\n*D_NET *1 2.5\r\n*CAP\r\n1 *D_NET 2\r\n*END\r\n  *D_NET  ",
            "m 1\r\n*END\r\n",
            1
        )
    );
    assert!(rt; no_net_block(alloc, "*D_NET *1 2.5\n*END\n*D_NET m 1\n*END\n", 2));
}

fn library_cell_at(alloc: Global, before: &str, after: &str, cell: &str, n: usize) -> bool {
    match joined(alloc, before, after) {
        Ok(text) => is_past(
            library_cell_place(alloc, text.as_slice(), cell.as_bytes(), n),
            before,
        ),
        Err(_) => false,
    }
}

fn no_library_cell(alloc: Global, text: &str, cell: &str, n: usize) -> bool {
    match joined(alloc, text, "") {
        Ok(text) => is_nowhere(library_cell_place(alloc, text.as_slice(), cell.as_bytes(), n)),
        Err(_) => false,
    }
}

fn library_item_at(alloc: Global, before: &str, after: &str, name: &str) -> bool {
    match joined(alloc, before, after) {
        Ok(text) => is_past(
            library_item_place(alloc, text.as_slice(), name.as_bytes(), 0),
            before,
        ),
        Err(_) => false,
    }
}

fn cell_item_at(alloc: Global, before: &str, after: &str, cell: &str, name: &str) -> bool {
    match joined(alloc, before, after) {
        Ok(text) => is_past(
            cell_item_place(alloc, text.as_slice(), cell.as_bytes(), name.as_bytes(), 0),
            before,
        ),
        Err(_) => false,
    }
}

fn library_pin_at(alloc: Global, before: &str, after: &str, cell: &str, pin: &str) -> bool {
    match joined(alloc, before, after) {
        Ok(text) => is_past(
            library_pin_place(alloc, text.as_slice(), cell.as_bytes(), pin.as_bytes(), 0),
            before,
        ),
        Err(_) => false,
    }
}

fn pin_item_at(
    alloc: Global,
    before: &str,
    after: &str,
    cell: &str,
    pin: &str,
    name: &str,
) -> bool {
    match joined(alloc, before, after) {
        Ok(text) => is_past(
            pin_item_place(
                alloc,
                text.as_slice(),
                cell.as_bytes(),
                pin.as_bytes(),
                name.as_bytes(),
                0,
            ),
            before,
        ),
        Err(_) => false,
    }
}

fn timing_item_at(
    alloc: Global,
    before: &str,
    after: &str,
    cell: &str,
    name: &str,
    n: usize,
) -> bool {
    match joined(alloc, before, after) {
        Ok(text) => is_past(
            timing_item_place(alloc, text.as_slice(), cell.as_bytes(), name.as_bytes(), n),
            before,
        ),
        Err(_) => false,
    }
}

#[test]
fn cells_are_found_in_a_library(rt: HostRuntime) {
    let alloc = rt.alloc();
    assert!(rt;
        library_cell_at(
            alloc,
            "library (l) {\n  /* cell (X) {} */\n  cell (",
            "X) { area : 1; }\n}",
            "X",
            0
        )
    );
    assert!(rt;
        library_cell_at(
            alloc,
            "library (l) { cell (X) { cell (X) { } } cell (\"Y\") { }\r\n cell ( ",
            "\"X\" , Y) { } }",
            "X",
            1
        )
    );
    assert!(rt;
        library_cell_at(
            alloc,
            "library (l) { cell (X); cell : X; cell (",
            "X) { } }",
            "X",
            0
        )
    );
    assert!(rt;
        no_library_cell(
            alloc,
            "library (l) { cell (X) { cell (Y) { } } cell (X); }",
            "Y",
            0
        )
    );
    assert!(rt;
        no_library_cell(
            alloc,
            "library (l) { cell (X) { cell (Y) { } } cell (X); }",
            "X",
            1
        )
    );
    assert!(rt;
        library_item_at(
            alloc,
            "library (l) { type (t) { time_unit : \"1ps\"; } ",
            "time_unit : \"1ns\"; }",
            "time_unit"
        )
    );
    assert!(rt;
        library_item_at(
            alloc,
            "library (l) { voltage_map : time_unit; ; ",
            "time_unit : \"1ns\"; }",
            "time_unit"
        )
    );
}

#[test]
fn items_are_found_in_cells(rt: HostRuntime) {
    let alloc = rt.alloc();
    assert!(rt;
        cell_item_at(
            alloc,
            "library (l) { cell (X) { area : 1; } cell (Y) { pin (A) { area : 2; } ",
            "area : 3; } }",
            "Y",
            "area"
        )
    );
    assert!(rt;
        library_pin_at(
            alloc,
            "library (l) { cell (X) { pin (A) { } } cell (Y) { pin (B) { } pin (C, ",
            "A) { } } }",
            "Y",
            "A"
        )
    );
    assert!(rt;
        pin_item_at(
            alloc,
            "library (l) { cell (Y) { pin (B) { capacitance : 1; } pin (C A) { timing () { capacitance : 2; } ",
            "capacitance : x; } } }",
            "Y",
            "A",
            "capacitance"
        )
    );
    assert!(rt;
        timing_item_at(
            alloc,
            "library (l) { cell (Y) { pin (Z) { timing () { cell_rise (t) { } } timing () { ",
            "cell_rise (t) { } } } } }",
            "Y",
            "cell_rise",
            1
        )
    );
}

/// A value that begins with a letter is bad.
struct Letters;

impl Values for Letters {
    ghost use Rattle.std.specs.Prelude.{nat_le, slice_index};

    ghost is_bad = { λ s name value. nat_le 97 (slice_index value 0) };

    fn is_bad(&self, _name: &[u8], value: &[u8]) -> bool {
        match value {
            [first, ..] => 97 <= *first,
            [] => false,
        }
    }
}

fn bad_value_at(alloc: Global, before: &str, after: &str, cell: &str, n: usize) -> bool {
    match joined(alloc, before, after) {
        Ok(text) => is_past(
            bad_value_place(alloc, text.as_slice(), cell.as_bytes(), &Letters, n),
            before,
        ),
        Err(_) => false,
    }
}

#[test]
fn bad_values_are_found_in_cells(rt: HostRuntime) {
    let alloc = rt.alloc();
    assert!(rt;
        bad_value_at(
            alloc,
            "library (l) { cell (X) { area : x; } cell (Y) { area : 1; pin (A) { ",
            "capacitance : x; } leakage : y; } }",
            "Y",
            0
        )
    );
    assert!(rt;
        bad_value_at(
            alloc,
            "library (l) { cell (Y) { ff (q) { area : x; } pin (A) { capacitance : x; timing () { a : b; } } ",
            "leakage : y; } }",
            "Y",
            1
        )
    );
}
