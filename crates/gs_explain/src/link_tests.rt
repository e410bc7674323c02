//! What is printed of constraints and wires that name what the netlist lacks, and of nets with two drivers, by whole runs.

use crate::samples::{Row, of_limits, of_netlist, of_wires, row_holds};
use std::test::Fail;

fn ports() -> [Row; 4] {
    [
        of_limits(
            "create_clock -name k -period 100\nset_load -pin_load 6 [get_ports p]\n",
            "n.sdc:2:33: the netlist has no port p, or not in this direction\nset_load -pin_load 6 [get_ports p]\n                                ^\n",
        ),
        of_limits(
            "create_clock -name k -period 100 [get_ports z]\nset_output_delay 3 -clock k [get_ports x]\n",
            "n.sdc:1:45: the netlist has no port z, or not in this direction\ncreate_clock -name k -period 100 [get_ports z]\n                                            ^\n",
        ),
        of_limits(
            "create_clock -name k -period 100\nset_output_delay 3 -clock k [get_ports {z x}]\nset_load -pin_load 6 [get_ports x]\n",
            "n.sdc:2:43: the netlist has no port x, or not in this direction\nset_output_delay 3 -clock k [get_ports {z x}]\n                                          ^\n",
        ),
        // Commands on inputs and on outputs name the port.
        of_limits(
            "create_clock -name k -period 100 [get_ports x]\nset_output_delay 3 -clock k [get_ports x]\n",
            "n.sdc: the netlist has no port x, or not in this direction\n",
        ),
    ]
}

fn nets() -> [Row; 2] {
    [
        of_wires(
            "*C_UNIT 1 FF\n*D_NET n1 1\n*END\n*D_NET q 2\n*END\n",
            "n.spef:4:8: the netlist has no net q\n*D_NET q 2\n       ^\n",
        ),
        of_wires(
            "*C_UNIT 1 FF\n*NAME_MAP\n*1 n1\n*2 q\n*D_NET *1 1\n*END\n*D_NET *2 2\n*END\n",
            "n.spef:7:8: the netlist has no net q\n*D_NET *2 2\n       ^\n",
        ),
    ]
}

#[test]
fn names_that_the_netlist_lacks(rt: HostRuntime) -> Result<(), Fail> {
    let alloc = rt.alloc();
    for row in ports() {
        assert!(rt; row_holds(&rt, alloc, row)?, "{}", row.printed);
    }
    for row in nets() {
        assert!(rt; row_holds(&rt, alloc, row)?, "{}", row.printed);
    }
    Ok(())
}

fn drivers() -> [Row; 3] {
    [
        of_netlist(
            "module c (x, z);\ninput x;\noutput z;\nI1 g1 (.a(x), .o(n1));\nI1 g2 (.a(n1), .o(z));\nI1 g3 (.a(x), .o(n1));\nI1 g4 (.a(x), .o(n1));\nendmodule\n",
            "n.v:6:18: net n1 has more than one driver; the first is in line 4\nI1 g3 (.a(x), .o(n1));\n                 ^\n",
        ),
        // An input port drives its net.
        of_netlist(
            "module c (x, z);\ninput x;\noutput z;\nI1 g1 (.a(x), .o(z));\nI1 g2 (.a(z), .o(x));\nendmodule\n",
            "n.v:5:18: net x has more than one driver; the first is in line 2\nI1 g2 (.a(z), .o(x));\n                 ^\n",
        ),
        of_netlist(
            "module c (x, z); input x; output z;\nI1 g1 (.a(x), .o(\\z )); I1 g2 (.a(x), .o(z)); endmodule\n",
            "n.v:2:42: net z has more than one driver; the first is in line 2\nI1 g1 (.a(x), .o(\\z )); I1 g2 (.a(x), .o(z)); endmodule\n                                         ^\n",
        ),
    ]
}

#[test]
fn nets_with_two_drivers(rt: HostRuntime) -> Result<(), Fail> {
    let alloc = rt.alloc();
    for row in drivers() {
        assert!(rt; row_holds(&rt, alloc, row)?, "{}", row.printed);
    }
    Ok(())
}
