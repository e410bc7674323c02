//! What is printed of refused wires, constraints and sizes, by whole runs.

use crate::samples::{Row, of_limits, of_sizes, of_wires, row_holds};
use std::test::Fail;

fn wires() -> [Row; 5] {
    [
        of_wires(
            "*C_UNIT 1 FF\n  *END\n",
            "n.spef:2:3: this line has none of the forms of SPEF that are read\n  *END\n  ^\n",
        ),
        of_wires(
            "*C_UNIT 1 FF\n*D_NET n1 1\n*RES\n1 n1:1 n1:2 0.5\n*END\n",
            "n.spef:4:1: resistances are not read: a net has a total capacitance alone\n1 n1:1 n1:2 0.5\n^\n",
        ),
        of_wires(
            "*C_UNIT 1 FF\n*D_NET *5 1\n*END\n",
            "n.spef:2:1: no line before maps this index to a name\n*D_NET *5 1\n^\n",
        ),
        of_wires(
            "*C_UNIT 1 FF\n*D_NET n1 1\n*END\n*D_NET n1 1\n*END\n",
            "n.spef:4:1: an earlier block is of the same net\n*D_NET n1 1\n^\n",
        ),
        of_wires(
            "*C_UNIT 1 FF\n*D_NET q7 1\n*END\n",
            "n.spef:2:8: the netlist has no net q7\n*D_NET q7 1\n       ^\n",
        ),
    ]
}

fn limits() -> [Row; 7] {
    [
        of_limits(
            "# no clock\n",
            "n.sdc: no command makes a clock (create_clock)\n",
        ),
        of_limits("", "n.sdc: the file is empty\n"),
        of_limits(
            "create_clock -period x\n",
            "n.sdc:1:1: this command, or a number in it, has none of the forms that are read\ncreate_clock -period x\n^\n",
        ),
        of_limits(
            "create_clock -name k -period 100\n\tcreate_clock -name l -period 100\n",
            "n.sdc:2:2: this command makes a second clock, and there may be one alone\n\tcreate_clock -name l -period 100\n\t^\n",
        ),
        of_limits(
            "create_clock -name k -period 100\nset_load -pin_load 1 [get_ports z]\nset_load -pin_load 2 [get_ports z]\n",
            "n.sdc:3:1: this command gives a port a second value of the same kind\nset_load -pin_load 2 [get_ports z]\n^\n",
        ),
        of_limits(
            "set_max_area 5\ncreate_clock -name k -period 100\n",
            "n.sdc:1:1: this command is not supported yet\nset_max_area 5\n^\n",
        ),
        of_limits(
            "create_clock -name k -period 100\nset_output_delay 1 [get_ports x]\n",
            "n.sdc:2:31: the netlist has no port x, or not in this direction\nset_output_delay 1 [get_ports x]\n                              ^\n",
        ),
    ]
}

fn sizes() -> [Row; 6] {
    [
        of_sizes("g1 I1\ng2 I1\n", ""),
        of_sizes(
            "g1 I1\ng1 I1\n",
            "n.from:2:1: an earlier line names the same instance\ng1 I1\n^\n",
        ),
        of_sizes("g1 I1\n", "n.from: not each instance has a line\n"),
        of_sizes(
            "g1 N1\n",
            "n.from:1:1: this cell may not take the instance's place\ng1 N1\n^\n",
        ),
        of_sizes(
            "\n g3 I1\n",
            "n.from:2:2: no instance has this name\n g3 I1\n ^\n",
        ),
        of_sizes(
            "g1 I1 x\r\n",
            "n.from:1:1: a line of sizes is the name of an instance and the name of its cell\ng1 I1 x \n^\n",
        ),
    ]
}

#[test]
fn each_refusal_of_lines(rt: HostRuntime) -> Result<(), Fail> {
    for row in wires() {
        assert!(rt; row_holds(&rt, rt.alloc(), row)?, "{}", row.printed);
    }
    for row in limits() {
        assert!(rt; row_holds(&rt, rt.alloc(), row)?, "{}", row.printed);
    }
    for row in sizes() {
        assert!(rt; row_holds(&rt, rt.alloc(), row)?, "{}", row.printed);
    }
    Ok(())
}
