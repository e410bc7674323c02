//! What is printed of refused netlists and libraries, by whole runs.

use crate::samples::{Row, of_library, of_netlist, row_holds};
use std::test::Fail;

fn netlists() -> [Row; 8] {
    [
        of_netlist(
            "module c (x, z);\n  input x\n  output z;\nendmodule\n",
            "n.v:3:3: expected ',' or ';' before 'output'\n  output z;\n  ^\n",
        ),
        of_netlist(
            "module c (x);\n\tinput y;;\nendmodule\n",
            "n.v:2:10: expected a name, 'endmodule', 'input', 'output' or 'wire' before ';'\n\tinput y;;\n\t        ^\n",
        ),
        of_netlist(
            "module c (x, z",
            "n.v:1:15: the text ends here, and '(' of line 1 is not closed\nmodule c (x, z\n              ^\n",
        ),
        of_netlist(
            "\nmodule c (x);\ninput x;\n",
            "n.v:3:9: the text ends here, and 'module' of line 2 has no 'endmodule'\ninput x;\n        ^\n",
        ),
        of_netlist(
            "module c;\n/* x",
            "n.v:2:1: this comment has no end\n/* x\n^\n",
        ),
        of_netlist(
            "module c (x);\ninput x;\noutput x;\nendmodule\n",
            "n.v:3:8: 'x' is declared or connected a second time\noutput x;\n       ^\n",
        ),
        of_netlist("", "n.v: the file is empty\n"),
        of_netlist(
            "\u{feff}module c (x); endmodule",
            "n.v: the file begins with a byte order mark; save it without one\n",
        ),
    ]
}

fn more_netlists() -> [Row; 3] {
    [
        of_netlist(
            "module c (x); endmodule\nextra",
            "n.v:2:1: unexpected 'extra'\nextra\n^\n",
        ),
        of_netlist(
            "module c; // a comment\n I1 g1 (.a(x), .o z); endmodule",
            "n.v:2:19: expected '(' before 'z'\n I1 g1 (.a(x), .o z); endmodule\n                  ^\n",
        ),
        of_netlist(
            "// nothing\n",
            "n.v:1:1: the text has nothing but white and comments\n// nothing\n^\n",
        ),
    ]
}

/// Groups of which the last is the first that is more than 64 deep.
const TOO_DEEP: &str = "library (l) {
a(){a(){a(){a(){a(){a(){a(){a(){
a(){a(){a(){a(){a(){a(){a(){a(){
a(){a(){a(){a(){a(){a(){a(){a(){
a(){a(){a(){a(){a(){a(){a(){a(){
a(){a(){a(){a(){a(){a(){a(){a(){
a(){a(){a(){a(){a(){a(){a(){a(){
a(){a(){a(){a(){a(){a(){a(){a(){
a(){a(){a(){a(){a(){a(){a(){a(){";

fn libraries() -> [Row; 9] {
    [
        of_library(
            "library (l) {\n  a : ;\n}\n",
            "n.lib:2:7: expected a name or a string before ';'\n  a : ;\n      ^\n",
        ),
        of_library(
            "library (l) {\n  cell (c) {\n  }\n",
            "n.lib:3:4: the text ends here, and '{' of line 1 is not closed\n  }\n   ^\n",
        ),
        of_library(
            "library (l)",
            "n.lib:1:12: the text ends here, and 'library' of line 1 has no '{'\nlibrary (l)\n           ^\n",
        ),
        of_library(
            "library (l) {\n a : \"x;\n}\n",
            "n.lib:2:6: this string has no end\n a : \"x;\n     ^\n",
        ),
        of_library(
            "library (l) {\n ) }\n",
            "n.lib:2:2: expected a name, '}' or ';' before ')'\n ) }\n ^\n",
        ),
        of_library(
            TOO_DEEP,
            "n.lib:9:32: '{' opens a group that is more than 64 deep\na(){a(){a(){a(){a(){a(){a(){a(){\n                               ^\n",
        ),
        of_library("", "n.lib: the file is empty\n"),
        of_library("l (l) {}", "n.lib: the outermost group is not a library\n"),
        of_library(
            "library (l) { time_unit : \"1ps\"; }",
            "n.lib: time_unit or capacitive_load_unit is missing\n",
        ),
    ]
}

#[test]
fn each_refusal_of_a_netlist(rt: HostRuntime) -> Result<(), Fail> {
    for row in netlists() {
        assert!(rt; row_holds(&rt, rt.alloc(), row)?, "{}", row.printed);
    }
    for row in more_netlists() {
        assert!(rt; row_holds(&rt, rt.alloc(), row)?, "{}", row.printed);
    }
    Ok(())
}

#[test]
fn each_refusal_of_a_library(rt: HostRuntime) -> Result<(), Fail> {
    for row in libraries() {
        assert!(rt; row_holds(&rt, rt.alloc(), row)?, "{}", row.printed);
    }
    Ok(())
}
