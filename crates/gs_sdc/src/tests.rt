//! Worked constraints and refusals.
#![tactic(auto)]

ghost use Rattle.std.specs.Prelude.{◌≤◌};

use crate::{Constraints, PortValue, SdcErr, read_sdc};
use gs_design::Units;
use gs_quantity::{Micro, print_micro};
use std::alloc::{AllocError, Global};
use std::test::Fail;

/// Units of 1 ps and 1 fF, times these powers of ten.
fn units(time_tens: u8, load_tens: u8) -> Units
    requires time { time_tens ≤ 9 }
    requires load { load_tens ≤ 9 }
{
    Units {
        time_tens,
        load_tens,
    }
}

/// Reads a text with values in ns and 10 fF, unless it is longer than the tests' longest.
fn read_bytes(alloc: Global, bytes: &[u8]) -> Result<Constraints, SdcErr> {
    if bytes.len() > 20_000_000 {
        return Err(SdcErr::Mem);
    }
    read_sdc(alloc, bytes, units(3, 1))
}

fn read(alloc: Global, text: &str) -> Result<Constraints, SdcErr> {
    read_bytes(alloc, text.as_bytes())
}

/// A text of one clock, at a port with a name of so many bytes, and with a waveform of so many words.
fn wide(alloc: Global, name: usize, words: usize) -> Result<Vec<u8>, AllocError> {
    let mut text = Vec::new(alloc);
    text.extend_from_slice(b"create_clock -period 1 -waveform {")?;
    for _ in 0..words {
        text.extend_from_slice(b" 0")?;
    }
    text.extend_from_slice(b"} [get_ports ")?;
    for _ in 0..name {
        text.push(b'c')?;
    }
    text.extend_from_slice(b"]\n")?;
    Ok(text)
}

fn add_number(alloc: Global, out: &mut Vec<u8>, number: Micro) -> Option<()> {
    print_micro(alloc, number, out).ok()?;
    out.push(b' ').ok()
}

fn add_values(alloc: Global, out: &mut Vec<u8>, values: &[PortValue]) -> Option<()> {
    out.push(b'|').ok()?;
    for value in values {
        out.extend_from_slice(value.port.as_bytes()).ok()?;
        out.push(b'=').ok()?;
        add_number(alloc, out, value.value)?;
    }
    Some(())
}

/// Constraints as text: the period, the clock's ports, the input delays, the output delays, the loads, the driving cells.
fn shown(alloc: Global, read: &Constraints) -> Option<Vec<u8>> {
    let mut out = Vec::new(alloc);
    add_number(alloc, &mut out, read.period())?;
    for port in read.clock_ports() {
        out.extend_from_slice(port.as_bytes()).ok()?;
        out.push(b' ').ok()?;
    }
    add_values(alloc, &mut out, read.inputs())?;
    add_values(alloc, &mut out, read.outputs())?;
    add_values(alloc, &mut out, read.loads())?;
    out.push(b'|').ok()?;
    for driver in read.drivers() {
        out.extend_from_slice(driver.port.as_bytes()).ok()?;
        out.push(b'=').ok()?;
        out.extend_from_slice(driver.cell.as_bytes()).ok()?;
        if let Some(pin) = &driver.pin {
            out.push(b'/').ok()?;
            out.extend_from_slice(pin.as_bytes()).ok()?;
        }
        out.push(b' ').ok()?;
        add_number(alloc, &mut out, driver.rise)?;
        add_number(alloc, &mut out, driver.fall)?;
    }
    Some(out)
}

#[test]
fn reads_worked_constraints(rt: HostRuntime) {
    for (text, want) in [
        ("create_clock -period 0.1", "100.000000 ||||"),
        (
            "create_clock -name ck -period 0.1 [get_ports ck]\nset_input_delay -max [get_ports {x y}] 0.005 -clock [get_clocks ck]",
            "100.000000 ck |x=5.000000 y=5.000000 |||",
        ),
        // After the contest's manner.
        (
            "# contest-like constraints\ncreate_clock -name mclk -period 20.0\nset_input_delay 5.0 [get_ports {x}] -clock [get_clocks {mclk}]\nset_driving_cell -lib_cell I2 -pin o [get_ports {x}] -input_transition_fall 80.0 -input_transition_rise 70.0\nset_output_delay 0.0 [get_ports {z}] -clock [get_clocks {mclk}]\nset_load -pin_load 4.0 [get_ports {z}]\n",
            "20000.000000 |x=5000.000000 |z=0.000000 |z=40.000000 |x=I2/o 70000.000000 80000.000000 ",
        ),
        // Parts in any order, continued lines, texts between quotes, a waveform of any words, a delay below 0.
        (
            "set sdc_version 1.7\ncurrent_design \"a b\"\r\n\n  # a comment \\\ncreate_clock [get_ports {ck ck}] \\\n -waveform {0 [x} -period 1e0 -name \"x y\"\nset_output_delay \"-clock\" c -0.5 \"-max\" [get_ports \"a b\"]\nset_load [get_ports a] 0\nset_driving_cell [get_ports -q] -lib_cell I1",
            "1000.000000 ck ck ||a b=-500.000000 |a=0.000000 |-q=I1 0.000000 0.000000 ",
        ),
        // Between braces all bytes but white and the closing brace are a name's, and a continued line end is white.
        (
            "create_clock -period 1 [get_ports {a\"b [c]d\\\n{e #f]}]",
            "1000.000000 a\"b [c]d {e #f] ||||",
        ),
        // A word has what looks like a comment; a command's first line may hold nothing but the backslash.
        (
            "\\\n# create_clock\n\\\ncurrent_design a//b#c\ncreate_clock -period 1",
            "1000.000000 ||||",
        ),
        // What is rounded is judged.
        (
            "create_clock -period 1e-9\nset_load -0.00000001 [get_ports {a b}] -pin_load",
            "0.000001 |||a=0.000000 b=0.000000 |",
        ),
        // The kinds of values are apart.
        (
            "create_clock -period 1\nset_input_delay 1 [get_ports a]\nset_output_delay 1 [get_ports a]\nset_load 1 [get_ports a]\nset_driving_cell -lib_cell c [get_ports a]",
            "1000.000000 |a=1000.000000 |a=1000.000000 |a=10.000000 |a=c 0.000000 0.000000 ",
        ),
    ] {
        let got = match read(rt.alloc(), text) {
            Ok(constraints) => shown(rt.alloc(), &constraints),
            Err(_) => None,
        };
        let got = got.unwrap_or(Vec::new(rt.alloc()));
        assert!(rt; got.as_slice() == want.as_bytes(), "at {text}");
    }
}

#[test]
fn refuses_at_the_exact_line(rt: HostRuntime) {
    for (text, want) in [
        ("", SdcErr::NoClock { i: 0 }),
        ("# a comment", SdcErr::NoClock { i: 1 }),
        ("current_design a\n\n", SdcErr::NoClock { i: 2 }),
        (
            "create_clock -period 1\nset_input_delay 5 [get_ports {x y}]\nset_input_delay 5 [get_ports {x y}]",
            SdcErr::TwoValues { i: 3 },
        ),
        (
            "create_clock -period 1\nset_load 1 [get_ports {x x}]",
            SdcErr::TwoValues { i: 2 },
        ),
        (
            "set_driving_cell -lib_cell a [get_ports x]\n\nset_driving_cell -lib_cell b [get_ports x]",
            SdcErr::TwoValues { i: 3 },
        ),
        (
            "create_clock -period 1\ncreate_clock -period 1",
            SdcErr::TwoClocks { i: 2 },
        ),
        (
            "create_clock -period 1\ncreate_clock -period 0",
            SdcErr::BadLine { i: 2 },
        ),
        (
            "create_clock -period 1\ncreate_clock -period 1\nset_max_area 5",
            SdcErr::TwoClocks { i: 2 },
        ),
        (
            "create_clock -period 1\nset_load 1 [get_ports {a b}]\nset_load -pin_load [get_ports b] 2",
            SdcErr::TwoValues { i: 3 },
        ),
        (
            "set_output_delay 1 [get_ports x]\nset_output_delay -max 2 [get_ports x]\nfoo",
            SdcErr::TwoValues { i: 2 },
        ),
        // Only a backslash directly before the newline joins lines, and a quote needs its partner on its line.
        ("create_clock \\\r\n -period 1\n", SdcErr::BadLine { i: 1 }),
        (
            "create_clock -period 1 -name \"a\nb\"",
            SdcErr::BadLine { i: 1 },
        ),
        ("set_max_area 5", SdcErr::NotBuilt { i: 1 }),
        ("\nset_max_area {", SdcErr::NotBuilt { i: 2 }),
        (
            "create_clock -period 0.0000000001",
            SdcErr::BadLine { i: 1 },
        ),
        ("create_clock -period -1", SdcErr::BadLine { i: 1 }),
        ("create_clock", SdcErr::BadLine { i: 1 }),
        ("create_clock -period 1 -period 1", SdcErr::BadLine { i: 1 }),
        ("create_clock -period 1 2", SdcErr::BadLine { i: 1 }),
        ("create_clock -period 1 -max", SdcErr::BadLine { i: 1 }),
        ("create_clock -period -name x", SdcErr::BadLine { i: 1 }),
        (
            "create_clock -period 1 -waveform x",
            SdcErr::BadLine { i: 1 },
        ),
        (
            "create_clock -period 1099.511627776",
            SdcErr::BadLine { i: 1 },
        ),
        ("create_clock -period 1 # x", SdcErr::BadLine { i: 1 }),
        ("set sdc_version", SdcErr::BadLine { i: 1 }),
        ("set x 1", SdcErr::BadLine { i: 1 }),
        ("current_design a b", SdcErr::BadLine { i: 1 }),
        ("foo", SdcErr::BadLine { i: 1 }),
        ("{", SdcErr::BadLine { i: 1 }),
        ("\"", SdcErr::BadLine { i: 1 }),
        ("set_load 1 [get_ports {}]", SdcErr::BadLine { i: 1 }),
        ("set_load 1 [get_ports x y]", SdcErr::BadLine { i: 1 }),
        ("set_load 1 [get_nets x]", SdcErr::BadLine { i: 1 }),
        ("set_load 1", SdcErr::BadLine { i: 1 }),
        ("set_load [get_ports x]", SdcErr::BadLine { i: 1 }),
        ("set_load -1 [get_ports x]", SdcErr::BadLine { i: 1 }),
        ("set_load 1x [get_ports x]", SdcErr::BadLine { i: 1 }),
        (
            "set_load 1 [get_ports x] [get_ports y]",
            SdcErr::BadLine { i: 1 },
        ),
        (
            "set_input_delay 1 [get_ports x] -clock -max",
            SdcErr::BadLine { i: 1 },
        ),
        (
            "set_input_delay 1 [get_ports x] -clock [get_clocks {a b}]",
            SdcErr::BadLine { i: 1 },
        ),
        ("set_driving_cell [get_ports x]", SdcErr::BadLine { i: 1 }),
        (
            "set_driving_cell -lib_cell a [get_ports x] -input_transition_rise -1",
            SdcErr::BadLine { i: 1 },
        ),
        // The line of a command is its first, even where that holds nothing but the backslash.
        ("\n\\\n\\\nfoo", SdcErr::BadLine { i: 2 }),
    ] {
        let got = read(rt.alloc(), text).err();
        assert_eq!(rt; got, Some(want), "at {text}");
    }
}

#[test]
fn reads_long_words_and_long_lines(rt: HostRuntime) -> Result<(), Fail> {
    for (name, words) in [(1_000_000, 0), (1, 5_000_000)] {
        let text = wide(rt.alloc(), name, words)?;
        let got = read_bytes(rt.alloc(), text.as_slice());
        let mut names = Vec::new(rt.alloc());
        if let Ok(constraints) = &got {
            assert_eq!(rt; constraints.max_area(), None);
            for port in constraints.clock_ports() {
                names.push(port.as_bytes().len())?;
            }
        }
        assert!(rt; names.as_slice() == [name].as_slice());
    }
    Ok(())
}
