//! Worked netlists and refusals.

use crate::{Netlist, VerilogErr, read_netlist};
use std::alloc::{AllocError, Global};

/// Reads a short text.
fn read(alloc: Global, text: &str) -> Result<Netlist, VerilogErr> {
    let bytes = text.as_bytes();
    if bytes.len() > 1000 {
        return Err(VerilogErr::Mem);
    }
    read_netlist(alloc, bytes)
}

fn digit(number: u32) -> u8 {
    b'0' + (number % 10) as u8
}

/// A netlist as text: its name, the ports, the nets, and a line for each instance.
fn shown(alloc: Global, netlist: &Netlist) -> Result<Vec<u8>, AllocError> {
    let mut out = Vec::from_slice(alloc, netlist.name())?;
    for port in netlist.ports() {
        out.push(b' ')?;
        out.push(if port.input { b'>' } else { b'<' })?;
        out.push(digit(port.net))?;
    }
    for net in netlist.nets() {
        out.push(b' ')?;
        out.extend_from_slice(net.as_bytes())?;
    }
    for inst in netlist.insts() {
        out.push(b'\n')?;
        out.extend_from_slice(inst.name.as_bytes())?;
        out.push(b' ')?;
        out.extend_from_slice(inst.cell.as_bytes())?;
        for link in inst.links.as_slice() {
            out.push(b' ')?;
            out.extend_from_slice(link.pin.as_bytes())?;
            out.push(digit(link.net))?;
        }
    }
    Ok(out)
}

#[test]
fn refuses_at_the_exact_piece(rt: HostRuntime) {
    for (text, want) in [
        ("", VerilogErr::NoEnd { i: 0 }),
        ("module m (a); input a", VerilogErr::NoEnd { i: 8 }),
        (
            "module m (a); input 1; endmodule",
            VerilogErr::BadPiece { i: 7 },
        ),
        ("module m; input a endmodule", VerilogErr::BadPiece { i: 5 }),
        (
            "module m; input a b; endmodule",
            VerilogErr::BadPiece { i: 5 },
        ),
        ("module m; endmodule x", VerilogErr::BadPiece { i: 4 }),
        ("module m (a,); endmodule", VerilogErr::BadPiece { i: 5 }),
        (
            "module m; input wire; endmodule",
            VerilogErr::BadPiece { i: 4 },
        ),
        (
            "module m; input a; output a; endmodule",
            VerilogErr::TwoNames { i: 7 },
        ),
        (
            "module m; I g (); J g (); endmodule",
            VerilogErr::TwoNames { i: 9 },
        ),
        (
            "module m; I g (.a(x), .a(y)); endmodule",
            VerilogErr::TwoNames { i: 13 },
        ),
        ("module m; b /* a /", VerilogErr::OpenComment { at: 12 }),
        (
            "module m; \\input ; endmodule",
            VerilogErr::BadPiece { i: 4 },
        ),
    ] {
        let got = read(rt.alloc(), text).err();
        assert_eq!(rt; got, Some(want), "at {text}");
    }
}

#[test]
fn reads_worked_netlists(rt: HostRuntime) {
    for (text, want) in [
        ("module e (a); input a; endmodule", "e >0 a"),
        (
            "module c (x, z); input x; output z; wire n1; I2 g1 (.a(x), .o(n1)); I2 g2 (.a(n1), .o(z)); endmodule",
            "c >0 <1 x z n1\ng1 I2 a0 o2\ng2 I2 a2 o1",
        ),
        (
            "module m; N g (.b(q), .o(p)); N h (.b(q)); F k (); input q; wire p, q, n[0]; endmodule",
            "m >0 q p n[0]\ng N b0 o1\nh N b0\nk F",
        ),
        (
            "module m; // one name, written twice\nN g (.a(\\n[0] ), .b(n[0])); /* c */ wire \\a+b ; endmodule",
            "m n[0] a+b\ng N a0 b0",
        ),
    ] {
        let got = match read(rt.alloc(), text) {
            Ok(netlist) => shown(rt.alloc(), &netlist).ok(),
            Err(_) => None,
        };
        let got = got.unwrap_or(Vec::new(rt.alloc()));
        assert!(rt; got.as_slice() == want.as_bytes(), "at {text}");
    }
}
