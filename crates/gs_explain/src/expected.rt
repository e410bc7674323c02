//! What could stand in the place of a refused piece.
ghost use Rattle.std.specs.Prelude.{◌≡◌, ◌≤◌, IfOk, OnOk, [], ◌∷◌, ◌++◌, codes, length, if◌then◌else◌};
ghost use Rattle.std.specs.List.{concat};
ghost use Rattle.std.specs.Result.{result_ok};
ghost use Rattle.gs_text.specs.Bytes.{max_text};
ghost use Rattle.gs_explain.specs.Judging.{Decides, liberty_judged, verilog_judged};
ghost use Rattle.gs_explain.specs.Wanted.{AreWanted, CouldStand, IsBad, between, names};

use crate::form::{Form, Wanted, sorts_of, wanted_name, wanted_text};
use crate::joined::joined;
use gs_libtree::{LibTextErr, read_tree};
use gs_quantity::Mem;
use gs_text::MAX_TEXT;
use gs_verilog::{VerilogErr, read_netlist};
use std::alloc::Global;

/// Whether a netlist's refusal is that of piece `i` as a bad one.
fn verilog_judged(error: VerilogErr, i: usize) -> Result<bool, Mem>
    ensures { result_ok result ≡ verilog_judged error i }
{
    match error {
        VerilogErr::BadPiece { i: bad } => Ok(bad as usize == i),
        VerilogErr::Mem => Err(Mem),
        _ => Ok(false),
    }
}

/// Whether a Liberty text's refusal is that of piece `i` as a bad one.
fn liberty_judged(error: LibTextErr, i: usize) -> Result<bool, Mem>
    ensures { result_ok result ≡ liberty_judged error i }
{
    match error {
        LibTextErr::BadPiece { i: bad } => Ok(bad as usize == i),
        LibTextErr::Mem => Err(Mem),
        _ => Ok(false),
    }
}

/// Whether piece `i` is the first with which no netlist begins.
fn is_bad_netlist(alloc: Global, bytes: &[u8], i: usize) -> Result<bool, Mem>
    requires { length bytes.now ≤ max_text }
    ensures { IfOk result (Decides (IsBad Form.Netlist bytes.now i)) }
{
    match read_netlist(alloc, bytes) {
        Ok(_netlist) => Ok(false),
        Err(error) => verilog_judged(error, i),
    }
}

/// Whether piece `i` is the first with which no Liberty text begins.
fn is_bad_liberty(alloc: Global, bytes: &[u8], i: usize) -> Result<bool, Mem>
    requires { length bytes.now ≤ max_text }
    ensures { IfOk result (Decides (IsBad Form.Liberty bytes.now i)) }
{
    match read_tree(alloc, bytes) {
        Ok(_tree) => Ok(false),
        Err(error) => liberty_judged(error, i),
    }
}

/// Whether piece `i` is the first with which no text of the form begins. It reads the text.
fn is_bad(alloc: Global, form: Form, bytes: &[u8], i: usize) -> Result<bool, Mem>
    requires { length bytes.now ≤ max_text }
    ensures { IfOk result (Decides (IsBad form bytes.now i)) }
{
    match form {
        Form::Netlist => is_bad_netlist(alloc, bytes, i),
        Form::Liberty => is_bad_liberty(alloc, bytes, i),
    }
}

/// The text before a piece, and another one in the piece's place.
fn with_piece(alloc: Global, before: &[u8], piece: &str) -> Result<Vec<u8>, Mem>
    ensures { IfOk result (λ v. v.items ≡ concat (before.now ∷ codes " " ∷ piece.now ∷ [])) }
{
    joined(alloc, &[before, b" ", piece.as_bytes()])
}

/// Whether a piece of this sort could stand after the text before piece `i`. It reads that text.
fn could_stand(
    alloc: Global,
    form: Form,
    before: &[u8],
    i: usize,
    wanted: Wanted,
) -> Result<bool, Mem>
    ensures { IfOk result (Decides (CouldStand form before.now i wanted)) }
{
    let text = with_piece(alloc, before, wanted_text(wanted))?;
    if text.len() > MAX_TEXT {
        return Ok(false);
    }
    Ok(!is_bad(alloc, form, text.as_slice(), i)?)
}

/// Appends a sort of piece, if it could stand there.
fn add_if(those: &mut Vec<Wanted>, wanted: Wanted, stands: bool) -> Result<(), Mem>
    ensures { OnOk result (those.new.items ≡ (if stands then those.old.items ++ wanted ∷ [] else those.old.items)) }
{
    if !stands {
        return Ok(());
    }
    match those.push(wanted) {
        Ok(()) => Ok(()),
        Err(_) => Err(Mem),
    }
}

/// What could stand after the text before piece `i`. It reads that text once for each sort of piece that the form has.
pub(crate) fn wanted_at(
    alloc: Global,
    form: Form,
    before: &[u8],
    i: usize,
) -> Result<Vec<Wanted>, Mem>
    ensures { IfOk result (λ v. AreWanted form before.now i v.items) }
{
    let sorts = sorts_of(form);
    let mut those = Vec::new(alloc);
    let mut k = 0usize;
    while k < sorts.len() {
        let stands = could_stand(alloc, form, before, i, sorts[k])?;
        add_if(&mut those, sorts[k], stands)?;
        k += 1;
    }
    Ok(those)
}

/// What stands between a name and those after it, of which there are so many.
fn between(count: usize) -> &'static str
    ensures { result.now ≡ between count }
{
    if count == 0 {
        ""
    } else if count == 1 {
        " or "
    } else {
        ", "
    }
}

/// The names as a sentence has them.
pub(crate) fn names(alloc: Global, those: &[Wanted]) -> Result<Vec<u8>, Mem>
    ensures { IfOk result (λ v. v.items ≡ names those.now) }
{
    if those.is_empty() {
        return Ok(Vec::new(alloc));
    }
    let (first, rest) = (those[0], &those[1..]);
    let later = names(alloc, rest)?;
    joined(
        alloc,
        &[
            wanted_name(first).as_bytes(),
            between(rest.len()).as_bytes(),
            later.as_slice(),
        ],
    )
}
