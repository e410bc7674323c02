//! What is printed of a status.
ghost use Rattle.std.specs.Prelude.{◌≡◌, ◌≢◌, ◌≤◌, IfOk, IfSome, MatchOption, codes, length};
ghost use Rattle.gs_shelf.specs.Faults.{NoneFell};
ghost use Rattle.gs_shelf.specs.Files.{AllStay, content};
ghost use Rattle.gs_text.specs.Bytes.{max_text};
ghost use Rattle.gs_top.specs.Job.{job_of};
ghost use Rattle.gs_top.specs.Kind.{Refused, kind_of};
ghost use Rattle.gs_explain.specs.Explain.{IsDesignExplained, IsExplained, IsLibraryExplained, IsLost, IsObjectExplained, IsTextExplained, IsTwiceExplained, IsTwiceWith, input_name, memory_text, output_name, unread_text, unwritten_text};
ghost use Rattle.gs_explain.specs.Located.{unplaced};
ghost use Rattle.gs_explain.specs.Rest.{link_file};

use crate::excerpt::unplaced;
use crate::files::{input_name, job_in, output_name};
use crate::joined::joined;
use crate::object::{design_told, library_told};
use crate::rest::{lib_text, link_file, link_text, reason_text, two_drivers};
use crate::spot::explain_spot;
use crate::text::{spot_of, why_text};
use crate::twice::{net_told, twice_driven, twice_told};
use crate::words::usage_text;
use gs_lib::LibErr;
use gs_quantity::Mem;
use gs_shelf::{FetchErr, Reason, Shelf, read_whole};
use gs_survey::LinkErr;
use gs_text::Name;
use gs_top::{Input, Output, Status, TextWhy, Words};
use std::alloc::Global;

/// What is printed where memory ran out.
fn memory_text(alloc: Global) -> Result<Vec<u8>, Mem>
    ensures { IfOk result (λ v. v.items ≡ memory_text) }
{
    joined(alloc, &[b"gate-sizer: memory ran out\n"])
}

/// What is printed of a file that could not be read.
fn explain_unread(
    alloc: Global,
    words: &Words,
    file: Input,
    reason: Option<Reason>,
) -> Result<Vec<u8>, Mem>
    ensures { IfOk result (λ v. v.items ≡ unplaced (input_name (job_of words.now) file) (unread_text reason)) }
{
    let job = job_in(alloc, words)?;
    let said = joined(
        alloc,
        &[b"the file cannot be read", reason_text(reason).as_bytes()],
    )?;
    unplaced(alloc, input_name(&job, file).as_bytes(), said.as_slice())
}

/// What is printed of a file that has too many bytes.
fn explain_large(alloc: Global, words: &Words, file: Input) -> Result<Vec<u8>, Mem>
    ensures { IfOk result (λ v. v.items ≡ unplaced (input_name (job_of words.now) file) (codes "the file has more than 268435456 bytes")) }
{
    let job = job_in(alloc, words)?;
    unplaced(
        alloc,
        input_name(&job, file).as_bytes(),
        b"the file has more than 268435456 bytes",
    )
}

/// What is printed of a file that could not be written.
fn explain_unwritten(
    alloc: Global,
    words: &Words,
    to: Output,
    reason: Option<Reason>,
) -> Result<Vec<u8>, Mem>
    ensures { IfOk result (λ v. v.items ≡ unplaced (output_name (job_of words.now) to) (unwritten_text reason)) }
{
    let job = job_in(alloc, words)?;
    let said = joined(
        alloc,
        &[
            b"the file cannot be written",
            reason_text(reason).as_bytes(),
        ],
    )?;
    unplaced(alloc, output_name(&job, to).as_bytes(), said.as_slice())
}

/// A file of this name, and what is said of it.
fn named(alloc: Global, name: &str, said: Vec<u8>) -> Result<Vec<u8>, Mem>
    ensures { IfOk result (λ v. v.items ≡ unplaced name.now said.items) }
{
    unplaced(alloc, name.as_bytes(), said.as_slice())
}

/// The bytes of a refused file once more, or nothing where it is lost.
fn read_again<H: Shelf>(alloc: Global, name: &str, shelf: &mut H) -> Result<Option<Vec<u8>>, Mem>
    ensures bytes { IfOk result (λ o. MatchOption o (IsLost H.tells name.now (H.files shelf.old) (H.faults shelf.old) (H.faults shelf.new)) (λ v. H.tells → v.items ≡ content (H.files shelf.old) name.now)) }
    ensures within { IfOk result (λ o. IfSome o (λ v. length v.items ≤ max_text)) }
    ensures stay { AllStay (H.files shelf.old) (H.files shelf.new) }
    ensures said { H.said shelf.new ≡ H.said shelf.old }
    ensures later { NoneFell (H.faults shelf.old) (H.faults shelf.new) }
{
    match read_whole(alloc, shelf, name) {
        Ok(bytes) => Ok(Some(bytes)),
        Err(FetchErr::Mem) => Err(Mem),
        Err(FetchErr::Failed) => Ok(None),
        Err(FetchErr::TooLarge) => Ok(None),
    }
}

/// What is printed of a refused text. It fetches the text again.
fn explain_text<H: Shelf>(
    alloc: Global,
    words: &Words,
    file: Input,
    why: TextWhy,
    place: u32,
    shelf: &mut H,
) -> Result<Vec<u8>, Mem>
    ensures text { IfOk result (λ v. IsTextExplained H.tells (input_name (job_of words.now) file) file why place (H.files shelf.old) (H.faults shelf.old) (H.faults shelf.new) v.items) }
    ensures stay { AllStay (H.files shelf.old) (H.files shelf.new) }
    ensures said { H.said shelf.new ≡ H.said shelf.old }
    ensures later { NoneFell (H.faults shelf.old) (H.faults shelf.new) }
{
    let job = job_in(alloc, words)?;
    let name = input_name(&job, file);
    let what = why_text(file, why);
    match read_again(alloc, name, shelf)? {
        Some(bytes) => explain_spot(
            alloc,
            name,
            spot_of(file, why, place),
            what,
            bytes.as_slice(),
        ),
        None => unplaced(alloc, name.as_bytes(), what.as_bytes()),
    }
}

/// What is printed of a library's refusal. It fetches the library again.
fn explain_library<H: Shelf>(
    alloc: Global,
    words: &Words,
    error: &LibErr,
    shelf: &mut H,
) -> Result<Vec<u8>, Mem>
    ensures text { IfOk result (λ v. IsLibraryExplained H.tells (input_name (job_of words.now) Input.Lib) error.now (H.files shelf.old) (H.faults shelf.old) (H.faults shelf.new) v.items) }
    ensures stay { AllStay (H.files shelf.old) (H.files shelf.new) }
    ensures said { H.said shelf.new ≡ H.said shelf.old }
    ensures later { NoneFell (H.faults shelf.old) (H.faults shelf.new) }
{
    let job = job_in(alloc, words)?;
    let name = input_name(&job, Input::Lib);
    match read_again(alloc, name, shelf)? {
        Some(bytes) => library_told(alloc, name.as_bytes(), error, bytes.as_slice()),
        None => named(alloc, name, lib_text(alloc, error)?),
    }
}

/// What is printed of a net with two drivers, by the netlist's bytes. It fetches the library.
fn twice_with<H: Shelf>(
    alloc: Global,
    lib: &str,
    net: &Name,
    name: &str,
    bytes: &[u8],
    shelf: &mut H,
) -> Result<Vec<u8>, Mem>
    requires { length bytes.now ≤ max_text }
    ensures text { IfOk result (λ v. IsTwiceWith H.tells lib.now net.now name.now (H.files shelf.old) (H.faults shelf.old) (H.faults shelf.new) bytes.now v.items) }
    ensures stay { AllStay (H.files shelf.old) (H.files shelf.new) }
    ensures said { H.said shelf.new ≡ H.said shelf.old }
    ensures later { NoneFell (H.faults shelf.old) (H.faults shelf.new) }
{
    match read_again(alloc, lib, shelf)? {
        Some(library) => twice_told(alloc, library.as_slice(), net, name.as_bytes(), bytes),
        None => net_told(alloc, net, name.as_bytes(), bytes),
    }
}

/// What is printed of a net with two drivers, by files of these names. It fetches the netlist again, and the library.
fn twice_from<H: Shelf>(
    alloc: Global,
    lib: &str,
    name: &str,
    net: &Name,
    shelf: &mut H,
) -> Result<Vec<u8>, Mem>
    ensures text { IfOk result (λ v. IsTwiceExplained H.tells lib.now net.now name.now (H.files shelf.old) (H.faults shelf.old) (H.faults shelf.new) v.items) }
    ensures stay { AllStay (H.files shelf.old) (H.files shelf.new) }
    ensures said { H.said shelf.new ≡ H.said shelf.old }
    ensures later { NoneFell (H.faults shelf.old) (H.faults shelf.new) }
{
    match read_again(alloc, name, shelf)? {
        Some(bytes) => twice_with(alloc, lib, net, name, bytes.as_slice(), shelf),
        None => named(alloc, name, two_drivers(alloc, net)?),
    }
}

/// What is printed of a net with two drivers.
fn explain_twice<H: Shelf>(
    alloc: Global,
    words: &Words,
    net: &Name,
    shelf: &mut H,
) -> Result<Vec<u8>, Mem>
    ensures text { IfOk result (λ v. IsTwiceExplained H.tells (input_name (job_of words.now) Input.Lib) net.now (input_name (job_of words.now) Input.Verilog) (H.files shelf.old) (H.faults shelf.old) (H.faults shelf.new) v.items) }
    ensures stay { AllStay (H.files shelf.old) (H.files shelf.new) }
    ensures said { H.said shelf.new ≡ H.said shelf.old }
    ensures later { NoneFell (H.faults shelf.old) (H.faults shelf.new) }
{
    let job = job_in(alloc, words)?;
    let lib = input_name(&job, Input::Lib);
    let name = input_name(&job, Input::Verilog);
    twice_from(alloc, lib, name, net, shelf)
}

/// What is printed of a refusal by its object. It fetches the file that is at fault again.
fn explain_object<H: Shelf>(
    alloc: Global,
    words: &Words,
    error: &LinkErr,
    shelf: &mut H,
) -> Result<Vec<u8>, Mem>
    ensures text { IfOk result (λ v. IsObjectExplained H.tells (input_name (job_of words.now) (link_file error.now)) error.now (H.files shelf.old) (H.faults shelf.old) (H.faults shelf.new) v.items) }
    ensures stay { AllStay (H.files shelf.old) (H.files shelf.new) }
    ensures said { H.said shelf.new ≡ H.said shelf.old }
    ensures later { NoneFell (H.faults shelf.old) (H.faults shelf.new) }
{
    let job = job_in(alloc, words)?;
    let name = input_name(&job, link_file(error));
    match read_again(alloc, name, shelf)? {
        Some(bytes) => design_told(alloc, name.as_bytes(), error, bytes.as_slice()),
        None => named(alloc, name, link_text(alloc, error)?),
    }
}

/// What is printed of a design's refusal. It fetches the file that is at fault again, and for a net with two drivers the library too.
fn explain_design<H: Shelf>(
    alloc: Global,
    words: &Words,
    error: &LinkErr,
    shelf: &mut H,
) -> Result<Vec<u8>, Mem>
    ensures text { IfOk result (λ v. IsDesignExplained H.tells (job_of words.now) error.now (H.files shelf.old) (H.faults shelf.old) (H.faults shelf.new) v.items) }
    ensures stay { AllStay (H.files shelf.old) (H.files shelf.new) }
    ensures said { H.said shelf.new ≡ H.said shelf.old }
    ensures later { NoneFell (H.faults shelf.old) (H.faults shelf.new) }
{
    match twice_driven(error) {
        Some(net) => explain_twice(alloc, words, net, shelf),
        None => explain_object(alloc, words, error, shelf),
    }
}

/// What a designer reads of a status beside its line, in the form that compilers use: the file, the line and the column, what is wrong;
/// the text's line; a mark under the place. Nothing after a success. The text is not printed here.
///
/// `reason` is why the shelf's last fault came, as far as the system tells. Lines and columns count from 1, a column counts bytes, and a
/// tab is one. A refused text is fetched again, and for a net with two drivers the library too. To tell what could stand in the place of a
/// refused piece, the text before it is read once for each sort of piece of its format, at most 11 times.
///
/// # Errors
///
/// `Mem` where memory ran out.
pub fn explain<H: Shelf>(
    alloc: Global,
    words: &Words,
    status: &Status,
    reason: Option<Reason>,
    shelf: &mut H,
) -> Result<Vec<u8>, Mem>
    // What is printed of the status.
    ensures text { IfOk result (λ v. IsExplained H.tells words.now status.now reason (H.files shelf.old) (H.faults shelf.old) (H.faults shelf.new) v.items) }
    // The shelf is called after a refusal alone, as the bytes of the files decide it.
    ensures untouched { kind_of status.now ≢ Refused → shelf.new ≡ shelf.old }
    // No file changes, nothing is said, and no count of faults falls.
    ensures stay { AllStay (H.files shelf.old) (H.files shelf.new) }
    ensures said { H.said shelf.new ≡ H.said shelf.old }
    ensures later { NoneFell (H.faults shelf.old) (H.faults shelf.new) }
{
    match status {
        Status::Done { .. } | Status::Checked { .. } => Ok(Vec::new(alloc)),
        Status::Usage => usage_text(alloc, words),
        Status::ReadFault { file } => explain_unread(alloc, words, *file, reason),
        Status::TooLarge { file } => explain_large(alloc, words, *file),
        Status::BadText { file, why, place } => {
            explain_text(alloc, words, *file, *why, *place, shelf)
        }
        Status::BadLibrary(error) => explain_library(alloc, words, error, shelf),
        Status::BadDesign(error) => explain_design(alloc, words, error, shelf),
        Status::WriteFault { file } => explain_unwritten(alloc, words, *file, reason),
        Status::OutOfMemory => memory_text(alloc),
    }
}
