// How a quantity is printed.
ghost use Rattle.std.specs.Prelude.{◌≡◌, ◌++◌, ◌∷◌, ◌<◌, ℕ, take, drop, vec_len, nat_abs, is_ok, IfOk, Ok, if◌then◌else◌};
ghost use Rattle.gs_quantity.specs.Print.{magnitude_text, micro_text};
ghost use Rattle.gs_quantity.specs.Decimal.{read_of};

use crate::limits::NUMBER_LIMIT;
use crate::micro::{Mem, Micro};
use itoa::Buffer;
use std::alloc::{AllocError, Global};

const MILLION: u64 = 1_000_000;

// What follows the first byte.
fn after_first(text: &[u8]) -> &[u8]
    ensures { result.now ≡ drop 1 text.now }
{
    if text.is_empty() { text } else { &text[1..] }
}

fn append_magnitude(magnitude: u64, out: &mut Vec<u8>) -> Result<(), AllocError>
    ensures text { IfOk result (λ _. out.new.items ≡ out.old.items ++ magnitude_text magnitude) }
    ensures kept { take (vec_len out.old) out.new.items ≡ out.old.items }
{
    let mut whole = Buffer::new();
    out.extend_from_slice(whole.format(magnitude / MILLION).as_bytes())?;
    out.push(b'.')?;
    let mut part = Buffer::new();
    out.extend_from_slice(after_first(part.format(MILLION + magnitude % MILLION).as_bytes()))?;
    Ok(())
}

fn append(m: Micro, out: &mut Vec<u8>) -> Result<(), AllocError>
    ensures text { IfOk result (λ _. out.new.items ≡ out.old.items ++ micro_text m) }
    ensures kept { take (vec_len out.old) out.new.items ≡ out.old.items }
{
    if m.0 < 0 {
        out.push(b'-')?;
    }
    append_magnitude(m.0.unsigned_abs(), out)
}

/// Appends a minus where the number is negative, the whole part, a point and six digits. The text grows on `out`'s own
/// allocator. After `Mem`, `out` holds what it held.
///
/// A magnitude below `NUMBER_LIMIT`, 2^40 millionths, reads back as itself (`printed_reads_back`); any other is printed in
/// the same form, and refused as out of range where it is read.
pub fn print_micro(_alloc: Global, m: Micro, out: &mut Vec<u8>) -> Result<(), Mem>
    ensures { out.new.items ≡ (if is_ok result then out.old.items ++ micro_text m else out.old.items) }
{
    let before = out.len();
    match append(m, out) {
        Ok(()) => Ok(()),
        Err(error) => {
            out.truncate(before);
            Err(Mem::from(error))
        }
    }
}

/// The law that a number as it is printed reads back as itself.
pub fn printed_reads_back(m: Micro)
    requires { nat_abs m < NUMBER_LIMIT }
    ensures { read_of (micro_text m) 0 ≡ Ok m }
{
    let _ = m;
}
