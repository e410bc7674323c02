//! Numbers, and numbers that may not be negative, where it doesn't matter why one is refused.
#![tactic(auto)]

ghost use Rattle.std.specs.Prelude.{◌≡◌, ◌≤◌, IfSome};
ghost use Rattle.gs_amount.specs.Amount.{IsAmount, IsLimited, amount_of, number_of, unless_negative, where_read};

use gs_quantity::{Micro, NumErr, read_decimal};

/// What was read, where it is a number that isn't negative.
fn unless_negative(read: Result<Micro, NumErr>) -> Option<Micro>
    ensures { result ≡ unless_negative read }
{
    match read {
        Ok(amount) => {
            if amount.0 < 0 {
                return None;
            }
            Some(amount)
        }
        Err(_) => None,
    }
}

/// Reads a decimal number that may not be negative, as `read_decimal` does: `None` where that refuses the bytes, or the number,
/// once it is rounded, is negative. It takes no memory.
pub fn read_amount(bytes: &[u8], tens: u8) -> Option<Micro>
    requires { tens ≤ 9 }
    ensures value { result ≡ amount_of bytes.now tens }
    ensures kept { IfSome result (λ m. IsAmount m) }
{
    unless_negative(read_decimal(bytes, tens))
}

/// What was read, where it is a number.
fn where_read(read: Result<Micro, NumErr>) -> Option<Micro>
    ensures { result ≡ where_read read }
{
    match read {
        Ok(number) => Some(number),
        Err(_) => None,
    }
}

/// Reads a decimal number, as `read_decimal` does: `None` where that refuses the bytes. It takes no memory.
pub fn read_number(bytes: &[u8], tens: u8) -> Option<Micro>
    requires { tens ≤ 9 }
    ensures value { result ≡ number_of bytes.now tens }
    ensures kept { IfSome result (λ m. IsLimited m) }
{
    where_read(read_decimal(bytes, tens))
}
