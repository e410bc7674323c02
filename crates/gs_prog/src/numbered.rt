//! Texts with numbers in them.

use itoa::Buffer;
use std::alloc::AllocError;

/// Adds a text and a number.
pub(crate) fn add(text: &mut Vec<u8>, before: &[u8], number: u32) -> Result<(), AllocError> {
    let mut digits = Buffer::new();
    text.extend_from_slice(before)?;
    text.extend_from_slice(digits.format(number).as_bytes())
}
