//! What a value says of itself to stand behind the lock.
ghost use Rattle.std.specs.Prelude.{List};

/// A value that can stand behind a [`Hall`](crate::Hall). The lock never looks at it: both meanings exist in the proofs alone.
///
/// The value is let go where memory is wanted, hence `Drop`.
pub trait Told: Drop {
    /// What stays as it is for as long as the hall is open.
    type Tag;
    /// An element of the list that only grows.
    type Row;

    ghost tag: { Self → Self.Tag };

    /// The list for which the value stands.
    ghost list: { Self → List Self.Row };
}
