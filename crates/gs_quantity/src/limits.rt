// The limits of numbers, each stated here and nowhere else: clauses and definitions cite these names.

/// The magnitude of a number in a text is below this many millionths, `2^40`.
pub const NUMBER_LIMIT: u64 = 1 << 40;

/// The magnitude of a table's points and values is below this many millionths, `2^34`.
pub const TABLE_LIMIT: u64 = 1 << 34;

/// Queries of a table, delays and slews are held to this many millionths, `2^36`.
pub const RANGE_LIMIT: u64 = 1 << 36;
