//! Maps from names to values, for the readers of formats that hold many names.
//!
//! - `NameMap<V>` promises that `get` answers what the latest `insert` of the name gave it (`find` in `specs/Names.antt`
//!   says what a map holds, and each clause speaks of it alone). It owns copies of the names.
//!
//! A name stands in the bucket of its hash, and each bucket is an ordered map: a search looks at a small one where hashes
//! differ, and names that were chosen to meet in one bucket still cost no more than one ordered map of them all. No seed is
//! needed, so a map is a function of what was put into it.
//!
//! To change how names are spread, change `hash_of` in `src/names.rt` and `specs/Names.antt`.
#![tactic(auto)]

mod names;

pub use names::NameMap;
