//! A map from names to values.
#![tactic(auto)]

ghost use Rattle.std.specs.Prelude.{◌≡◌, ◌<◌, ◌%◌, ◌^◌, ℕ, List, None, Some, length, IfOk, OnErr, OnOk, option_copied};
ghost use Rattle.std.specs.BTreeMap.{IsEmpty};
ghost use Rattle.std.specs.List.{All};
ghost use Rattle.std.specs.Map.{update};
ghost use Rattle.std.specs.Str.{bytes_eq};
ghost use Rattle.gs_names.specs.Names.{HasBuckets, find, hash_of};

use gs_text::Name;
use std::alloc::{AllocError, Global};
use std::collections::BTreeMap;

/// Some of the names, each with its hash before it, so that most comparisons don't look at the text.
type Bucket<V> = BTreeMap<(u64, Name), V>;

/// A map from names to values, which owns copies of the names.
#[derive(Drop)]
pub struct NameMap<V> {
    buckets: Vec<Bucket<V>>,
}

/// All bytes of a name as one number.
#[tactic(auto, unfolding(crate::specs::Names::hash_of))]
fn hash_of(name: &[u8]) -> u64
    ensures { result ≡ hash_of name.now }
{
    name.iter().fold(0u64, |hash, byte| {
        hash.wrapping_mul(31).wrapping_add(u64::from(*byte))
    })
}

/// `count` empty buckets.
fn empty_buckets<V: Drop>(alloc: Global, count: usize) -> Result<Vec<Bucket<V>>, AllocError>
    ensures count { IfOk result (λ buckets. length buckets.items ≡ count) }
    ensures empty { IfOk result (λ buckets. All IsEmpty buckets.items) }
{
    let mut buckets = Vec::with_capacity(alloc, count)?;
    for _ in 0..count {
        buckets.push(BTreeMap::new(alloc))?;
    }
    Ok(buckets)
}

impl<V: Drop> NameMap<V> {
    /// No names, in `count` buckets. A map is quick where there is a bucket for each dozen of names, or more.
    pub fn new(alloc: Global, count: usize) -> Result<NameMap<V>, AllocError>
        requires { 0 < count }
        ensures buckets { IfOk result HasBuckets }
        ensures empty { IfOk result (λ m. (q : List ℕ) → find m q ≡ None) }
    {
        let buckets = empty_buckets(alloc, count)?;
        Ok(NameMap { buckets })
    }

    /// The place of a hash's bucket.
    fn place(&self, hash: u64) -> usize
        requires { HasBuckets self.now }
        ensures { result ≡ hash % length self.now.buckets.items }
    {
        (hash % self.buckets.len() as u64) as usize
    }

    /// The value of a name.
    pub fn get(&self, name: Name) -> Option<&V>
        requires { HasBuckets self.now }
        ensures { option_copied result ≡ find self.now name }
    {
        let hash = hash_of(name.as_bytes());
        let bucket = &self.buckets[self.place(hash)];
        let key = (hash, name);
        bucket.get(&key)
    }

    /// Gives a name a value, and answers the one that it had.
    pub fn insert(&mut self, name: Name, value: V) -> Result<Option<V>, AllocError>
        requires { HasBuckets self.old }
        ensures buckets { OnOk result (HasBuckets self.new) }
        ensures old { IfOk result (λ old. old ≡ find self.old name) }
        ensures updates { OnOk result ((q : List ℕ) → find self.new q ≡ update bytes_eq (find self.old) name (Some value) q) }
        // Memory runs out only where the name had no value.
        ensures absent { OnErr result (find self.old name ≡ None) }
    {
        let hash = hash_of(name.as_bytes());
        let place = self.place(hash);
        let bucket = &mut self.buckets[place];
        let old = bucket.insert((hash, name), value)?;
        Ok(old)
    }
}

#[cfg(test)]
mod tests {
    use super::*;
    use std::test::Fail;

    #[test]
    fn the_latest_value_is_found(rt: HostRuntime) -> Result<(), Fail> {
        let alloc = rt.alloc();
        let mut map = NameMap::new(alloc, 2)?;
        assert_eq!(rt; map.insert(Name::copy_of(alloc, b"a")?, 1u32)?, None);
        assert_eq!(rt; map.insert(Name::copy_of(alloc, b"c")?, 2)?, None);
        assert_eq!(rt; map.insert(Name::copy_of(alloc, b"a")?, 3)?, Some(1));
        assert_eq!(rt; map.get(Name::copy_of(alloc, b"a")?).copied(), Some(3));
        assert_eq!(rt; map.get(Name::copy_of(alloc, b"c")?).copied(), Some(2));
        assert_eq!(rt; map.get(Name::copy_of(alloc, b"b")?), None);
        Ok(())
    }
}
