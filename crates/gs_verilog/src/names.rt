//! A map from names to numbers.
#![tactic(auto)]

ghost use Rattle.std.specs.Prelude.{◌≡◌, cond, ◌<◌, ◌-◌, ℕ, List, None, Some, length, IfOk, IfErr, OnErr, OnOk, option_copied};
ghost use Rattle.std.specs.BTreeMap.{IsEmpty, get, is_at};
ghost use Rattle.std.specs.Int.Bits.{bit_and};
ghost use Rattle.std.specs.List.{All};
ghost use Rattle.std.specs.Map.{update};
ghost use Rattle.std.specs.Option.{unwrap_or};
ghost use Rattle.std.specs.Str.{bytes_eq};
ghost use Rattle.gs_verilog.specs.Names.{HasBuckets, find, front_of, hash_of, hash_with, place_in};
ghost use Rattle.gs_drive.specs.declared.machine.StepErr.{StepErr};

use crate::error::Stop;
use std::alloc::{AllocError, Global};
use std::collections::BTreeMap;

/// Some of the names: each with its hash before it, so that most comparisons don't look at the text.
pub type Bucket<'a> = BTreeMap<(u64, &'a [u8]), u32>;

/// A map from names to numbers, which borrows the names. A name stands in the bucket that the hash of all but its last byte gives, and
/// each bucket is an ordered map: names that are counted up, as `n10` to `n19`, stand together, so that most searches find their bucket in
/// the processor's caches; and names that were chosen to meet in one bucket still cost no more than one ordered map of them all.
#[derive(Drop)]
pub struct NameMap<'a> {
    pub buckets: Vec<Bucket<'a>>,
}

/// The number of some bytes and one more, from that of those bytes.
fn hash_with(hash: u64, byte: u8) -> u64
    ensures { result ≡ hash_with hash byte }
{
    hash.wrapping_mul(31).wrapping_add(u64::from(byte))
}

/// All bytes of a name as one number.
#[tactic(auto, unfolding(crate::specs::Names::hash_of))]
fn hash_of(name: &[u8]) -> u64
    ensures { result ≡ hash_of name.now }
{
    name.iter().fold(0u64, |hash, byte| hash_with(hash, *byte))
}

/// The hash of a name without its last byte, and that of the whole.
fn hashes_of(name: &[u8]) -> (u64, u64)
    ensures front { result.0 ≡ hash_of (front_of name.now) }
    ensures whole { result.1 ≡ hash_of name.now }
{
    match name {
        [front @ .., last] => {
            let hash = hash_of(front);
            (hash, hash_with(hash, *last))
        }
        [] => (0, 0),
    }
}

/// `count` empty buckets.
fn empty_buckets<'a>(alloc: Global, count: usize) -> Result<Vec<Bucket<'a>>, AllocError>
    ensures count { IfOk result (λ buckets. length buckets.items ≡ count) }
    ensures empty { IfOk result (λ buckets. All IsEmpty buckets.items) }
{
    let mut buckets = Vec::with_capacity(alloc, count)?;
    for _ in 0..count {
        buckets.push(BTreeMap::new(alloc))?;
    }
    Ok(buckets)
}

/// The number of a key, which gets this one where it had none.
fn get_or_insert<K: Ord + Drop>(
    map: &mut BTreeMap<K, u32>,
    key: K,
    number: u32,
) -> Result<u32, Stop>
    ensures number { IfOk result (λ n. n ≡ unwrap_or (get K.cmp map.old key) number) }
    ensures updates { IfOk result (λ n. (q : K) → get K.cmp map.new q ≡ cond (is_at (K.cmp key) q) (Some n) (get K.cmp map.old q)) }
    ensures err { IfErr result (λ e. e ≡ StepErr.Full) }
{
    let found = map.entry(key)?.or_insert(number);
    Ok(*found)
}

impl<'a> NameMap<'a> {
    /// No names, in `count` buckets.
    pub fn new(alloc: Global, count: usize) -> Result<NameMap<'a>, AllocError>
        requires { 0 < count }
        ensures buckets { IfOk result HasBuckets }
        ensures empty { IfOk result (λ m. (q : List ℕ) → find m q ≡ None) }
    {
        let buckets = empty_buckets(alloc, count)?;
        Ok(NameMap { buckets })
    }

    /// The place of the bucket for the hash of all but the last byte of a name.
    fn place(&self, front: u64) -> usize
        requires { HasBuckets self.now }
        ensures place { result ≡ bit_and front (length self.now.buckets.items - 1) }
        ensures within { result < length self.now.buckets.items }
    {
        (front & (self.buckets.len() as u64 - 1)) as usize
    }

    /// The number of a name.
    pub fn get(&self, name: &'a [u8]) -> Option<u32>
        requires { HasBuckets self.now }
        ensures { result ≡ find self.now name.now }
    {
        let (front, hash) = hashes_of(name);
        let bucket = &self.buckets[self.place(front)];
        let key = (hash, name);
        bucket.get(&key).copied()
    }

    /// Gives a name a number, and answers the one that it had.
    pub fn insert(&mut self, name: &'a [u8], number: u32) -> Result<Option<u32>, Stop>
        requires { HasBuckets self.old }
        ensures buckets { OnOk result (HasBuckets self.new) }
        ensures old { IfOk result (λ old. old ≡ find self.old name.now) }
        ensures updates { OnOk result ((q : List ℕ) → find self.new q ≡ update bytes_eq (find self.old) name.now (Some number) q) }
        // Memory runs out only where the name had no number.
        ensures absent { OnErr result (find self.old name.now ≡ None) }
        ensures err { IfErr result (λ e. e ≡ StepErr.Full) }
    {
        let (front, hash) = hashes_of(name);
        let place = self.place(front);
        let bucket = &mut self.buckets[place];
        let old = bucket.insert((hash, name), number)?;
        Ok(old)
    }

    /// The number of a name, which gets this one where it had none.
    pub fn get_or_insert(&mut self, name: &'a [u8], number: u32) -> Result<u32, Stop>
        requires { HasBuckets self.old }
        ensures buckets { OnOk result (HasBuckets self.new) }
        ensures number { IfOk result (λ n. n ≡ unwrap_or (find self.old name.now) number) }
        ensures updates { IfOk result (λ n. (q : List ℕ) → find self.new q ≡ update bytes_eq (find self.old) name.now (Some n) q) }
        ensures err { IfErr result (λ e. e ≡ StepErr.Full) }
    {
        let (front, hash) = hashes_of(name);
        let place = self.place(front);
        let bucket = &mut self.buckets[place];
        let found = get_or_insert(bucket, (hash, name), number)?;
        Ok(found)
    }
}
