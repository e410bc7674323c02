//! Names, and lists of names.
#![tactic(auto)]

ghost use Rattle.std.specs.Prelude.{◌≡◌, ◌<◌, [], MatchResult, length};
ghost use Rattle.std.proofs.Common.{rules};
ghost use Rattle.std.proofs.lemmas.Cmp.{nat_list_cmp_total, nat_list_eq_equiv};
ghost use Rattle.std.specs.Cmp.{partial_equiv_from_equiv, partial_order_from_own_ties};
ghost use Rattle.std.specs.Cmp.Lexicographic.{slice_cmp};
ghost use Rattle.std.specs.Cmp.Rules.{comparing};
ghost use Rattle.std.specs.Ordering.{as_partial_cmp, nat_cmp};
ghost use Rattle.std.specs.Str.{bytes_eq};

use gs_list::Rows;
use smallvec::SmallVec;
use std::alloc::{AllocError, Global};
use std::cmp::Ordering;
use std::marker::Model;

/// How many bytes a name keeps in itself; a longer one has memory of its own. A `Name` so takes no more than a `Vec`.
const INLINE: usize = 16;

/// A name, as a list of bytes. It owns its bytes, and takes memory only where they are more than 16. Contracts see the list.
#[derive(Debug, Drop)]
pub struct Name {
    bytes: SmallVec<u8, INLINE>,
}

impl Model for Name {
    ghost use Rattle.std.specs.Prelude.{List, ℕ};

    ghost Value = { List ℕ };

    ghost view = { λ n. n.bytes.items };
}

impl Name {
    /// The name without a byte. It takes no memory.
    pub fn empty(alloc: Global) -> Name
        ensures { result ≡ [] }
    {
        Name {
            bytes: SmallVec::new(alloc),
        }
    }

    /// A name with these bytes. At most 16 bytes need no memory, and so make a name without fail.
    pub fn copy_of(alloc: Global, text: &[u8]) -> Result<Name, AllocError>
        ensures { MatchResult result (λ n. n ≡ text.now) (λ _. 16 < length text.now) }
    {
        let bytes = SmallVec::from_slice(alloc, text)?;
        Ok(Name { bytes })
    }

    /// The name's bytes.
    pub fn as_bytes(&self) -> &[u8]
        ensures { result.now ≡ self.now }
    {
        self.bytes.as_slice()
    }

    /// Whether the name has these bytes.
    pub fn is(&self, text: &[u8]) -> bool
        ensures { result ≡ bytes_eq text.now self.now }
    {
        text == self.bytes.as_slice()
    }
}

impl PartialEq for Name {
    ghost eq = { bytes_eq };

    ghost laws = { partial_equiv_from_equiv nat_list_eq_equiv };

    fn eq(&self, other: &Name) -> bool {
        self.as_bytes() == other.as_bytes()
    }
}

impl Eq for Name {
    ghost laws = { nat_list_eq_equiv };
}

impl PartialOrd for Name {
    ghost partial_cmp = { as_partial_cmp (slice_cmp nat_cmp) };

    ghost laws = { partial_order_from_own_ties (Prim.search (comparing, rules)) (Prim.search (comparing, rules)) };

    fn partial_cmp(&self, other: &Name) -> Option<Ordering> {
        Some(self.cmp(other))
    }
}

/// Names are ordered byte by byte, and a name before those that it begins.
impl Ord for Name {
    ghost cmp = { slice_cmp nat_cmp };

    ghost total = { nat_list_cmp_total };

    ghost matches_partial_cmp = { Prim.search (comparing, rules) };

    ghost matches_eq = { Prim.search (comparing, rules) };

    fn cmp(&self, other: &Name) -> Ordering {
        self.as_bytes().cmp(other.as_bytes())
    }
}

/// A list of names, which owns them. Contracts see a list of lists of bytes.
pub type Names = Rows<Name>;

#[cfg(test)]
mod tests {
    use super::*;
    use std::test::Fail;

    #[test]
    fn names_are_compared_by_bytes(rt: HostRuntime) -> Result<(), Fail> {
        let alloc = rt.alloc();
        let short = Name::copy_of(alloc, b"n[1]")?;
        let long = Name::copy_of(alloc, b"n[1]a")?;
        assert!(rt; short.is(b"n[1]") && !short.is(b"n[1]a") && !short.is(b"n"));
        assert!(rt; short < long && short == short && short != long);
        assert!(rt; Name::empty(alloc) < short);
        assert_eq!(rt; long.as_bytes(), b"n[1]a".as_slice());
        Ok(())
    }

    #[test]
    fn names_keep_their_order(rt: HostRuntime) -> Result<(), Fail> {
        let alloc = rt.alloc();
        let mut list = Vec::new(alloc);
        list.push(Name::copy_of(alloc, b"b")?)?;
        list.push(Name::copy_of(alloc, b"a")?)?;
        let names = Names::from_vec(list);
        assert_eq!(rt; names.len(), 2);
        assert!(rt; names.as_slice()[0].is(b"b") && names.as_slice()[1].is(b"a"));
        assert_eq!(rt; names.into_vec().len(), 2);
        assert_eq!(rt; Names::empty(alloc).len(), 0);
        Ok(())
    }
}
