//! The rules that the steps of a pattern refer to: the flags that the pattern was read with, and the
//! sets of its classes, which are kept once beside the steps.
ghost use Rattle.std.specs.Prelude.{◌≡◌};
ghost use Rattle.wq_glob.specs.ByteSet.{in_set};

use crate::byte_set::ByteSet;
use crate::flag::Flags;
use std::alloc::AllocError;

/// The flags of a pattern, and the sets that its steps name by number.
#[derive(Debug, Drop)]
pub(crate) struct Rules {
    pub(crate) flags: Flags,
    pub(crate) sets: Vec<ByteSet>,
}

impl Clone for Rules {
    ghost is_clone = { λ p q. (q.flags ≡ p.flags) × (q.sets.items ≡ p.sets.items) };

    fn clone(&self) -> Result<Rules, AllocError> {
        Ok(Rules {
            flags: self.flags,
            sets: self.sets.clone()?,
        })
    }
}

impl Rules {
    /// Whether a set, by its number, has the byte. A number that no set has stands for no byte.
    #[inline(always)]
    pub(crate) fn in_set(&self, number: u8, byte: u8) -> bool
        ensures { result ≡ in_set self.now.sets.items number byte }
    {
        match self.sets.get(usize::from(number)) {
            Some(set) => set.has(byte),
            None => false,
        }
    }
}
