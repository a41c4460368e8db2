//! The part of a tree that a walk lists: the names between two cuts. Another module lists it.
ghost use Rattle.std.specs.Prelude.{◌≡◌, ℕ, IsTrue, List};
ghost use Rattle.wq_disk.specs.Part.{IsOrderBelow, MayHaveBelow, is_in, name_below};

use std::cmp::Ordering;

/// The names that a walk lists, in the byte order of whole names: those from a first cut on and below a second one.
/// Either cut may be missing.
#[derive(Clone, Copy)]
pub struct Part<'a> {
    pub from: Option<&'a [u8]>,
    pub below: Option<&'a [u8]>,
}

impl Part<'_> {
    /// Whether a name is in the part.
    pub fn has(&self, name: &[u8]) -> bool
        ensures { result ≡ is_in self.now name.now }
    {
        let is_from = match self.from {
            Some(cut) => !name.cmp(cut).is_lt(),
            None => true,
        };
        let is_below = match self.below {
            Some(cut) => name.cmp(cut).is_lt(),
            None => true,
        };
        is_from && is_below
    }

    /// Whether names below the directory of this name may be in the part. It is true if one of them is.
    #[tactic(auto, using(crate::proofs::Below::from_there, crate::proofs::Below::below_there, crate::proofs::Below::not_behind, crate::proofs::Below::not_before))]
    pub fn reaches(&self, directory: &[u8]) -> bool
        ensures all { (rest : List ℕ) → IsTrue (is_in self.now (name_below directory.now rest))
            → IsTrue result }
        ensures only { IsTrue result → MayHaveBelow self.now directory.now }
    {
        if let Some(cut) = self.from
            && order_below(directory, cut).is_gt()
        {
            return false;
        }
        if let Some(cut) = self.below
            && order_below(directory, cut).is_lt()
        {
            return false;
        }
        true
    }
}

/// The order of a cut and the names below a directory: the cut is before them, among them, or after them.
#[tactic(auto, using(crate::proofs::Below::order_beside, crate::proofs::Below::order_from, crate::proofs::Below::order_at))]
fn order_below(directory: &[u8], cut: &[u8]) -> Ordering
    ensures { IsOrderBelow directory.now cut.now result }
{
    match cut.strip_prefix(directory) {
        Some([next, ..]) => next.cmp(&b'/'),
        Some([]) => Ordering::Less,
        None => cut.cmp(directory),
    }
}
