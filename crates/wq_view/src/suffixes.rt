//! The suffixes that a search looks for.
ghost use Rattle.std.specs.Prelude.{◌≡◌, IfOk};
ghost use Rattle.std.specs.List.Sorted.{IsPermutation};
ghost use Rattle.wq_view.specs.Suffix.{is_one_of};

use std::alloc::{AllocError, Global};
use std::marker::Model;
use wq_base::{Text, folded_order};

/// Suffixes in an order by which one is found after a few comparisons. A to Z count as a to z.
#[derive(Drop)]
pub struct Suffixes<'a> {
    sorted: Vec<&'a Text>,
}

impl<'a> Model for Suffixes<'a> {
    ghost use Rattle.std.specs.Prelude.{ℕ, List, map};
    ghost use Rattle.std.specs.List.Sorted.{IsSortedBy};
    ghost use Rattle.std.specs.Ordering.{is_lt};
    ghost use Rattle.wq_base.specs.Compare.{folded_order};

    ghost Value = { List (List ℕ) };

    ghost view = { λ s. map (λ t. t.now) s.sorted.items };

    ghost invariant = { λ s. IsSortedBy (λ t u. is_lt (folded_order t.now u.now)) s.sorted.items };
}

impl<'a> Suffixes<'a> {
    /// These suffixes, in whatever order.
    pub fn of(alloc: Global, texts: &'a [Text]) -> Result<Suffixes<'a>, AllocError>
        ensures { IfOk result (λ suffixes. IsPermutation texts.now suffixes) }
    {
        let mut sorted = Vec::with_capacity(alloc, texts.len())?;
        for text in texts {
            sorted.push(text)?;
        }
        sorted.sort_unstable_by(|a, b| folded_order(a.as_bytes(), b.as_bytes()));
        Ok(Suffixes { sorted })
    }

    /// Whether a suffix is one of these, if A to Z count as a to z. An empty text is no suffix.
    pub fn has(&self, suffix: &[u8]) -> bool
        ensures { result ≡ is_one_of self.now suffix.now }
    {
        if suffix.is_empty() {
            return false;
        }
        let at = self
            .sorted
            .binary_search_by(|text| folded_order(text.as_bytes(), suffix));
        at.is_ok()
    }
}
