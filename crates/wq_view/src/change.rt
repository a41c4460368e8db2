//! A pass over a root that has a view, as it differs from the view.
ghost use Rattle.std.specs.Prelude.{◌≡◌, IsTrue};
ghost use Rattle.wq_record.specs.Seen.{is_count};
ghost use Rattle.wq_view.specs.Change.{MakePass, pass_by};

use crate::patch::Patch;
use crate::view::View;
use std::marker::Model;
use std::snapshot::Snapshot;

/// A pass over a root that has a view: the patches by which its rows differ from the view's records, and its second.
/// Contracts see the view and the pass.
#[derive(Drop)]
pub struct Change<'a> {
    patches: &'a [Patch],
    second: i64,
    /// The view, as contracts see it. A snapshot takes no memory.
    base: Snapshot<View>,
}

impl<'a> Model for Change<'a> {
    ghost use Rattle.std.specs.Prelude.{IsTrue};
    ghost use Rattle.wq_record.specs.Seen.{is_count};
    ghost use Rattle.wq_view.specs.Change.{ChangeData, MakePass, change_code, pass_by};

    ghost Value = { ChangeData };

    ghost coded = { change_code };

    ghost view = { λ c. record {
      base = c.base.value;
      pass = pass_by c.base.value.records c.patches.now c.second;
    } };

    ghost invariant = { λ c. MakePass c.base.value.records c.patches.now
        × IsTrue (is_count c.second) };
}

impl<'a> Change<'a> {
    /// The pass at this second over a root with this view, whose rows differ by these patches from the view.
    pub fn of(view: &View, patches: &'a [Patch], second: i64) -> Change<'a>
        requires patches { MakePass (view.now).records patches.now }
        requires second { IsTrue (is_count second) }
        ensures { result ≡ record {
          base = view.now;
          pass = pass_by (view.now).records patches.now second;
        } }
    {
        Change {
            patches,
            second,
            base: Snapshot::of(view),
        }
    }

    /// The patches.
    pub(crate) fn patches(&self) -> &'a [Patch]
        ensures make { MakePass ((self.now).base).records result.now }
        ensures pass { (self.now).pass
            ≡ pass_by ((self.now).base).records result.now ((self.now).pass).second }
    {
        self.patches
    }

    /// The second of the pass.
    pub(crate) fn second(&self) -> i64
        ensures value { result ≡ ((self.now).pass).second }
        ensures range { IsTrue (is_count result) }
    {
        self.second
    }
}
