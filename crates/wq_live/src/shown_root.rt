//! A root that is shown: its number, its text, and its view.
ghost use Rattle.std.specs.Prelude.{◌≡◌, IfOk};
ghost use Rattle.wq_live.specs.Table.{with_view};

use std::alloc::AllocError;
use std::marker::Model;
use std::sync::Arc;
use wq_base::Text;
use wq_view::View;

/// A root that is shown. Tables share its text and its view.
#[derive(Drop)]
pub(crate) struct ShownRoot {
    pub(crate) number: u64,
    pub(crate) text: Arc<Text>,
    pub(crate) view: Arc<View>,
}

impl Model for ShownRoot {
    ghost use Rattle.std.specs.Prelude.{◌≤◌};
    ghost use Rattle.wq_base.specs.Limit.{max_number};
    ghost use Rattle.wq_live.specs.Table.{RootView, root_code};

    ghost Value = { RootView };

    ghost coded = { root_code };

    ghost view = { λ r. record { number = r.number; text = r.text.value; view = r.view.value } };

    ghost invariant = { λ r. r.number ≤ max_number };
}

impl ShownRoot {
    /// The same root, which shares the text and the view.
    pub(crate) fn copy(&self) -> Result<ShownRoot, AllocError>
        ensures { IfOk result (λ root. root ≡ self.now) }
    {
        Ok(ShownRoot {
            number: self.number,
            text: self.text.clone()?,
            view: self.view.clone()?,
        })
    }

    /// The same root; if it has this number, with this view.
    pub(crate) fn with_view(&self, number: u64, view: &Arc<View>) -> Result<ShownRoot, AllocError>
        ensures { IfOk result (λ root. root ≡ with_view number view.now.value self.now) }
    {
        if self.number != number {
            return self.copy();
        }
        Ok(ShownRoot {
            number: self.number,
            text: self.text.clone()?,
            view: view.clone()?,
        })
    }
}
