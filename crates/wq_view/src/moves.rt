//! The positions of the records that a pass changes in a view. The order of last change follows from them.
ghost use Rattle.std.specs.Prelude.{◌≡◌, ◌≤◌, ◌+◌, true, false, IfOk, OnOk};
ghost use Rattle.wq_view.specs.Limit.{max_records};
ghost use Rattle.wq_view.specs.Merge.{is_unchanged};
ghost use Rattle.wq_view.specs.Pair.{pair_data};

use crate::limit::MAX_RECORDS;
use crate::pair::Pair;
use std::alloc::{AllocError, Global};

/// The moves of the first records after a pass.
#[derive(Drop)]
pub(crate) struct Moves {
    /// The position of the next record.
    pub(crate) next: usize,
    /// The positions of the records that came or changed, rising.
    pub(crate) changed: Vec<u32>,
    /// Those of the records that came.
    pub(crate) came: Vec<u32>,
    ghost few: { next ≤ max_records },
}

impl Moves {
    ghost use Rattle.wq_view.specs.Moves.{moves_data, no_moves, with_known, with_new, with_pair, with_same};

    /// The moves before the first record. The call takes no memory.
    pub(crate) fn new(alloc: Global) -> Moves
        ensures { moves_data result ≡ no_moves }
    {
        Moves {
            next: 0,
            changed: Vec::new(alloc),
            came: Vec::new(alloc),
        }
    }

    /// Notes so many records that the pass leaves as they are.
    pub(crate) fn keep(&mut self, count: usize) -> Result<(), AllocError>
        ensures { OnOk result (moves_data self.new ≡ with_same count (moves_data self.old)) }
    {
        if count > MAX_RECORDS - self.next {
            return Err(AllocError);
        }
        self.next += count;
        Ok(())
    }

    /// Notes the record of a pair, if it is known whether the pass leaves it as it is.
    pub(crate) fn note(&mut self, pair: Pair<'_>, stays: bool) -> Result<(), AllocError>
        requires stays { stays ≡ is_unchanged (pair_data pair) }
        ensures { OnOk result (moves_data self.new
            ≡ with_pair (pair_data pair.entry) (moves_data self.old)) }
    {
        match pair {
            Pair::New(_) => self.come(),
            _ if stays => self.keep(1),
            _ => self.change(),
        }
    }

    /// Notes a record whose name is new.
    fn come(&mut self) -> Result<(), AllocError>
        ensures { OnOk result (moves_data self.new ≡ with_new (moves_data self.old)) }
    {
        let position = self.take()?;
        self.changed.push(position)?;
        self.came.push(position)?;
        Ok(())
    }

    /// Notes a record that the pass changes.
    fn change(&mut self) -> Result<(), AllocError>
        ensures { OnOk result (moves_data self.new ≡ with_known false (moves_data self.old)) }
    {
        let position = self.take()?;
        self.changed.push(position)?;
        Ok(())
    }

    /// The position of the next record. The call is refused if there would be too many.
    fn take(&mut self) -> Result<u32, AllocError>
        ensures position { IfOk result (λ position. position ≡ self.old.next) }
        ensures next { OnOk result (self.new.next ≡ self.old.next + 1) }
        ensures changed { self.new.changed ≡ self.old.changed }
        ensures came { self.new.came ≡ self.old.came }
    {
        if self.next >= MAX_RECORDS {
            return Err(AllocError);
        }
        let position = self.next as u32;
        self.next += 1;
        Ok(position)
    }
}
