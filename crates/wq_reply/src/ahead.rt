//! Which files a program keeps, found before someone asks for it.
ghost use Rattle.std.specs.Prelude.{◌≡◌, ◌<◌, ◌≤◌, All, IfErr, IfOk, IfSome, List, filter, length};
ghost use Rattle.wq_eval.specs.Answer.{says_yes};
ghost use Rattle.wq_reply.specs.Ahead.{IsAheadAt};
ghost use Rattle.wq_reply.specs.Search.{MayEnd};
ghost use Rattle.wq_view.specs.Limit.{max_records};
ghost use Rattle.wq_view.specs.Position.{passes_at};
ghost use Rattle.wq_record.specs.RecordData.{RecordData};

use crate::crew::{Alone, Crew, found};
use std::alloc::{AllocError, Global};
use std::sync::Arc;
use wq_base::Unanswered;
use wq_clock::Bound;
use wq_gen::candidates;
use wq_term::Generators;
use wq_verify::StoredProgram;
use wq_view::{View, positions_are_there};

/// Which of some files of a view a program keeps, found before someone asks for it. So a plan can be answered under a
/// lock without a run of its program there.
#[derive(Drop)]
pub struct Ahead {
    pub(crate) program: Arc<StoredProgram>,
    pub(crate) positions: Vec<u32>,
    pub(crate) kept: Vec<u32>,
}

impl Ahead {
    /// What the program keeps of the files that changed after a bound, or of all files if that is fresh.
    pub fn new(
        alloc: Global,
        program: Arc<StoredProgram>,
        bound: Bound,
        view: &View,
    ) -> Result<Ahead, AllocError>
        ensures { IfOk result (IsAheadAt view.now.records) }
    {
        // Only the proof uses the contracts of these two calls, which are about a view's positions.
        view.len();
        positions_are_there();
        let changed = Generators {
            since: Some(bound),
            suffix: None,
            path: None,
            glob: None,
        };
        let positions = candidates(alloc, view, &changed)?;
        let kept = found(kept(&Alone {}, alloc, &program, view, &positions, None))?;
        Ok(Ahead {
            program,
            positions,
            kept,
        })
    }

    /// What this program keeps of these positions, if it was found here.
    fn kept_of(&self, program: &StoredProgram, positions: &[u32]) -> Option<&[u32]>
        ensures { (records : List RecordData) → IsAheadAt records self.now
            → IfSome result (λ kept. kept.now
            ≡ filter (passes_at (says_yes program.now) records) positions.now) }
    {
        if self.positions.as_slice() == positions && self.program.is_same(program) {
            Some(self.kept.as_slice())
        } else {
            None
        }
    }
}

/// The positions of those files for which the program answers yes: those found ahead if these are of the program and
/// the positions, or else those that the crew finds. The program is opened only if the crew has to run it.
pub(crate) fn kept<C: Crew>(
    crew: &C,
    alloc: Global,
    program: &StoredProgram,
    view: &View,
    positions: &[u32],
    ahead: Option<&Ahead>,
) -> Result<Vec<u32>, Unanswered>
    requires within { All (λ i. i < length view.now.records) positions.now }
    requires count { length positions.now ≤ max_records }
    requires ahead { IfSome ahead (λ ahead. IsAheadAt view.now.records ahead.now) }
    ensures kept { IfOk result (λ kept. kept.items
        ≡ filter (passes_at (says_yes program.now) view.now.records) positions.now) }
    ensures ends { IfErr result (MayEnd C.may_go) }
{
    if positions.is_empty() {
        return Ok(Vec::new(alloc));
    }
    if let Some(ahead) = ahead
        && let Some(kept) = ahead.kept_of(program, positions)
    {
        return Ok(Vec::from_slice(alloc, kept)?);
    }
    let opened = program.open(alloc)?;
    crew.filter(alloc, opened.program(), view, positions)
}
