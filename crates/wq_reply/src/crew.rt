//! The crew that finds the files of a query and prints its reply: the thread that asks alone, or several threads.
ghost use Rattle.std.specs.Prelude.{◌≡◌, ◌<◌, ◌≤◌, All, IfErr, IfOk, MatchResult, Ok, false, filter, is_err, length, true};
ghost use Rattle.wq_base.specs.Limit.{AreFew};
ghost use Rattle.wq_eval.specs.Answer.{says_yes};
ghost use Rattle.wq_gen.specs.Candidate.{is_candidate};
ghost use Rattle.wq_reply.specs.Listing.{AreWithin};
ghost use Rattle.wq_reply.specs.Rows.{IsPrinted};
ghost use Rattle.wq_reply.specs.Search.{MayEnd};
ghost use Rattle.wq_view.specs.Limit.{max_records};
ghost use Rattle.wq_view.specs.Position.{passes_at, positions_of};

use crate::rows::{Printed, Rows, print_pieces};
use std::alloc::{AllocError, Global};
use std::thread::Threads;
use wq_base::{Asker, Unanswered, Workers};
use wq_eval::{OpenGate, filter, filter_for, filter_workers_for};
use wq_gen::{candidates, candidates_for};
use wq_term::Generators;
use wq_verify::Program;
use wq_view::View;

/// How many candidates a piece has.
pub(crate) const PIECE: u32 = 1024;

/// A query uses several threads only if there are so many candidates or more.
const MIN_FOR_WORKERS: usize = 16384;

/// Each thread of a query has at least so many candidates: four pieces.
const MIN_FOR_WORKER: usize = 4096;

/// The crew that finds the files of a query and prints its reply. No answer depends on it.
pub trait Crew {
    ghost use Rattle.std.specs.Prelude.{◌≡◌, ◌<◌, ◌≤◌, All, Bool, IfErr, IfOk, filter, length};
    ghost use Rattle.wq_eval.specs.Answer.{says_yes};
    ghost use Rattle.wq_gen.specs.Candidate.{is_candidate};
    ghost use Rattle.wq_reply.specs.Listing.{AreWithin};
    ghost use Rattle.wq_reply.specs.Rows.{IsPrinted};
    ghost use Rattle.wq_reply.specs.Search.{MayEnd};
    ghost use Rattle.wq_view.specs.Limit.{max_records};
    ghost use Rattle.wq_view.specs.Position.{passes_at, positions_of};

    // Whether the asker may go before it has the answer.
    ghost may_go: { Bool };

    /// The positions of the candidates, ascending, each once ([`candidates`](wq_gen::candidates)).
    fn candidates(
        &self,
        alloc: Global,
        view: &View,
        generators: &Generators,
    ) -> Result<Vec<u32>, Unanswered>
        ensures found { IfOk result (λ found. found.items
            ≡ positions_of (is_candidate generators.now) view.now.records) }
        ensures ends { IfErr result (MayEnd may_go) };

    /// The positions of those files for which the program answers yes, in the order in which they are given.
    fn filter(
        &self,
        alloc: Global,
        program: &Program,
        view: &View,
        positions: &[u32],
    ) -> Result<Vec<u32>, Unanswered>
        requires within { All (λ i. i < length view.now.records) positions.now }
        requires count { length positions.now ≤ max_records }
        ensures kept { IfOk result (λ kept. kept.items
            ≡ filter (passes_at (says_yes program.now) view.now.records) positions.now) }
        ensures ends { IfErr result (MayEnd may_go) };

    /// Whether a list of so many files is long: it is printed while it is sent.
    fn prints_later(&self, files: usize) -> bool;

    /// How many threads print so many rows of a long list, each a piece at a time.
    fn printers(&self, rows: usize) -> u32
        ensures { 1 ≤ result };

    /// The next pieces of a long list, from this one on, if several threads print them. A piece is missing if nobody
    /// printed it.
    fn print(&self, alloc: Global, rows: &Rows<'_>, first: u32) -> Vec<Result<Printed, AllocError>>
        requires { AreWithin rows.now.view.now.records rows.now.places.now }
        ensures { All (λ one. IfOk one (IsPrinted rows.now)) result.items };
}

/// The thread that asks, alone. Its asker waits for each answer.
#[derive(Drop)]
pub struct Alone {}

impl Crew for Alone {
    ghost use Rattle.std.specs.Prelude.{false};

    ghost may_go = { false };

    fn candidates(
        &self,
        alloc: Global,
        view: &View,
        generators: &Generators,
    ) -> Result<Vec<u32>, Unanswered> {
        Ok(candidates(alloc, view, generators)?)
    }

    fn filter(
        &self,
        alloc: Global,
        program: &Program,
        view: &View,
        positions: &[u32],
    ) -> Result<Vec<u32>, Unanswered> {
        Ok(filter(alloc, program, view, positions)?)
    }

    fn prints_later(&self, _files: usize) -> bool {
        false
    }

    fn printers(&self, _rows: usize) -> u32 {
        1
    }

    fn print(
        &self,
        alloc: Global,
        _rows: &Rows<'_>,
        _first: u32,
    ) -> Vec<Result<Printed, AllocError>> {
        Vec::new(alloc)
    }
}

/// Several threads, if there is enough to do for each: they find files if there are 16,384 candidates or more, and print
/// if as many files are to be listed. Each has at least 4,096 of them. If the asker goes, they give up.
#[derive(Drop)]
pub struct Several<'a, R: Threads, A: Asker> {
    /// The handle that starts the threads.
    pub rt: &'a R,
    /// How many there may be, the one that asks among them.
    pub workers: Workers,
    /// Whoever waits for the reply.
    pub asker: &'a A,
}

impl<R: Threads, A: Asker> Several<'_, R, A> {
    /// How many of the threads a query uses for this number of candidates, or of files to list.
    fn count_for(&self, files: usize) -> u32
        ensures { AreFew result }
    {
        if files < MIN_FOR_WORKERS {
            return 1;
        }
        let most = files / MIN_FOR_WORKER;
        if most < self.workers.count as usize {
            most as u32
        } else {
            self.workers.count
        }
    }
}

impl<R: Threads, A: Asker> Crew for Several<'_, R, A> {
    ghost use Rattle.std.specs.Prelude.{true};

    ghost may_go = { true };

    #[tactic(auto, using(crate::proofs::Searches::may_end))]
    fn candidates(
        &self,
        alloc: Global,
        view: &View,
        generators: &Generators,
    ) -> Result<Vec<u32>, Unanswered> {
        candidates_for(alloc, self.asker, view, generators)
    }

    #[tactic(auto, using(crate::proofs::Searches::may_end))]
    fn filter(
        &self,
        alloc: Global,
        program: &Program,
        view: &View,
        positions: &[u32],
    ) -> Result<Vec<u32>, Unanswered> {
        let count = self.count_for(positions.len());
        if count == 1 {
            return filter_for(alloc, self.asker, program, view, positions);
        }
        filter_workers_for(
            self.rt,
            alloc,
            &OpenGate {},
            self.asker,
            count,
            PIECE,
            program,
            view,
            positions,
        )
    }

    fn prints_later(&self, files: usize) -> bool {
        files >= MIN_FOR_WORKERS
    }

    fn printers(&self, rows: usize) -> u32 {
        self.count_for(rows)
    }

    fn print(
        &self,
        alloc: Global,
        rows: &Rows<'_>,
        first: u32,
    ) -> Vec<Result<Printed, AllocError>> {
        let count = self.count_for(rows.places.len());
        if count == 1 {
            return Vec::new(alloc);
        }
        match print_pieces(self.rt, alloc, rows, first, count) {
            Ok(printed) => printed,
            Err(_) => Vec::new(alloc),
        }
    }
}

/// The result of a search whose asker waits for each answer.
pub(crate) fn found(searched: Result<Vec<u32>, Unanswered>) -> Result<Vec<u32>, AllocError>
    requires { IfErr searched (MayEnd false) }
    ensures { MatchResult searched (λ places. result ≡ Ok places) (λ _. is_err result ≡ true) }
{
    match searched {
        Ok(places) => Ok(places),
        Err(Unanswered::NoMemory) => Err(AllocError),
        Err(Unanswered::Gone) => unreachable!(),
    }
}
