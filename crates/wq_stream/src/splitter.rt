//! Cuts a client's stream of bytes into events. The stream may come in any pieces. Other crates read the pieces and
//! take the events.
ghost use Rattle.std.specs.Prelude.{◌≡◌, ◌≤◌, ℕ, List, [], length, IfOk, IfSome, OnErr};
ghost use Rattle.wq_stream.specs.Limit.{max_line};
ghost use Rattle.wq_stream.specs.Stream.{Adds, kept_of};

use crate::event::Event;
use crate::piece::take_piece;
use std::alloc::{AllocError, Global};
use std::marker::Model;

/// The rest of a stream that is kept between its pieces: the bytes of the line that has not ended, at most 1,048,576.
///
/// Contracts see these bytes, or `None` if no more events may come.
#[derive(Drop)]
pub struct Splitter {
    rest: Vec<u8>,
    has_ended: bool,
}

impl Model for Splitter {
    ghost use Rattle.std.specs.Prelude.{ℕ, List, Option};
    ghost use Rattle.wq_stream.specs.Stream.{IsRest};
    ghost use Rattle.wq_stream.specs.Told.{kept_as};

    ghost Value = { Option (List ℕ) };

    ghost view = { λ s. kept_as s.has_ended s.rest.items };

    ghost invariant = { λ s. IsRest s.rest.items };
}

impl Splitter {
    /// The splitter of a stream before its first byte. It takes no memory.
    pub fn new(alloc: Global) -> Splitter
        ensures { result ≡ kept_of [] }
    {
        Splitter {
            rest: Vec::new(alloc),
            has_ended: false,
        }
    }

    /// Takes the next piece of the stream, and returns the events that it adds, in their order. The piece may be cut
    /// anywhere, and have any length.
    ///
    /// If memory runs out, the splitter is as it was, and the same piece can be fed again.
    pub fn feed(&mut self, piece: &[u8]) -> Result<Vec<Event>, AllocError>
        // For every stream with this rest:
        ensures adds { (stream : List ℕ) → self.old ≡ kept_of stream
            → IfOk result (λ events. Adds stream piece.now events.items self.new) }
        // And for any rest:
        ensures bounded { IfSome self.new (λ rest. length rest ≤ max_line) }
        ensures refused { OnErr result (self.new ≡ self.old) }
    {
        if self.has_ended {
            return Ok(Vec::new(*self.rest.allocator()));
        }
        let told = take_piece(&mut self.rest, piece)?;
        self.has_ended = told.has_ended;
        Ok(told.events)
    }
}
