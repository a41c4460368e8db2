//! A line of output: its text, and the newline at its end, in one piece.
ghost use Rattle.std.specs.Prelude.{◌≡◌, ◌++◌, IfOk, codes};

use std::alloc::AllocError;
use std::marker::Model;
use wq_base::Table;

/// A text with a newline at its end, so that the server writes both at once.
#[derive(Drop)]
pub struct Line {
    bytes: Table<u8>,
}

impl Model for Line {
    ghost use Rattle.std.specs.Prelude.{ℕ, List};
    ghost use Rattle.wq_session.specs.Line.{IsLine, line_text};

    ghost Value = { List ℕ };

    ghost view = { λ l. line_text l.bytes };

    ghost invariant = { λ l. IsLine l.bytes };
}

impl Line {
    /// The line of this text, with a newline put to it.
    #[tactic(auto, using(crate::proofs::Newlines::text_before, crate::proofs::Newlines::is_line))]
    pub fn of_text(text: Vec<u8>) -> Result<Line, AllocError>
        ensures { IfOk result (λ line. line ≡ text.items) }
    {
        let mut bytes = text;
        bytes.push(b'\n')?;
        Ok(Line {
            bytes: Table::from_vec(bytes),
        })
    }

    /// The text and the newline at its end.
    pub fn as_bytes(&self) -> &[u8]
        ensures { result.now ≡ self.now ++ codes "\n" }
    {
        self.bytes.as_slice()
    }
}
