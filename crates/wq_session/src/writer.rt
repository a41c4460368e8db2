//! Writing the lines of an output. If a writer fails, it has written a front of them.
ghost use Rattle.std.specs.Prelude.{◌≡◌, IfOk, OnErr, OnOk};
ghost use Rattle.std.specs.Io.KnownBytes.{Appends};
ghost use Rattle.wq_base.specs.Writing.{WritesFront};
ghost use Rattle.wq_session.specs.Serving.{line_for, lines_for, written_for};

use crate::line::Line;
use crate::outcome::{Out, ReplyLine};
use std::alloc::{AllocError, Global};
use std::io;
use std::io::Write;
use wq_base::write_all;
use wq_reply::{Alone, Crew};

impl Out {
    /// All bytes of the output: the line of the reply, if there is one, and then that of each list.
    ///
    /// # Errors
    /// Memory ran out.
    pub fn bytes(&self, alloc: Global) -> Result<Vec<u8>, AllocError>
        ensures { IfOk result (λ bytes. bytes.items ≡ written_for self.now) }
    {
        let mut bytes = Vec::new(alloc);
        match write_out(&mut bytes, &Alone {}, alloc, self) {
            Ok(()) => Ok(bytes),
            Err(_) => Err(AllocError),
        }
    }
}

/// Writes the line of a reply, if there is one, and then that of each list. A crew prints a long reply.
pub(crate) fn write_out<C: Crew, W: Write>(
    writer: &mut W,
    crew: &C,
    alloc: Global,
    out: &Out,
) -> io::Result<()>
    ensures done { OnOk result
        (Appends (W.contents writer.old) (W.contents writer.new) (written_for out.now)) }
    ensures front { OnErr result
        (WritesFront (W.contents writer.old) (W.contents writer.new) (written_for out.now)) }
{
    write_reply(writer, crew, alloc, out)?;
    write_lists(writer, out.lists())
}

/// Writes a reply and a newline, if there is a reply: in one piece, unless it is a long one.
#[tactic(auto, using(crate::proofs::Lines::line_is, crate::proofs::Lines::no_line))]
fn write_reply<C: Crew, W: Write>(
    writer: &mut W,
    crew: &C,
    alloc: Global,
    out: &Out,
) -> io::Result<()>
    ensures done { OnOk result
        (Appends (W.contents writer.old) (W.contents writer.new) (line_for out.now.reply)) }
    ensures front { OnErr result
        (WritesFront (W.contents writer.old) (W.contents writer.new) (line_for out.now.reply)) }
{
    match out.line() {
        ReplyLine::None => Ok(()),
        ReplyLine::Whole(line) => write_all(writer, line),
        ReplyLine::Long(reply) => reply.write_line(crew, alloc, writer),
    }
}

/// Writes each list and a newline in one piece.
fn write_lists<W: Write>(writer: &mut W, lists: &[Line]) -> io::Result<()>
    ensures done { OnOk result
        (Appends (W.contents writer.old) (W.contents writer.new) (lines_for lists.now)) }
    ensures front { OnErr result
        (WritesFront (W.contents writer.old) (W.contents writer.new) (lines_for lists.now)) }
{
    for list in lists {
        write_all(writer, list.as_bytes())?;
    }
    Ok(())
}
