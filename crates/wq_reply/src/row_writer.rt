//! Writing the rows of a long list, each piece when it is printed.
ghost use Rattle.std.specs.Prelude.{◌≤◌, IfOk, IfSome, OnErr, OnOk, length};
ghost use Rattle.std.specs.Io.KnownBytes.{Appends};
ghost use Rattle.wq_eval.specs.Piece.{piece_of};
ghost use Rattle.wq_reply.specs.Listing.{AreWithin};
ghost use Rattle.wq_reply.specs.Long.{WritesSome};
ghost use Rattle.wq_reply.specs.Rows.{IsPrinted, data_at, rows_data, rows_text};
ghost use Rattle.wq_view.specs.Limit.{max_records};

use crate::crew::Crew;
use crate::rows::{Printed, Rows};
use std::alloc::{AllocError, Global};
use std::io;
use std::io::{ErrorKind, Write};
use wq_base::write_all;

/// Writes the rows, each with a comma before it. So many threads of a crew print the pieces that come next, and then this
/// thread writes these.
pub(crate) fn write_rows<C: Crew, W: Write>(
    writer: &mut W,
    crew: &C,
    alloc: Global,
    rows: &Rows<'_>,
    threads: u32,
) -> io::Result<()>
    requires within { AreWithin rows.now.view.now.records rows.now.places.now }
    requires count { length rows.now.places.now ≤ max_records }
    requires size { 1 ≤ rows.now.size }
    requires threads { 1 ≤ threads }
    ensures done { OnOk result (Appends (W.contents writer.old) (W.contents writer.new)
        (rows_text (rows_data rows.now))) }
    ensures front { OnErr result (WritesSome (W.contents writer.old) (W.contents writer.new)
        (rows_text (rows_data rows.now))) }
{
    let mut printed = Vec::new(alloc);
    for number in 0..rows.count() {
        if number % threads == 0 {
            printed = crew.print(alloc, rows, number);
        }
        let place = (number % threads) as usize;
        write_piece(writer, alloc, rows, printed.get(place), number)?;
    }
    Ok(())
}

/// Writes the rows of the piece of a number. It prints that piece unless this is it.
fn write_piece<W: Write>(
    writer: &mut W,
    alloc: Global,
    rows: &Rows<'_>,
    printed: Option<&Result<Printed, AllocError>>,
    number: u32,
) -> io::Result<()>
    requires within { AreWithin rows.now.view.now.records rows.now.places.now }
    requires printed { IfSome printed (λ one. IfOk one.now (IsPrinted rows.now)) }
    ensures done { OnOk result (Appends (W.contents writer.old) (W.contents writer.new)
        (rows_text (data_at rows.now (piece_of rows.now.size rows.now.places.now number)))) }
    ensures front { OnErr result (WritesSome (W.contents writer.old) (W.contents writer.new)
        (rows_text (data_at rows.now (piece_of rows.now.size rows.now.places.now number)))) }
{
    if let Some(Ok(piece)) = printed
        && piece.number == number
    {
        return write_some(writer, piece.text.as_slice());
    }
    match rows.print(alloc, number) {
        Ok(piece) => write_some(writer, piece.text.as_slice()),
        Err(_) => Err(ErrorKind::OutOfMemory.into()),
    }
}

/// Writes all bytes, or a front of them if the writer fails.
#[tactic(auto, using(crate::proofs::WrittenRows::some_of))]
fn write_some<W: Write>(writer: &mut W, bytes: &[u8]) -> io::Result<()>
    ensures done { OnOk result
        (Appends (W.contents writer.old) (W.contents writer.new) bytes.now) }
    ensures front { OnErr result
        (WritesSome (W.contents writer.old) (W.contents writer.new) bytes.now) }
{
    write_all(writer, bytes)
}
