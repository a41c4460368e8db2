//! The rows of a long list. One thread or several print them, each a piece at a time.
ghost use Rattle.std.specs.Prelude.{◌≡◌, ◌≤◌, ◌*◌, ◌∷◌, ◌++◌, List, IfOk, OnOk, length};
ghost use Rattle.std.specs.List.{All};
ghost use Rattle.json.specs.Print.{quoted};
ghost use Rattle.serde_json.specs.Data.{Data, array};
ghost use Rattle.serde_json.specs.View.{items_of};
ghost use Rattle.serde_json.specs.Written.{compact_text};
ghost use Rattle.wq_reply.specs.Listing.{AreWithin};
ghost use Rattle.wq_reply.specs.Rows.{IsPrinted, data_at, rows_text, start_text};
ghost use Rattle.wq_eval.specs.Piece.{piece_of};
ghost use Rattle.wq_view.specs.Limit.{max_records};

use crate::form::Form;
use crate::printer::print_files;
use crate::room::{room_of, with_room};
use json::Writer;
use std::alloc::{AllocError, Global};
use std::thread::{Threads, join};
use wq_clock::{Bound, Instance};
use wq_eval::piece_of;
use wq_view::View;

/// The rows of a list: what a form tells of each of these files.
#[derive(Clone, Copy)]
pub struct Rows<'a> {
    /// The form of a row.
    pub(crate) form: &'a Form,
    /// The instance of the clock ids in the rows.
    pub(crate) instance: &'a Instance,
    /// The bound after which a file is new.
    pub(crate) bound: Bound,
    /// The view.
    pub(crate) view: &'a View,
    /// The places of the files, each of a record of the view.
    pub(crate) places: &'a [u32],
    /// How many rows a piece has. The last one may have fewer.
    pub(crate) size: u32,
}

/// A printed piece of rows: its number and its text.
#[derive(Drop)]
pub struct Printed {
    pub(crate) number: u32,
    pub(crate) text: Vec<u8>,
}

impl Rows<'_> {
    /// How many pieces there are.
    pub(crate) fn count(&self) -> u32
        requires count { length self.now.places.now ≤ max_records }
        requires size { 1 ≤ self.now.size }
        ensures { length self.now.places.now ≤ result * self.now.size }
    {
        self.places.len().div_ceil(self.size as usize) as u32
    }

    /// Prints the piece of this number.
    pub(crate) fn print(&self, alloc: Global, number: u32) -> Result<Printed, AllocError>
        requires { AreWithin self.now.view.now.records self.now.places.now }
        ensures printed { IfOk result (IsPrinted self.now) }
        ensures number { IfOk result (λ printed. printed.number ≡ number) }
    {
        let text = text_at(alloc, self, piece_of(self.places, self.size, number))?;
        Ok(Printed { number, text })
    }
}

/// Appends the bytes of a reply before its list: the key of the list, after this clock.
pub(crate) fn put_start(text: &mut Vec<u8>, alloc: Global, clock: &str) -> Result<(), AllocError>
    ensures { OnOk result (text.new.items ≡ text.old.items ++ start_text clock.now) }
{
    let quoted = quoted(alloc, clock)?;
    text.extend_from_slice("{\"clock\":".as_bytes())?;
    text.extend_from_slice(&quoted)?;
    text.extend_from_slice(",\"files\":".as_bytes())
}

/// The text in quotes, as compact JSON has it.
fn quoted(alloc: Global, text: &str) -> Result<Vec<u8>, AllocError>
    ensures { IfOk result (λ bytes. bytes.items ≡ quoted text.now) }
{
    let mut out = Writer::new(Vec::new(alloc));
    out.string(text)?;
    let bytes = out.into_inner();
    Ok(bytes)
}

/// So many pieces from this one on, of which this thread prints the first and a thread of its own each other one. A piece
/// is missing if memory ran out in its thread.
#[cycle(threads)]
pub(crate) fn print_pieces<R: Threads>(
    rt: &R,
    alloc: Global,
    rows: &Rows<'_>,
    first: u32,
    pieces: u32,
) -> Result<Vec<Result<Printed, AllocError>>, AllocError>
    requires { AreWithin rows.now.view.now.records rows.now.places.now }
    ensures { IfOk result (λ all. All (λ one. IfOk one (IsPrinted rows.now)) all.items) }
{
    if pieces <= 1 {
        return Ok(vec![in alloc; rows.print(alloc, first)]?);
    }
    let left = pieces - 1;
    let number = first.saturating_add(left);
    let other = || -> Result<Printed, AllocError>
        requires { AreWithin rows.now.view.now.records rows.now.places.now }
        ensures { IfOk result (IsPrinted rows.entry.now) }
    { rows.print(alloc, number) };
    let this = || -> Result<Vec<Result<Printed, AllocError>>, AllocError>
        requires { AreWithin rows.now.view.now.records rows.now.places.now × 1 ≤ left }
        ensures { IfOk result (λ all. All (λ one. IfOk one (IsPrinted rows.entry.now)) all.items) }
    { print_pieces(rt, alloc, rows, first, left) };
    let (last, first) = join(rt, other, this);
    let mut all = first?;
    all.push(last)?;
    Ok(all)
}

/// The text of the rows of the files at these places, each with a comma before it.
fn text_at(alloc: Global, rows: &Rows<'_>, places: &[u32]) -> Result<Vec<u8>, AllocError>
    requires { AreWithin rows.now.view.now.records places.now }
    ensures { IfOk result (λ text. text.items ≡ rows_text (data_at rows.now places.now)) }
{
    if places.is_empty() {
        return Ok(Vec::new(alloc));
    }
    Ok(with_comma(list_at(alloc, rows, places)?))
}

/// The text of the list of the rows of the files at these places.
pub(crate) fn list_at(alloc: Global, rows: &Rows<'_>, places: &[u32]) -> Result<Vec<u8>, AllocError>
    requires { AreWithin rows.now.view.now.records places.now }
    ensures { IfOk result (λ text. text.items
        ≡ compact_text (array (items_of (data_at rows.now places.now)))) }
{
    let room = room_of(rows.instance, rows.view, places, rows.form);
    let mut out = Writer::new(with_room(alloc, room));
    print_files(
        &mut out,
        rows.form,
        rows.instance,
        rows.bound,
        rows.view,
        places,
    )?;
    let text = out.into_inner();
    Ok(text)
}

/// The text of the rows of a list that has some, each with a comma before it.
fn with_comma(list: Vec<u8>) -> Vec<u8>
    ensures { (d : Data) (ds : List Data)
        → list.items ≡ compact_text (array (items_of (d ∷ ds)))
        → result.items ≡ rows_text (d ∷ ds) }
{
    let mut text = list;
    text.pop();
    if !text.is_empty() {
        text[0] = b',';
    }
    text
}
