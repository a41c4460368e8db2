//! A long reply. The rows of its first files are printed when it is made, and the others while it is sent. So its first
//! bytes come soon, and no more of it than some pieces is in memory at once.
ghost use Rattle.std.specs.Prelude.{◌≡◌, ◌≤◌, ◌++◌, IfOk, OnErr, OnOk, codes, drop, length, take};
ghost use Rattle.std.specs.Io.KnownBytes.{Appends};
ghost use Rattle.serde_json.specs.Written.{compact_text};
ghost use Rattle.wq_base.specs.Writing.{WritesFront};
ghost use Rattle.wq_clock.specs.Bound.{is_fresh};
ghost use Rattle.wq_clock.specs.ClockText.{clock_text};
ghost use Rattle.wq_clock.specs.Instance.{instance_data};
ghost use Rattle.wq_reply.specs.Listing.{AreWithin, files_of};
ghost use Rattle.wq_reply.specs.Long.{close_text, head_files, long_text};
ghost use Rattle.wq_reply.specs.Printing.{told};
ghost use Rattle.wq_reply.specs.Plan.{planned};
ghost use Rattle.wq_reply.specs.Reply.{reply_of};
ghost use Rattle.wq_reply.specs.Rows.{data_at, opened, start_text};
ghost use Rattle.wq_view.specs.Limit.{max_records};
ghost use Rattle.wq_view.specs.Position.{records_at};

use crate::crew::Crew;
use crate::form::Form;
use crate::plan::Plan;
use crate::room::with_room;
use crate::row_writer::write_rows;
use crate::rows::{Rows, list_at, put_start};
use std::alloc::{AllocError, Global};
use std::io;
use std::io::Write;
use std::marker::Model;
use wq_base::write_all;
use wq_clock::{Bound, Instance, print};
use wq_eval::piece_of;
use wq_view::View;

/// How many files have their rows in the bytes that are printed first.
const HEAD_FILES: u32 = 1024;

/// How many rows a piece has if one thread prints them: so few that a piece takes no new memory.
const PIECE: u32 = 1024;

/// How many rows a piece has if several threads print them: so many that a thread is worth its start.
const PIECE_OF_SEVERAL: u32 = 8192;

/// The bytes around the rows of the first files: the clock, and the words about it.
const ROOM: usize = 128;

/// The last bytes of a long reply and a newline, if the bound is fresh.
const CLOSE_FRESH: &[u8] = b"],\"is_fresh_instance\":true,\"version\":\"wq-1\"}\n";

/// The last bytes of a long reply and a newline, if the bound is not fresh.
const CLOSE: &[u8] = b"],\"is_fresh_instance\":false,\"version\":\"wq-1\"}\n";

/// A long reply: its first bytes, and what the others are printed of. Its view shares the records with the root's.
#[derive(Drop)]
pub struct LongReply {
    head: Vec<u8>,
    form: Form,
    instance: Instance,
    bound: Bound,
    shown: View,
    places: Vec<u32>,
}

impl Model for LongReply {
    ghost use Rattle.std.specs.Prelude.{◌≤◌, ℕ, List, length};
    ghost use Rattle.wq_clock.specs.Bound.{is_fresh};
    ghost use Rattle.wq_clock.specs.Instance.{instance_data};
    ghost use Rattle.wq_reply.specs.Listing.{AreWithin};
    ghost use Rattle.wq_reply.specs.Long.{long_text};
    ghost use Rattle.wq_reply.specs.Printing.{told};
    ghost use Rattle.wq_view.specs.Limit.{max_records};

    ghost Value = { List ℕ };

    ghost view = { λ l. long_text l.head.items (told l.form (instance_data l.instance) l.bound)
        l.shown.records l.places.items (is_fresh l.bound) };

    ghost invariant = { λ l. AreWithin l.shown.records l.places.items
        × (length l.places.items ≤ max_records) };
}

impl LongReply {
    /// The reply that lists the files at these places, of which there is one at least.
    pub(crate) fn new(
        alloc: Global,
        plan: &Plan,
        instance: &Instance,
        view: &View,
        places: Vec<u32>,
    ) -> Result<LongReply, AllocError>
        requires within { AreWithin view.now.records places.items }
        requires some { 1 ≤ length places.items }
        requires count { length places.items ≤ max_records }
        requires files { records_at view.now.records places.items
            ≡ files_of (planned plan.now) view.now.records }
        ensures { IfOk result (λ reply. reply
            ≡ compact_text (reply_of (planned plan.now) (instance_data instance.now) view.now)) }
    {
        let form = Form::of(alloc, &plan.fields)?;
        let head = head_of(
            alloc,
            &Rows {
                form: &form,
                instance,
                bound: plan.bound,
                view,
                places: &places,
                size: PIECE,
            },
        )?;
        let Ok(shown) = view.copy() else {
            return Err(AllocError);
        };
        Ok(LongReply::of_parts(head, form, *instance, plan.bound, shown, places))
    }

    /// The reply of these first bytes, which says the files at these places in this form.
    fn of_parts(
        head: Vec<u8>,
        form: Form,
        instance: Instance,
        bound: Bound,
        shown: View,
        places: Vec<u32>,
    ) -> LongReply
        requires within { AreWithin shown.records places.items }
        requires count { length places.items ≤ max_records }
        ensures { result ≡ long_text head.items (told form (instance_data instance) bound)
            shown.records places.items (is_fresh bound) }
    {
        LongReply {
            head,
            form,
            instance,
            bound,
            shown,
            places,
        }
    }

    /// Writes the text and a newline, which a crew prints a piece at a time.
    ///
    /// # Errors
    /// The writer's own error, or `OutOfMemory` if there is no memory for a piece. The writer then holds a front of the
    /// line, but not all of it.
    pub fn write_line<C: Crew, W: Write>(
        &self,
        crew: &C,
        alloc: Global,
        writer: &mut W,
    ) -> io::Result<()>
        ensures done { OnOk result
            (Appends (W.contents writer.old) (W.contents writer.new) (self.now ++ codes "\n")) }
        ensures front { OnErr result
            (WritesFront (W.contents writer.old) (W.contents writer.new) (self.now ++ codes "\n")) }
    {
        write_all(writer, &self.head)?;
        let places = rest_of(&self.places);
        let threads = crew.printers(places.len());
        let rows = Rows {
            form: &self.form,
            instance: &self.instance,
            bound: self.bound,
            view: &self.shown,
            places,
            size: size_for(threads),
        };
        write_rows(writer, crew, alloc, &rows, threads)?;
        write_all(writer, close_of(self.bound.is_fresh()))
    }
}

/// The text of a reply up to the rows of its first files.
fn head_of(alloc: Global, rows: &Rows<'_>) -> Result<Vec<u8>, AllocError>
    requires { AreWithin rows.now.view.now.records rows.now.places.now }
    ensures { IfOk result (λ head. head.items
        ≡ start_text (clock_text (instance_data rows.now.instance.now) rows.now.view.now.tick)
        ++ opened (data_at rows.now (take head_files rows.now.places.now))) }
{
    let list = opened_at(alloc, rows, piece_of(rows.places, HEAD_FILES, 0))?;
    let mut head = with_room(alloc, list.len().saturating_add(ROOM));
    put_start(
        &mut head,
        alloc,
        print(rows.instance, rows.view.tick()).as_str(),
    )?;
    head.extend_from_slice(&list)?;
    Ok(head)
}

/// The text of the list of the rows of the files at these places, without its last bracket.
fn opened_at(alloc: Global, rows: &Rows<'_>, places: &[u32]) -> Result<Vec<u8>, AllocError>
    requires { AreWithin rows.now.view.now.records places.now }
    ensures { IfOk result (λ list. list.items ≡ opened (data_at rows.now places.now)) }
{
    let mut list = list_at(alloc, rows, places)?;
    list.pop();
    Ok(list)
}

/// The places of the files whose rows are not printed first.
fn rest_of(places: &[u32]) -> &[u32]
    ensures { result.now ≡ drop head_files places.now }
{
    match places.split_at_checked(HEAD_FILES as usize) {
        Some((_, rest)) => rest,
        None => &[],
    }
}

/// How many rows a piece has that so many threads print.
fn size_for(threads: u32) -> u32
    ensures { 1 ≤ result }
{
    if threads == 1 {
        PIECE
    } else {
        PIECE_OF_SEVERAL
    }
}

/// The bytes of a reply after its last row, and a newline.
fn close_of(fresh: bool) -> &'static [u8]
    ensures { result.now ≡ close_text fresh ++ codes "\n" }
{
    if fresh { CLOSE_FRESH } else { CLOSE }
}
