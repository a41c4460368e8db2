//! One line of a script, and its effect at the stage of the script.
ghost use Rattle.std.specs.Prelude.{◌≡◌, ℕ, [], List, Option, None, Some, IfOk, Ok, OnOk, map, true};
ghost use Rattle.wq_stream.specs.Stream.{event_of, is_binary};
ghost use Rattle.wq_stream.specs.declared.event.Event.{Event};
ghost use Rattle.wq_ask.specs.Reading.{Asks};
ghost use Rattle.wq_replay.specs.LineData.{line_data, seen_data};
ghost use Rattle.wq_replay.specs.Replay.{crawled, ends_of};
ghost use Rattle.wq_replay.specs.Stage.{StageData, drafts, empty_draft, finishes, fires, hears, rests, turn_at_end};
ghost use Rattle.wq_replay.specs.Stage.{turn_inside, turn_of, turn_outside};
ghost use Rattle.wq_replay.specs.Stands.{Stands, happening_data};
ghost use Rattle.wq_replay.specs.Step.{IsAt, TakesAll, TakesTurn, draft_data};
ghost use Rattle.wq_replay.specs.Playing.{Runs};
ghost use Rattle.wq_replay.specs.World.{WorldData};

use crate::fault::StepFault;
use crate::happening::Happening;
use crate::happenings::{end_if, happenings, moments, rounds};
use crate::line_reader::MAX_SCRIPT_LINE;
use crate::line_writer::send;
use crate::numbers::{answers_from, numbers_for};
use crate::script::{Line, RowLine, read_line};
use crate::stage::{OpenListing, Stage};
use crate::world::{ROOT, World};
use std::alloc::{AllocError, Global};
use std::io::Write;
use wq_ask::{Ask, LoneAsk, Refusal};
use wq_base::{Table, Text};
use wq_stream::{Event, MAX_LINE};
use wq_view::{Pass, Seen, SharedBytes};

/// Plays a line of a script, and tells whether the server goes on.
pub(crate) fn step<W: Write>(
    alloc: Global,
    stage: &mut Stage,
    writer: &mut W,
    text: &[u8],
) -> Result<bool, StepFault>
    ensures { (at : StageData) → IsAt stage.old at
        → TakesTurn at (turn_of at text.now)
        (W.contents writer.old) (W.contents writer.new) result stage.new }
{
    if text.len() > MAX_SCRIPT_LINE {
        return Err(StepFault::Malformed);
    }
    let Some(line) = read_line(text) else {
        return Err(StepFault::Malformed);
    };
    match stage.draft.take() {
        None => step_outside(alloc, stage, writer, line),
        Some(draft) => step_inside(alloc, stage, draft, line),
    }
}

/// Plays a line outside of a listing.
fn step_outside<W: Write>(
    alloc: Global,
    stage: &mut Stage,
    writer: &mut W,
    line: Line<'_>,
) -> Result<bool, StepFault>
    requires { stage.old.draft ≡ None }
    ensures { (at : StageData) → IsAt stage.old at
        → TakesTurn at (turn_outside (line_data line.entry))
        (W.contents writer.old) (W.contents writer.new) result stage.new }
{
    match line {
        Line::Pass(second) => Ok(begin(alloc, stage, true, second)),
        Line::Tree(second) => Ok(begin(alloc, stage, false, second)),
        Line::Ask(client, line) => {
            let ask = ask_of(alloc, line);
            hear(alloc, stage, writer, client, ask)
        }
        Line::Leave(client) => hear(alloc, stage, writer, client, Ask::Alone(LoneAsk::Leave)),
        Line::Idle(client) => rest(alloc, stage, writer, client),
        Line::Fire(succeeds) => fire(alloc, stage, writer, succeeds),
        Line::Done(name) => finish(alloc, stage, writer, name),
        Line::Row(_) | Line::End => Err(StepFault::Malformed),
    }
}

/// Begins a listing; the server goes on.
fn begin(alloc: Global, stage: &mut Stage, crawls: bool, second: i64) -> bool
    ensures { (at : StageData) → IsAt stage.old at → (known : Option (List ℕ))
        → TakesTurn at (drafts (empty_draft crawls second)) known known (Ok result) stage.new }
{
    stage.draft = Some(OpenListing {
        crawls,
        second,
        rows: Vec::new(alloc),
    });
    true
}

/// Plays a line of a listing.
fn step_inside(
    alloc: Global,
    stage: &mut Stage,
    mut draft: OpenListing,
    line: Line<'_>,
) -> Result<bool, StepFault>
    requires { stage.old.draft ≡ None }
    ensures { (at : StageData) → Stands at.world stage.old.world → at.tree ≡ stage.old.tree
        → at.draft ≡ Some (draft_data draft) → at.next ≡ stage.old.next → (known : Option (List ℕ))
        → TakesTurn at (turn_inside (draft_data draft) (line_data line.entry))
        known known result stage.new }
{
    match line {
        Line::Row(row) => {
            draft.rows.push(seen(alloc, row)?)?;
            stage.draft = Some(draft);
            Ok(true)
        }
        Line::End => end_listing(alloc, stage, draft),
        _ => Err(StepFault::Malformed),
    }
}

/// A row as a walker would have seen it.
fn seen(alloc: Global, row: RowLine<'_>) -> Result<Seen, AllocError>
    ensures { IfOk result (λ seen. seen ≡ seen_data row.entry) }
{
    Ok(Seen {
        name: SharedBytes::from_slice(alloc, row.name)?,
        kind: row.kind,
        size: row.size,
        mtime_ms: row.mtime_ms,
    })
}

/// Ends a listing: `/r` lists it from now on, and is crawled or not.
fn end_listing(alloc: Global, stage: &mut Stage, draft: OpenListing) -> Result<bool, StepFault>
    requires { stage.old.draft ≡ None }
    ensures { (at : StageData) → Stands at.world stage.old.world → at.next ≡ stage.old.next
        → (known : Option (List ℕ))
        → TakesTurn at (turn_at_end (draft_data draft)) known known result stage.new }
{
    let crawls = draft.crawls;
    let Ok(tree) = Pass::new(draft.rows, draft.second) else {
        return Err(StepFault::Malformed);
    };
    if !crawls {
        stage.tree = tree;
        return Ok(true);
    }
    crawl(alloc, &mut stage.world, &tree)?;
    stage.tree = tree;
    Ok(true)
}

/// Crawls `/r`, which lists this.
fn crawl(alloc: Global, world: &mut World, tree: &Pass) -> Result<(), AllocError>
    ensures { (before : WorldData) → Stands before world.old → OnOk result (
        (after : WorldData) × Runs before (crawled true tree.now) [] after
        × Stands after world.new) }
{
    let root = Text::copied(alloc, ROOT)?;
    let mut happenings = Vec::new(alloc);
    happenings.push(Happening::Crawl {
        root,
        seen: Ok(tree),
    })?;
    world.play(happenings)?;
    Ok(())
}

/// The ask of a client's line.
fn ask_of(alloc: Global, line: &[u8]) -> Ask
    ensures { Asks (event_of line.now) result }
{
    if is_binary(line) {
        return Ask::read(alloc, Event::Binary);
    }
    if line.len() > MAX_LINE {
        return Ask::read(alloc, Event::Long);
    }
    match Vec::from_slice(alloc, line) {
        Ok(bytes) => Ask::read(alloc, Event::Line(Table::from_vec(bytes))),
        Err(_) => Ask::Alone(LoneAsk::Refused(Refusal::NoMemory)),
    }
}

/// Whether the line begins with byte 0.
fn is_binary(line: &[u8]) -> bool
    ensures { result ≡ is_binary line.now }
{
    line.first() == Some(&0)
}

/// Hears a client, and tells whether the server goes on.
fn hear<W: Write>(
    alloc: Global,
    stage: &mut Stage,
    writer: &mut W,
    client: i64,
    ask: Ask,
) -> Result<bool, StepFault>
    ensures { (at : StageData) → IsAt stage.old at → (event : Event) → Asks event ask
        → TakesTurn at (hears client event)
        (W.contents writer.old) (W.contents writer.new) result stage.new }
{
    let happenings = happenings(alloc, &stage.tree, client, ask)?;
    let sent = stage.world.play(happenings)?;
    send(alloc, writer, &sent)
}

/// Lets a client have an idle moment of each root that it is subscribed to; the server goes on.
fn rest<W: Write>(
    alloc: Global,
    stage: &mut Stage,
    writer: &mut W,
    client: i64,
) -> Result<bool, StepFault>
    ensures { (at : StageData) → IsAt stage.old at
        → TakesTurn at (rests client)
        (W.contents writer.old) (W.contents writer.new) result stage.new }
{
    let numbers = stage.world.numbers(client)?;
    let moments = moments(alloc, client, &numbers)?;
    happen(alloc, stage, writer, moments)
}

/// Lets the triggers of `/r` have a round; the server goes on.
fn fire<W: Write>(
    alloc: Global,
    stage: &mut Stage,
    writer: &mut W,
    succeeds: bool,
) -> Result<bool, StepFault>
    ensures { (at : StageData) → IsAt stage.old at
        → TakesTurn at (fires succeeds)
        (W.contents writer.old) (W.contents writer.new) result stage.new }
{
    let count = numbers_for(succeeds, stage.next);
    let answers = answers_from(alloc, stage.next, count)?;
    stage.next += count;
    let rounds = rounds(alloc, answers)?;
    happen(alloc, stage, writer, rounds)
}

/// Ends the run of the command of the trigger of `/r` of this name, if there is one; the server goes on.
fn finish<W: Write>(
    alloc: Global,
    stage: &mut Stage,
    writer: &mut W,
    name: &[u8],
) -> Result<bool, StepFault>
    ensures { (at : StageData) → IsAt stage.old at
        → TakesTurn at (finishes name.now)
        (W.contents writer.old) (W.contents writer.new) result stage.new }
{
    let ends = ends_of(alloc, &stage.world, name)?;
    happen(alloc, stage, writer, ends)
}

/// The end of the run of the command of the trigger of `/r` of this name, if there is one.
fn ends_of<'a>(alloc: Global, world: &World, name: &[u8]) -> Result<Vec<Happening<'a>>, AllocError>
    ensures { (before : WorldData) → Stands before world.now → IfOk result (λ all.
        map happening_data all.items ≡ ends_of name.now before) }
{
    match str::from_utf8(name) {
        Ok(name) => end_if(alloc, world.trigger_run(ROOT, name)),
        Err(_) => Ok(Vec::new(alloc)),
    }
}

/// Plays these happenings, and sends their lines; the server goes on.
fn happen<W: Write>(
    alloc: Global,
    stage: &mut Stage,
    writer: &mut W,
    happenings: Vec<Happening<'_>>,
) -> Result<bool, StepFault>
    ensures { (at : StageData) → IsAt stage.old at
        → TakesAll at (map happening_data happenings.entry.items)
        (W.contents writer.old) (W.contents writer.new) result stage.new }
{
    let sent = stage.world.play(happenings)?;
    send(alloc, writer, &sent)?;
    Ok(true)
}
