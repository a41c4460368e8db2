//! The replay of a script: it plays the lines in turn, up to the end or to a fault.
ghost use Rattle.std.specs.Prelude.{IfSome};
ghost use Rattle.wq_replay.specs.Replay.{Ends};
ghost use Rattle.wq_replay.specs.Stage.{start};
ghost use Rattle.wq_replay.specs.Step.{IsAt};

use crate::fault::ReplayFault;
use crate::line_reader::next_line;
use crate::stage::Stage;
use crate::step::step;
use std::alloc::Global;
use std::io::{BufRead, Write};

/// How many bytes a script may have.
pub const MAX_SCRIPT: usize = 1 << 30;

/// Replays a script: answers the clients' lines in order, in a world that started at second 7 as process 9 and whose
/// socket is `replay`. A line that asks for a crawl of the root `/r` is answered after a crawl of the tree that the
/// script has set.
///
/// Each reply is written as its client's number, a space, the reply and a newline. The first malformed line ends the
/// replay, after the replies to the lines before it. A line that ends the server ends the replay too, with `Ok`. So
///
/// ```text
/// pass 100
/// f 12 1000 src/a.c
/// end
/// ask 1 ["query","/r",{"fields":["name"]}]
/// ```
///
/// writes `1 {"clock":"c:7:9:1:1","files":["src/a.c"],"is_fresh_instance":true,"version":"wq-1"}`.
pub fn replay<R: BufRead, W: Write>(
    alloc: Global,
    reader: &mut R,
    writer: &mut W,
) -> Result<(), ReplayFault>
    ensures { IfSome (R.remaining reader.old) (λ script.
        Ends script (W.contents writer.old) (W.contents writer.new)
        (R.remaining reader.new) result) }
{
    let Ok(mut stage) = Stage::new(alloc) else {
        return Err(ReplayFault::Memory);
    };
    let mut line = Vec::new(alloc);
    play(alloc, &mut stage, &mut line, reader, writer)
}

/// Plays the lines of a script from its start, each in the room of `line`.
fn play<R: BufRead, W: Write>(
    alloc: Global,
    stage: &mut Stage,
    line: &mut Vec<u8>,
    reader: &mut R,
    writer: &mut W,
) -> Result<(), ReplayFault>
    requires { IsAt stage.old start }
    ensures { IfSome (R.remaining reader.old) (λ script.
        Ends script (W.contents writer.old) (W.contents writer.new)
        (R.remaining reader.new) result) }
{
    let mut size = 0usize;
    for number in 1..u64::MAX {
        let taken = next_line(reader, line)?;
        if taken == 0 {
            return Ok(());
        }
        size += taken;
        if size > MAX_SCRIPT {
            return Err(ReplayFault::Read);
        }
        match step(alloc, stage, writer, line) {
            Ok(true) => {}
            Ok(false) => return Ok(()),
            Err(fault) => return Err(fault.at(number)),
        }
    }
    Err(ReplayFault::Read)
}
