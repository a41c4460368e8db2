//! The lines about starts.
ghost use Rattle.std.specs.Prelude.{◌≡◌, ◌∷◌, [], IfOk, None, Some, codes, if◌then◌else◌, map};
ghost use Rattle.json.specs.Token.{begin_object, end_object, key, string as string_token};
ghost use Rattle.json.specs.Tree.{json_tokens};
ghost use Rattle.serde_json.specs.Data.{object};
ghost use Rattle.serde_json.specs.Written.{outline};
ghost use Rattle.wq_follow.specs.Start.{var, var_if, vars_of};
ghost use Rattle.wq_follow.specs.Started.{env_data, start_data};
ghost use Rattle.wq_reply.specs.Printing.{Appends, Prints};
ghost use Rattle.wq_replay.specs.Launched.{all_tried, tried_data};
ghost use Rattle.wq_replay.specs.StartLine.{failed_text, start_object, started_text, texts_data};
ghost use Rattle.wq_replay.specs.StartLine.{tried_text, var_tokens, vars_members};

use crate::launcher::Tried;
use json::Writer;
use std::alloc::{AllocError, Global};
use wq_base::{Table, Text};
use wq_clock::ClockText;
use wq_follow::{Env, Start};

/// A line about each start, without its newline.
pub(crate) fn lines_about(alloc: Global, tried: &[Tried]) -> Result<Table<Table<u8>>, AllocError>
    ensures { IfOk result (λ lines. lines ≡ map tried_text (all_tried tried.now)) }
{
    let mut lines = Table::new(alloc);
    for one in tried {
        lines.push(line_about(alloc, one)?)?;
    }
    Ok(lines)
}

/// The line about a start.
fn line_about(alloc: Global, tried: &Tried) -> Result<Table<u8>, AllocError>
    ensures { IfOk result (λ line. line ≡ tried_text (tried_data tried.now)) }
{
    match tried.run {
        Some(_) => started(alloc, &tried.start),
        None => failed(alloc, &tried.start),
    }
}

/// The line about a start that failed: the name of the trigger.
fn failed(alloc: Global, start: &Start) -> Result<Table<u8>, AllocError>
    ensures { IfOk result (λ line. line ≡ failed_text (start_data start.now)) }
{
    let mut text = Vec::from_slice(alloc, b"failed ")?;
    text.extend_from_slice(start.env.trigger.as_bytes())?;
    Ok(Table::from_vec(text))
}

/// The line about a start that succeeded: the start as a JSON object.
fn started(alloc: Global, start: &Start) -> Result<Table<u8>, AllocError>
    ensures { IfOk result (λ line. line ≡ started_text (start_data start.now)) }
{
    // Names and JSON are UTF-8, so only memory can run out.
    let Ok(input) = str::from_utf8(start.input.as_slice()) else {
        return Err(AllocError);
    };
    let mut out = Writer::new(Vec::from_slice(alloc, b"start ")?);
    put_start(&mut out, start, input)?;
    Ok(Table::from_vec(out.into_inner()))
}

/// Prints a start with this input.
fn put_start(out: &mut Writer, start: &Start, input: &str) -> Result<(), AllocError>
    requires { input.now ≡ start.now.input }
    ensures { Prints result out.old out.new (start_object (start_data start.now)) }
{
    put_args(out, start.args.as_slice())?;
    put_env(out, &start.env)?;
    put_end(out, start.env.trigger.as_str(), input)
}

/// Prints the beginning of a start, with its arguments.
fn put_args(out: &mut Writer, args: &[Text]) -> Result<(), AllocError>
    ensures { Appends result out.old out.new
        (begin_object ∷ key (codes "args") ∷ json_tokens (outline (texts_data args.now))) }
{
    out.begin_object()?;
    out.key("args")?;
    put_texts(out, args)
}

/// Prints texts as a list.
fn put_texts(out: &mut Writer, texts: &[Text]) -> Result<(), AllocError>
    ensures { Prints result out.old out.new (texts_data texts.now) }
{
    out.begin_array()?;
    for text in texts {
        out.string(text.as_str())?;
    }
    out.end_array()
}

/// Prints the environment of a start.
fn put_env(out: &mut Writer, env: &Env) -> Result<(), AllocError>
    ensures { Appends result out.old out.new (key (codes "env")
        ∷ json_tokens (outline (object (vars_members (vars_of (env_data env.now)))))) }
{
    out.key("env")?;
    out.begin_object()?;
    put_vars(out, env)?;
    out.end_object()
}

/// Prints the variables of an environment.
fn put_vars(out: &mut Writer, env: &Env) -> Result<(), AllocError>
    ensures { Appends result out.old out.new (var_tokens (vars_of (env_data env.now))) }
{
    put_var(out, "WATCHMAN_CLOCK", env.clock.as_str())?;
    put_overflow(out, env.overflow)?;
    put_var(out, "WATCHMAN_ROOT", env.root.as_str())?;
    put_since(out, &env.since)?;
    put_var(out, "WATCHMAN_TRIGGER", env.trigger.as_str())
}

/// Prints the variable that says that a list was cut, if one was.
fn put_overflow(out: &mut Writer, overflow: bool) -> Result<(), AllocError>
    ensures { Appends result out.old out.new (var_tokens (var_if (codes "WATCHMAN_FILES_OVERFLOW")
        (if overflow then Some (codes "true") else None))) }
{
    if !overflow {
        return Ok(());
    }
    put_var(out, "WATCHMAN_FILES_OVERFLOW", "true")
}

/// Prints the variable with the clock id of the batch before, if there was one.
fn put_since(out: &mut Writer, since: &Option<ClockText>) -> Result<(), AllocError>
    ensures { Appends result out.old out.new
        (var_tokens (var_if (codes "WATCHMAN_SINCE") since.now)) }
{
    match since {
        Some(clock) => put_var(out, "WATCHMAN_SINCE", clock.as_str()),
        None => Ok(()),
    }
}

/// Prints a variable.
fn put_var(out: &mut Writer, key: &str, value: &str) -> Result<(), AllocError>
    ensures { Appends result out.old out.new (var_tokens (var key.now value.now ∷ [])) }
{
    out.key(key)?;
    out.string(value)
}

/// Prints the end of a start: the name of its trigger, and the input.
fn put_end(out: &mut Writer, name: &str, input: &str) -> Result<(), AllocError>
    ensures { Appends result out.old out.new
        (key (codes "name") ∷ string_token name.now
        ∷ key (codes "stdin") ∷ string_token input.now ∷ end_object ∷ []) }
{
    put_var(out, "name", name)?;
    put_var(out, "stdin", input)?;
    out.end_object()
}
