//! `program-add`, `program-list` and `program-del`, by which the server keeps programs under names: their asks and
//! their replies. This has the way from the text of a file to a program that may run.
ghost use Rattle.std.specs.Prelude.{◌≡◌, IfOk, Ok, Err};
ghost use Rattle.base64.specs.GeneralPurpose.{decode_of};
ghost use Rattle.base64.specs.Engines.{standard};
ghost use Rattle.serde_json.specs.View.{items_view};
ghost use Rattle.wq_ask.specs.Argument.{adds, behind};
ghost use Rattle.wq_ask.specs.Program.{DecodesTo, add_request, adding, delete_request, is_name, names_request};
ghost use Rattle.wq_ask.specs.Program.{added_data, deleted_data};
ghost use Rattle.wq_ask.specs.Reading.{Requests};
ghost use Rattle.wq_ask.specs.Reply.{IsReply};

use crate::ask::{Ask, ShelfAsk, ShelfRead};
use crate::refusal::Refusal;
use crate::words::{are_none, one_text, two_texts};
use base64::DecodeAllocError;
use base64::engine::general_purpose::STANDARD;
use serde_json::{Value, json};
use std::alloc::{AllocError, Global};
use wq_base::{Text, VERSION};
use wq_code::{FileFault, decode};
use wq_verify::{ProgramFault, verify};

/// The most bytes that the name of a program may have.
const MAX_PROGRAM_NAME: usize = 255;

/// The ask of `program-add` with these words.
pub(super) fn ask_add(alloc: Global, words: Vec<Value>) -> Result<Ask, Refusal>
    ensures { Requests (add_request (behind (items_view words.items))) result }
{
    match two_texts(words) {
        Some((name, text)) => adding(alloc, name, &text),
        None => Err(Refusal::WrongArguments),
    }
}

/// The ask of `program-list` with these words.
pub(super) fn ask_names(words: &[Value]) -> Result<Ask, Refusal>
    ensures { Requests (names_request (behind (items_view words.now))) result }
{
    if !are_none(words) {
        return Err(Refusal::WrongArguments);
    }
    Ok(Ask::OfShelf(ShelfAsk::Reads(ShelfRead::ListPrograms)))
}

/// The ask of `program-del` with these words.
pub(super) fn ask_delete(words: Vec<Value>) -> Result<Ask, Refusal>
    ensures { Requests (delete_request (behind (items_view words.items))) result }
{
    match one_text(words) {
        Some(name) if is_name(&name) => Ok(Ask::OfShelf(ShelfAsk::DeleteProgram { name })),
        Some(_) => Err(Refusal::BadName),
        None => Err(Refusal::WrongArguments),
    }
}

/// The server keeps the program of a base64 text under a name.
fn adding(alloc: Global, name: Text, text: &Text) -> Result<Ask, Refusal>
    ensures { Requests (adding (name, text.now)) result }
{
    if !is_name(&name) {
        return Err(Refusal::BadName);
    }
    let file = bytes_of(alloc, text)?;
    added(alloc, name, &file)
}

/// Whether a text may be the name of a program or of a subscription.
pub fn is_name(name: &Text) -> bool
    ensures { result ≡ is_name name.now }
{
    let length = name.as_bytes().len();
    1 <= length && length <= MAX_PROGRAM_NAME
}

/// The bytes of a base64 text.
fn bytes_of(alloc: Global, text: &Text) -> Result<Vec<u8>, Refusal>
    ensures { DecodesTo (decode_of standard text.now) result }
{
    match STANDARD.decode(alloc, text.as_bytes()) {
        Ok(bytes) => Ok(bytes),
        Err(DecodeAllocError::OutOfMemory) => Err(Refusal::NoMemory),
        Err(_) => Err(Refusal::NotBase64),
    }
}

/// The server keeps the program of a file under a name.
fn added(alloc: Global, name: Text, file: &[u8]) -> Result<Ask, Refusal>
    ensures { Requests (Ok (adds name file.now)) result }
{
    let raw = match decode(alloc, file) {
        Ok(raw) => raw,
        Err(FileFault::NoMemory) => return Err(Refusal::NoMemory),
        Err(fault) => return Err(Refusal::WrongFile(fault)),
    };
    match verify(alloc, raw) {
        Ok(program) => Ok(Ask::OfShelf(ShelfAsk::AddProgram { name, program })),
        Err((_, refused)) => match refused.code {
            ProgramFault::NoMemory => Err(Refusal::NoMemory),
            fault => Err(Refusal::WrongProgram {
                fault,
                at: refused.at,
            }),
        },
    }
}

/// The reply that a program of so many instructions is kept under a name, and whether it replaced one.
pub fn add_reply(
    alloc: Global,
    name: &str,
    instructions: usize,
    replaced: bool,
) -> Result<Value, AllocError>
    ensures { IfOk result (IsReply (added_data name.now instructions replaced)) }
{
    json!(in alloc; {
        "instructions": instructions,
        "program-add": name,
        "replaced": replaced,
        "version": VERSION,
    })
}

/// The reply that no program is kept under a name, and whether one was.
pub fn delete_reply(alloc: Global, name: &str, there: bool) -> Result<Value, AllocError>
    ensures { IfOk result (IsReply (deleted_data name.now there)) }
{
    json!(in alloc; { "deleted": there, "program-del": name, "version": VERSION })
}
