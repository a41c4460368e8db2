//! About how many bytes a reply takes, so that they are asked for once. It is a guess, of which no
//! contract speaks: a reply that is longer grows.
ghost use Rattle.std.specs.Prelude.{◌≡◌, []};
ghost use Rattle.wq_reply.specs.Listing.{AreWithin};

use crate::form::Form;
use crate::printer::{Lengths, room_of_field};
use std::alloc::Global;
use wq_clock::{Instance, print};
use wq_query::Field;
use wq_view::View;

/// The bytes of a reply that tells of no file, but for its clock id.
const REST: usize = 80;

/// How many names are looked at.
const SAMPLES: usize = 1024;

/// No bytes yet, with room for so many. If that much is refused there is no room, and the bytes
/// grow.
pub(crate) fn with_room(alloc: Global, room: usize) -> Vec<u8>
    ensures { result.items ≡ [] }
{
    match Vec::with_capacity(alloc, room) {
        Ok(bytes) => bytes,
        Err(_) => Vec::new(alloc),
    }
}

/// The room of a reply that tells of the files at these places.
pub(crate) fn room_of(instance: &Instance, view: &View, places: &[u32], form: &Form) -> usize
    requires { AreWithin view.now.records places.now }
{
    let lengths = Lengths {
        name: usual_name(view, places),
        // No tick is greater, and so no clock id is longer.
        clock: print(instance, view.tick()).as_str().len(),
    };
    let files = places.len().saturating_mul(room_of_file(form, lengths));
    files.saturating_add(lengths.clock).saturating_add(REST)
}

/// An eighth more than the mean length of some names, which are spread over all.
fn usual_name(view: &View, places: &[u32]) -> usize
    requires { AreWithin view.now.records places.now }
{
    let mut reader = view.reader();
    let step = places.len() / SAMPLES + 1;
    let mut bytes: usize = 0;
    let mut names: usize = 0;
    for sample in 0..SAMPLES {
        let Some(place) = places.get(sample.saturating_mul(step)) else {
            break;
        };
        bytes = bytes.saturating_add(reader.get(*place as usize).name.as_bytes().len());
        names = names.saturating_add(1);
    }
    bytes.saturating_add(bytes / 8) / names.max(1)
}

/// The room of a file's value, with a comma after it.
fn room_of_file(form: &Form, lengths: Lengths) -> usize {
    match form {
        Form::Bare(field) => room_of_field(*field, lengths).saturating_add(1),
        Form::Object(fields) => room_of_members(fields, lengths).saturating_add(3),
    }
}

/// The room of members: keys and values, each with its comma or colon, and the quotes of keys.
fn room_of_members(fields: &[Field], lengths: Lengths) -> usize {
    let mut room: usize = 0;
    for field in fields {
        let key = field.name().len().saturating_add(4);
        let value = room_of_field(*field, lengths);
        room = room.saturating_add(key).saturating_add(value);
    }
    room
}
