//! Replies without floats.
ghost use Rattle.std.specs.Prelude.{◌≡◌, false};
ghost use Rattle.serde_json.specs.View.{view as data_of};
ghost use Rattle.serde_json.specs.Written.{has_float};

use serde_json::Value;

/// A reply without floats, so that it has one text.
#[derive(Drop)]
pub(crate) struct Plain {
    pub(crate) value: Value,
    ghost plain: { has_float (data_of value) ≡ false },
}
