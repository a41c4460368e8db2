//! The object of a trigger, as it is kept: its text, which is read again when triggers are listed.
ghost use Rattle.std.specs.Prelude.{◌≡◌, ◌≤◌, IfOk, Some, false};
ghost use Rattle.serde_json.specs.Data.{depth};
ghost use Rattle.serde_json.specs.Read.{max_depth, read};
ghost use Rattle.serde_json.specs.View.{view as data_of};
ghost use Rattle.serde_json.specs.Written.{has_float};
ghost use Rattle.wq_follow.specs.Kept.{data_in};

use serde_json::Value;
use std::alloc::{AllocError, Global};
use std::marker::Model;
use std::sync::Arc;
use wq_base::Text;

/// The text of an object that can be read again, and has no float. Contracts see the text.
#[derive(Drop)]
pub struct ObjectText {
    text: Text,
}

impl Model for ObjectText {
    ghost use Rattle.std.specs.Prelude.{◌≡◌, ℕ, List, Some, false};
    ghost use Rattle.serde_json.specs.Read.{read};
    ghost use Rattle.serde_json.specs.Written.{has_float};
    ghost use Rattle.wq_follow.specs.Kept.{data_in};

    ghost Value = { List ℕ };

    ghost view = { λ o. o.text };

    ghost invariant = { λ o. (read o.text ≡ Some (data_in o.text))
        × (has_float (data_in o.text) ≡ false) };
}

impl ObjectText {
    /// The object, read from its text.
    #[tactic(auto, using(crate::proofs::KeptTexts::text_says, crate::proofs::KeptTexts::read_is_plain))]
    pub fn read(&self, alloc: Global) -> Result<Value, AllocError>
        ensures data { IfOk result (λ object. data_of object ≡ data_in self.now) }
        ensures floats { IfOk result (λ object. has_float (data_of object) ≡ false) }
    {
        match Value::from_str(alloc, self.text.as_str()) {
            Ok(object) => Ok(object),
            Err(_) => Err(AllocError),
        }
    }
}

/// An object and its text. Contracts see the text.
#[derive(Drop)]
pub(crate) struct Object {
    value: Value,
    text: Arc<ObjectText>,
}

impl Model for Object {
    ghost use Rattle.std.specs.Prelude.{◌≡◌, ℕ, List, Some, false};
    ghost use Rattle.serde_json.specs.View.{view as data_of};
    ghost use Rattle.serde_json.specs.Written.{has_float};
    ghost use Rattle.wq_follow.specs.Kept.{data_in};

    ghost Value = { List ℕ };

    ghost view = { λ o. o.text.value };

    ghost invariant = { λ o. (data_in o.text.value ≡ data_of o.value)
        × (has_float (data_of o.value) ≡ false) };
}

impl Object {
    /// The object of a value.
    #[tactic(auto, using(crate::proofs::KeptTexts::text_says, crate::proofs::KeptTexts::text_reads, crate::proofs::KeptTexts::text_is_plain))]
    pub(crate) fn of(alloc: Global, value: Value) -> Result<Object, AllocError>
        requires depth { depth (data_of value) ≤ max_depth }
        requires floats { has_float (data_of value) ≡ false }
        ensures { IfOk result (λ object. data_in object ≡ data_of value) }
    {
        let text = ObjectText {
            text: value_text(alloc, &value)?,
        };
        Ok(Object {
            text: Arc::new(alloc, text)?,
            value,
        })
    }

    /// The value.
    pub(crate) fn value(&self) -> &Value
        ensures data { data_of result.now ≡ data_in self.now }
        ensures floats { has_float (data_of result.now) ≡ false }
    {
        &self.value
    }

    /// The text alone.
    pub(crate) fn into_text(self) -> Arc<ObjectText>
        ensures { result.value ≡ self }
    {
        self.text
    }
}

/// The text of a value, with no room after it. It can be read again if the value is not too deep.
pub(crate) fn value_text(alloc: Global, value: &Value) -> Result<Text, AllocError>
    ensures { IfOk result (λ text. depth (data_of value.now) ≤ max_depth
        → read text ≡ Some (data_of value.now)) }
{
    let mut text = value.to_string(alloc)?;
    text.shrink_to_fit();
    Ok(Text::from_string(text))
}
