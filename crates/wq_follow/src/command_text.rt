//! The command of a trigger, as it is kept.
ghost use Rattle.std.specs.Prelude.{◌≡◌, IfOk, option_map};
ghost use Rattle.serde_json.specs.View.{view as data_of};
ghost use Rattle.wq_follow.specs.Definition.{command_of};

use crate::object_text::value_text;
use crate::shape::words;
use serde_json::Value;
use std::alloc::{AllocError, Global};
use std::marker::Model;
use wq_base::{Table, Text};

/// A command: the program and its first arguments. It is kept as the text of their JSON list, and contracts see the
/// words.
#[derive(Drop)]
pub struct CommandText {
    text: Text,
}

impl Model for CommandText {
    ghost use Rattle.std.specs.Prelude.{◌≡◌, ℕ, List, Some};
    ghost use Rattle.serde_json.specs.Read.{read};
    ghost use Rattle.wq_follow.specs.Definition.{command_of};
    ghost use Rattle.wq_follow.specs.Kept.{command_in};

    ghost Value = { List (List ℕ) };

    ghost view = { λ c. command_in c.text };

    ghost invariant = { λ c. command_of (read c.text) ≡ Some (command_in c.text) };
}

impl CommandText {
    /// The command that a value says: a list of texts, of which the first names the program.
    #[tactic(auto, using(crate::proofs::Plain::kept_command, crate::proofs::Plain::kept_words))]
    pub(crate) fn read(
        alloc: Global,
        value: Option<&Value>,
    ) -> Result<Option<CommandText>, AllocError>
        ensures { IfOk result (λ command. command
            ≡ command_of (option_map (λ v. data_of v.now) value.entry)) }
    {
        let Some(value) = value else {
            return Ok(None);
        };
        let Some(_) = words(alloc, Some(value))? else {
            return Ok(None);
        };
        Ok(Some(CommandText {
            text: value_text(alloc, value)?,
        }))
    }

    /// The words, which are read of the text.
    #[tactic(auto, using(crate::proofs::KeptTexts::words_in))]
    pub(crate) fn words(&self, alloc: Global) -> Result<Table<Text>, AllocError>
        ensures { IfOk result (λ words. words ≡ self.now) }
    {
        let Ok(value) = Value::from_str(alloc, self.text.as_str()) else {
            return Err(AllocError);
        };
        match words(alloc, Some(&value))? {
            Some(words) => Ok(words),
            None => Err(AllocError),
        }
    }
}
