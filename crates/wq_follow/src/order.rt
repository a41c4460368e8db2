//! How a trigger starts its command.

use crate::command_text::CommandText;
use wq_base::{Table, Text};
use wq_query::Field;

/// The input of a command.
#[derive(Drop)]
pub enum Input {
    /// Nothing.
    Nothing,
    /// Each name with a newline.
    Names,
    /// The files as a JSON list, with these fields of each.
    Objects(Table<Field>),
}

/// How a trigger starts its command.
#[derive(Drop)]
pub struct Order {
    /// The trigger's name.
    pub name: Text,
    /// The text of its root.
    pub root: Text,
    /// The program, and its first arguments.
    pub command: CommandText,
    /// Whether names are appended to them.
    pub appends: bool,
    pub input: Input,
    /// The greatest count of files on the input; none is no limit.
    pub limit: Option<u64>,
}
