//! A list in memory that contracts see as a plain list. So a definition can speak of a type that
//! contains lists.
ghost use Rattle.std.specs.Prelude.{◌≡◌, [], ◌∷◌, ◌++◌, length, OnErr, OnOk};

use std::alloc::{AllocError, Global};
use std::marker::Model;

/// A list of rows. Contracts see the rows alone, and not their places in memory.
#[derive(Debug, Drop)]
pub struct Table<T> {
    rows: Vec<T>,
}

impl<T> Model for Table<T> {
    ghost use Rattle.std.specs.Prelude.{List};

    ghost Value = { List T };

    ghost view = { λ t. t.rows.items };
}

impl<T: Drop> Table<T> {
    /// The table without rows. It takes no memory.
    pub fn new(alloc: Global) -> Table<T>
        ensures { result ≡ [] }
    {
        Table {
            rows: Vec::new(alloc),
        }
    }

    /// Puts a row after the others.
    pub fn push(&mut self, row: T) -> Result<(), AllocError>
        ensures ok { OnOk result (self.new ≡ self.old ++ row ∷ []) }
        ensures err { OnErr result (self.new ≡ self.old) }
    {
        self.rows.push(row)?;
        Ok(())
    }
}

impl<T> Table<T> {
    /// The table of these rows. It takes no memory.
    pub fn from_vec(rows: Vec<T>) -> Table<T>
        ensures { result ≡ rows.items }
    {
        Table { rows }
    }

    /// The rows, given back. It takes no memory.
    pub fn into_vec(self) -> Vec<T>
        ensures { result.items ≡ self }
    {
        self.rows
    }

    /// The rows of the table.
    pub fn as_slice(&self) -> &[T]
        ensures { result.now ≡ self.now }
    {
        self.rows.as_slice()
    }

    /// The number of rows.
    pub fn len(&self) -> usize
        ensures { result ≡ length self.now }
    {
        self.rows.len()
    }
}
