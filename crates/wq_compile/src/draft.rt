//! Programs while they are made: instructions are put after those that are there, each with the
//! constant that it names.
ghost use Rattle.std.specs.Prelude.{◌≡◌, length, OnOk};
ghost use Rattle.wq_compile.specs.Draft.{HasRoom};
ghost use Rattle.wq_compile.specs.Instruction.{blank, fitting, number, one_of, plain, put, text};

use std::alloc::{AllocError, Global};
use std::marker::Model;
use wq_base::{Case, Table, TextList};
use wq_code::{Op, Raw};
use wq_glob::Pattern;

/// A program while it is made. Contracts see its tables.
#[derive(Drop)]
pub(crate) struct Draft {
    raw: Raw,
}

impl Model for Draft {
    ghost use Rattle.wq_code.specs.declared.raw.Raw.{Raw};
    ghost use Rattle.wq_compile.specs.Draft.{HasFewConstants};

    ghost Value = { Raw };

    ghost view = { λ d. d.raw };

    ghost invariant = { λ d. HasFewConstants d.raw };
}

impl Draft {
    /// A program without instructions.
    pub(crate) fn new(alloc: Global) -> Draft
        ensures { result ≡ blank }
    {
        let raw = Raw {
            nums: Table::new(alloc),
            texts: Table::new(alloc),
            lists: Table::new(alloc),
            patterns: Table::new(alloc),
            sets: Table::new(alloc),
            code: Table::new(alloc),
        };
        Draft { raw }
    }

    /// The program that was made.
    pub(crate) fn into_raw(self) -> Raw
        ensures { result ≡ self }
    {
        self.raw
    }

    /// How many instructions there are.
    pub(crate) fn len(&self) -> usize
        ensures { result ≡ length self.now.code }
    {
        self.raw.code.len()
    }

    /// Puts an instruction that names no constant.
    pub(crate) fn put(&mut self, op: Op) -> Result<(), AllocError>
        ensures { OnOk result (self.new ≡ put (plain op) self.old) }
    {
        self.raw.code.push(op)
    }

    /// Puts `num`.
    pub(crate) fn put_number(&mut self, n: i64) -> Result<(), AllocError>
        requires { HasRoom 0 self.old }
        ensures { OnOk result (self.new ≡ put (number n) self.old) }
    {
        let place = self.raw.nums.len() as u32;
        self.raw.code.push(Op::Number(place))?;
        self.raw.nums.push(n)
    }

    /// Puts `text`.
    pub(crate) fn put_text(&mut self, bytes: Table<u8>) -> Result<(), AllocError>
        requires { HasRoom 0 self.old }
        ensures { OnOk result (self.new ≡ put (text bytes) self.old) }
    {
        let place = self.raw.texts.len() as u32;
        self.raw.code.push(Op::Text(place))?;
        self.raw.texts.push(bytes)
    }

    /// Puts `oneof`.
    pub(crate) fn put_list(&mut self, case: Case, entries: TextList) -> Result<(), AllocError>
        requires { HasRoom 0 self.old }
        ensures { OnOk result (self.new ≡ put (one_of case entries) self.old) }
    {
        let place = self.raw.lists.len() as u32;
        self.raw.code.push(Op::OneOf(case, place))?;
        self.raw.lists.push(entries)
    }

    /// Puts `match`.
    pub(crate) fn put_pattern(&mut self, pattern: Pattern) -> Result<(), AllocError>
        requires { HasRoom 0 self.old }
        ensures { OnOk result (self.new ≡ put (fitting pattern) self.old) }
    {
        let place = self.raw.patterns.len() as u32;
        self.raw.code.push(Op::Match(place))?;
        self.raw.patterns.push(pattern)
    }
}
