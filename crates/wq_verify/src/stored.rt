//! Programs that a server keeps for its clients. A small one is kept open, as it runs. A large one is kept as the bytes of
//! its file, and read again when it is to run: open it takes up to fifty times as many bytes.
ghost use Rattle.std.specs.Prelude.{◌≡◌, IfOk, IfSome, IsTrue};
ghost use Rattle.wq_verify.specs.Stored.{IsProgramFile, program_of_file};
ghost use Rattle.wq_verify.specs.Typing.{IsValid};

use crate::program::{Program, accept};
use crate::same::Same;
use crate::weight::weight_of;
use std::alloc::{AllocError, Global};
use std::marker::Model;
use wq_code::{Table, decode, encode, spellings_are_read_back};

/// How many bytes of memory a program takes at most that is kept open.
pub const MAX_OPEN: usize = 16_384;

/// A program that may run, open or as the bytes of its file. Contracts see the program, whichever form it has.
#[derive(Drop)]
pub struct StoredProgram {
    form: Form,
}

/// The form in which a program is kept.
#[derive(Drop)]
pub(crate) enum Form {
    /// The program itself.
    Open(Program),
    /// The bytes of its file.
    File(Table<u8>),
}

impl Model for StoredProgram {
    ghost use Rattle.wq_code.specs.declared.raw.Raw.{Raw};
    ghost use Rattle.wq_verify.specs.Stored.{HoldsProgram, stored_program};

    ghost Value = { Raw };

    ghost view = { λ s. stored_program s.form };

    ghost invariant = { λ s. HoldsProgram s.form };
}

impl StoredProgram {
    /// A program that stays open, whatever its size: one that is to run now. It takes no memory.
    pub fn running(program: Program) -> StoredProgram
        ensures { result ≡ program }
    {
        StoredProgram {
            form: Form::Open(program),
        }
    }

    /// A program as it is kept: open if it takes at most [`MAX_OPEN`] bytes of memory, or else its file.
    pub fn kept(alloc: Global, program: Program) -> Result<StoredProgram, AllocError>
        ensures { IfOk result (λ stored. stored ≡ program) }
    {
        if weight_of(program.raw()) <= MAX_OPEN {
            return Ok(StoredProgram::running(program));
        }
        StoredProgram::file_of(alloc, &program)
    }

    /// The file of an open program that is too large to be kept open. There is none if the program is small or is kept as
    /// its file already: it may be kept as it is.
    pub fn as_kept(&self, alloc: Global) -> Result<Option<StoredProgram>, AllocError>
        ensures { IfOk result (λ kept. IfSome kept (λ stored. stored ≡ self.now)) }
    {
        match &self.form {
            Form::Open(program) if weight_of(program.raw()) > MAX_OPEN => {
                Ok(Some(StoredProgram::file_of(alloc, program)?))
            }
            _ => Ok(None),
        }
    }

    /// How many bytes of memory the program takes, at most, in the form that it has.
    pub fn weight(&self) -> usize {
        match &self.form {
            Form::Open(program) => weight_of(program.raw()),
            Form::File(bytes) => bytes.len(),
        }
    }

    /// Opens the program for a run. One that is kept as its file is read again, which takes time and memory as it did when
    /// the file came. It was verified then, and is not verified anew.
    pub fn open(&self, alloc: Global) -> Result<Opened<'_>, AllocError>
        ensures { IfOk result (λ opened. opened ≡ self.now) }
    {
        match &self.form {
            Form::Open(program) => Ok(Opened::lent(program)),
            Form::File(bytes) => Ok(Opened::own(read_again(alloc, bytes.as_slice())?)),
        }
    }

    /// A program that is kept may run. Only proofs use this call, which does nothing.
    pub fn may_run(&self)
        ensures { IsValid self.now }
    {
        if let Form::Open(program) = &self.form {
            program.raw();
        }
    }

    /// Whether two programs are equal. Two that are kept in different forms are not compared, so only what follows from a
    /// yes is promised. It takes no memory, and opens nothing.
    pub fn is_same(&self, other: &StoredProgram) -> bool
        ensures { IsTrue result → self.now ≡ other.now }
    {
        match (&self.form, &other.form) {
            (Form::Open(one), Form::Open(other)) => one.raw().is_same(other.raw()),
            (Form::File(one), Form::File(other)) => one.as_slice() == other.as_slice(),
            _ => false,
        }
    }

    /// A program as its file.
    fn file_of(alloc: Global, program: &Program) -> Result<StoredProgram, AllocError>
        ensures { IfOk result (λ stored. stored ≡ program.now) }
    {
        let bytes = program_file(alloc, program)?;
        Ok(StoredProgram {
            form: Form::File(Table::from_vec(bytes)),
        })
    }
}

/// The bytes of a program's file, with no room after them.
#[tactic(auto, using(crate::proofs::KeptFiles::spelled_file))]
fn program_file(alloc: Global, program: &Program) -> Result<Vec<u8>, AllocError>
    ensures file { IfOk result (λ bytes. IsProgramFile bytes.items) }
    ensures program { IfOk result (λ bytes. program_of_file bytes.items ≡ program.now) }
{
    spellings_are_read_back();
    let mut bytes = encode(alloc, program.raw())?;
    bytes.shrink_to_fit();
    Ok(bytes)
}

/// The program of a file that was written of one.
#[tactic(auto, using(crate::proofs::KeptFiles::read_is, crate::proofs::KeptFiles::read_valid))]
fn read_again(alloc: Global, bytes: &[u8]) -> Result<Program, AllocError>
    requires { IsProgramFile bytes.now }
    ensures { IfOk result (λ program. program ≡ program_of_file bytes.now) }
{
    let Ok(raw) = decode(alloc, bytes) else {
        return Err(AllocError);
    };
    match accept(alloc, raw) {
        Ok(program) => Ok(program),
        Err(_) => Err(AllocError),
    }
}

/// A program that is open for a run: one that is kept so, or one that was read again from its file. Contracts see the
/// program.
#[derive(Drop)]
pub struct Opened<'a> {
    form: OpenForm<'a>,
}

/// The owner of an open program.
#[derive(Drop)]
pub(crate) enum OpenForm<'a> {
    /// The one who stored it.
    Lent(&'a Program),
    /// The one who runs it.
    Own(Program),
}

impl<'a> Model for Opened<'a> {
    ghost use Rattle.wq_code.specs.declared.raw.Raw.{Raw};
    ghost use Rattle.wq_verify.specs.Stored.{opened_program};

    ghost Value = { Raw };

    ghost view = { λ o. opened_program o.form };
}

impl<'a> Opened<'a> {
    /// A program that is kept open.
    fn lent(program: &'a Program) -> Opened<'a>
        ensures { result ≡ program.now }
    {
        Opened {
            form: OpenForm::Lent(program),
        }
    }

    /// A program that was read again.
    fn own(program: Program) -> Opened<'a>
        ensures { result ≡ program }
    {
        Opened {
            form: OpenForm::Own(program),
        }
    }

    /// The program.
    pub fn program(&self) -> &Program
        ensures { result.now ≡ self.now }
    {
        match &self.form {
            OpenForm::Lent(program) => program,
            OpenForm::Own(program) => program,
        }
    }
}
