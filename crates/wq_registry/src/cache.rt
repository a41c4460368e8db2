//! The programs of expressions that were compiled before.
ghost use Rattle.std.specs.Prelude.{◌≡◌, ◌≤◌, ◌↔◌, false, IfOk, IfSome, IsErrOf, IsTrue, Ok};
ghost use Rattle.serde_json.specs.View.{view as data_of};
ghost use Rattle.wq_compile.specs.Code.{program_of};
ghost use Rattle.wq_compile.specs.Cost.{most_steps_of};
ghost use Rattle.wq_compile.specs.Large.{is_too_large};
ghost use Rattle.wq_compile.specs.Meaning.{AnswersMeaning};
ghost use Rattle.wq_term.specs.Expr.{term_of};
ghost use Rattle.wq_term.specs.Fits.{expr_fits};
ghost use Rattle.wq_term.specs.Limit.{max_depth};
ghost use Rattle.wq_term.specs.Reading.{reads_as};
ghost use Rattle.wq_verify.specs.Budget.{budget_of};
ghost use Rattle.wq_record.specs.Limit.{max_name};
ghost use Rattle.wq_registry.specs.CacheKey.{Says};
ghost use Rattle.wq_registry.specs.Kept.{StandsFor, instance_at};

use crate::key::{CacheKey, Key, look_up, put};
use crate::shared_program::share;
use lru::LruCache;
use serde_json::Value;
use std::alloc::{AllocError, Global};
use std::marker::Model;
use std::num::NonZeroUsize;
use std::sync::Arc;
use wq_compile::{CompileFault, compile};
use wq_term::{Expr, read_expressions_fit};
use wq_verify::StoredProgram;

/// How many programs are kept.
pub const MAX_KEPT: usize = 256;

/// How many bytes the compact text of an expression may have, so that its program is kept. So the keys take at most 4
/// mebibytes.
pub const MAX_KEPT_TEXT: usize = 16_384;

/// How many bytes of memory a program may take, so that it is kept. Programs are kept open, so all of them take at most 16
/// mebibytes.
pub const MAX_KEPT_PROGRAM: usize = 65_536;

/// Programs of expressions by the number of the root and the compact text of the expression, those
/// that were asked for last. They are of one run of the server, and take at most 20 mebibytes with their keys.
#[derive(Drop)]
pub struct Cache {
    start: u64,
    pid: u64,
    kept: LruCache<Key, Arc<StoredProgram>>,
    alloc: Global,
}

impl Model for Cache {
    ghost use Rattle.wq_registry.specs.Kept.{CacheData, KeepsMeanings};

    ghost Value = { CacheData };

    ghost view = { λ c. record { start = c.start; pid = c.pid } };

    ghost invariant = { λ c.
        KeepsMeanings (record { start = c.start; pid = c.pid }) c.kept.entries };
}

impl Cache {
    /// A cache of a server that started at this second as this process, with no programs.
    pub fn new(alloc: Global, start: u64, pid: u64) -> Result<Cache, AllocError>
        ensures { IfOk result (λ cache. cache ≡ record { start = start; pid = pid }) }
    {
        let kept = LruCache::new(alloc, size())?;
        Ok(Cache {
            start,
            pid,
            kept,
            alloc,
        })
    }

    /// The program that is kept of an expression, which is then the one that was asked for last.
    pub fn get(&mut self, key: &CacheKey) -> Option<Arc<StoredProgram>>
        ensures meaning { IfSome result (λ program.
            StandsFor key.now.instance key.now.text program.value) }
        ensures same { self.new ≡ self.old }
    {
        if !self.is_of(key) {
            return None;
        }
        look_up(&mut self.kept, &key.key)
    }

    /// Keeps a program. If as many are kept as may be, it takes the place of the one that was asked
    /// for longest ago. A program of another run of the server is not kept, nor one whose expression
    /// has over 16,384 bytes, and none is if memory runs out.
    ///
    /// The caller frees what it is given: the program that is kept no longer, or that was not kept.
    pub fn keep(&mut self, compiled: Compiled) -> Option<Forgotten>
        ensures { self.new ≡ self.old }
    {
        if self.is_of(&compiled.key) && compiled.key.key.text.len() <= MAX_KEPT_TEXT {
            return put(&mut self.kept, compiled.key.key, compiled.program);
        }
        Some(Forgotten {
            key: compiled.key.key,
            program: compiled.program,
        })
    }

    /// The program of the expression that is read from this value at the root of this number, in the run of the server
    /// that this cache is of. It is the one that is kept, or one that is compiled now, and then kept.
    ///
    /// # Errors
    /// Those of [`compile_shared`].
    pub fn program(
        &mut self,
        root: u64,
        value: &Value,
        expr: &Expr,
    ) -> Result<Arc<StoredProgram>, CompileFault>
        requires { reads_as (instance_at self.old root) max_depth (data_of value.now)
            ≡ Ok (term_of expr.now) }
        ensures meaning { IfOk result (λ program.
            AnswersMeaning program.value (term_of expr.now)) }
        ensures cost { IfOk result (λ program.
            budget_of program.value max_name ≤ most_steps_of (term_of expr.now)) }
        ensures large { IsErrOf result CompileFault.TooLarge
            ↔ IsTrue (is_too_large (term_of expr.now)) }
        ensures same { self.new ≡ self.old }
    {
        // Only the proof uses the law of this call.
        read_expressions_fit();
        let Ok(key) = CacheKey::of_root(self.alloc, self.start, self.pid, root, value) else {
            return compile_shared(self.alloc, expr);
        };
        if let Some(program) = self.get(&key) {
            return Ok(program);
        }
        let program = compile_shared(self.alloc, expr)?;
        if let Some(compiled) = Compiled::new(key, expr, &program) {
            let _ = self.keep(compiled);
        }
        Ok(program)
    }

    /// Whether an expression was read in the run of the server that this cache is of.
    fn is_of(&self, key: &CacheKey) -> bool
        ensures { IsTrue result → key.now.instance
            ≡ instance_at self.now (key.now.instance).root }
    {
        self.start == key.start && self.pid == key.pid
    }
}

/// How many programs are kept, in the type that the cache takes.
fn size() -> NonZeroUsize {
    match NonZeroUsize::new(MAX_KEPT) {
        Some(size) => size,
        None => NonZeroUsize::MIN,
    }
}

/// A program that a cache keeps no longer, or that it did not keep, with its key. It is there to be freed.
#[derive(Drop)]
pub struct Forgotten {
    pub(crate) key: Key,
    pub(crate) program: Arc<StoredProgram>,
}

/// A program that was compiled of an expression, and that a cache may keep.
#[derive(Drop)]
pub struct Compiled {
    key: CacheKey,
    program: Arc<StoredProgram>,
}

impl Model for Compiled {
    ghost use Rattle.wq_registry.specs.CacheKey.{CompiledData};
    ghost use Rattle.wq_registry.specs.Kept.{StandsFor};

    ghost Value = { CompiledData };

    ghost view = { λ c. record { key = c.key; program = (c.program).value } };

    ghost invariant = { λ c. StandsFor (c.key).instance (c.key).text (c.program).value };
}

impl Compiled {
    /// The entry of a program that a cache may keep: it answers the meaning of this expression, costs
    /// no more than the expression's measure, and this key finds it. There is no entry if the program takes over
    /// [`MAX_KEPT_PROGRAM`] bytes of memory, or cannot be shared.
    pub fn new(key: CacheKey, expr: &Expr, program: &Arc<StoredProgram>) -> Option<Compiled>
        requires says { Says key (term_of expr.now) }
        requires meaning { AnswersMeaning program.now.value (term_of expr.now) }
        requires small { is_too_large (term_of expr.now) ≡ false }
        requires cost { budget_of program.now.value max_name ≤ most_steps_of (term_of expr.now) }
        ensures { IfSome result (λ compiled.
            compiled ≡ record { key = key; program = program.now.value }) }
    {
        if program.weight() > MAX_KEPT_PROGRAM {
            return None;
        }
        let Ok(program) = Arc::try_clone(program) else {
            return None;
        };
        Some(Compiled { key, program })
    }
}

/// The program of an expression, which can be shared. It is open, whatever its size.
///
/// # Errors
/// Those of [`compile`].
pub fn compile_shared(alloc: Global, expr: &Expr) -> Result<Arc<StoredProgram>, CompileFault>
    requires { IsTrue (expr_fits (term_of expr.now)) }

    ensures code { IfOk result (λ program. program.value ≡ program_of (term_of expr.now)) }
    ensures meaning { IfOk result (λ program. AnswersMeaning program.value (term_of expr.now)) }
    ensures cost { IfOk result (λ program.
        budget_of program.value max_name ≤ most_steps_of (term_of expr.now)) }
    ensures large { IsErrOf result CompileFault.TooLarge
        ↔ IsTrue (is_too_large (term_of expr.now)) }
{
    let program = compile(alloc, expr)?;
    Ok(share(alloc, StoredProgram::running(program))?)
}
