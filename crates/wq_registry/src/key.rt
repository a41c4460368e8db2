//! The keys of the programs that are kept.
ghost use Rattle.std.specs.Prelude.{◌≡◌, Ok, IfOk, IfSome, string_bytes};
ghost use Rattle.serde_json.specs.View.{view as data_of};
ghost use Rattle.wq_clock.specs.Instance.{instance_data};
ghost use Rattle.wq_term.specs.Expr.{ExprData};
ghost use Rattle.wq_term.specs.Limit.{max_depth};
ghost use Rattle.wq_term.specs.Reading.{reads_as};
ghost use Rattle.wq_registry.specs.CacheKey.{Says};
ghost use Rattle.wq_registry.specs.Kept.{CacheData, KeepsMeanings, StandsFor, instance_at};

use crate::cache::Forgotten;
use lru::LruCache;
use serde_json::Value;
use std::alloc::{AllocError, Global};
use std::marker::Model;
use std::sync::Arc;
use wq_clock::Instance;
use wq_term::values_say_what_they_write;
use wq_verify::StoredProgram;

/// The key of an expression among the programs that are kept. It has the instance at which the
/// expression was read, since clock specs in it are read there, and its compact text.
#[derive(Drop)]
pub struct CacheKey {
    pub(crate) start: u64,
    pub(crate) pid: u64,
    pub(crate) key: Key,
}

impl Model for CacheKey {
    ghost use Rattle.std.specs.Prelude.{string_bytes};
    ghost use Rattle.wq_registry.specs.CacheKey.{CacheKeyData};

    ghost Value = { CacheKeyData };

    ghost view = { λ k. record {
      instance = record { start = k.start; pid = k.pid; root = (k.key).root };
      text = string_bytes (k.key).text;
    } };
}

impl CacheKey {
    /// The key of the expression that is read from this value at this instance.
    pub fn new(alloc: Global, instance: &Instance, value: &Value) -> Result<CacheKey, AllocError>
        ensures { IfOk result (λ key. (t : ExprData)
            → reads_as (instance_data instance.now) max_depth (data_of value.now) ≡ Ok t
            → Says key t) }
    {
        CacheKey::of_root(alloc, instance.start, instance.pid, instance.root, value)
    }

    /// The key of the expression that is read from this value at this root of a server that started at this second as
    /// this process.
    pub(crate) fn of_root(
        alloc: Global,
        start: u64,
        pid: u64,
        root: u64,
        value: &Value,
    ) -> Result<CacheKey, AllocError>
        ensures { IfOk result (λ key. (t : ExprData)
            → reads_as (record { start = start; pid = pid; root = root }) max_depth
            (data_of value.now) ≡ Ok t
            → Says key t) }
    {
        values_say_what_they_write();
        Ok(CacheKey {
            start,
            pid,
            key: Key {
                root,
                text: value.to_string(alloc)?,
            },
        })
    }
}

/// The key of an expression's program: the number of the root, at which its clock specs are read,
/// and its compact text.
#[derive(PartialEq, Eq, Hash, Drop)]
pub(crate) struct Key {
    pub(crate) root: u64,
    pub(crate) text: String,
}

/// The program that is kept under a key, which is then the one that was asked for last.
pub(crate) fn look_up(
    kept: &mut LruCache<Key, Arc<StoredProgram>>,
    key: &Key,
) -> Option<Arc<StoredProgram>>
    ensures found { (cache : CacheData) → KeepsMeanings cache kept.old.entries
        → IfSome result (λ program. StandsFor (instance_at cache key.now.root)
        (string_bytes key.now.text) program.value) }
    ensures meanings { (cache : CacheData) → KeepsMeanings cache kept.old.entries
        → KeepsMeanings cache kept.new.entries }
{
    kept.promote(key);
    let program = kept.peek(key)?;
    Arc::try_clone(program).ok()
}

/// Keeps a program under a key. If there are as many as may be, it takes the place of the one that
/// was asked for longest ago. If memory runs out it is not kept. Given is what is not kept then.
pub(crate) fn put(
    kept: &mut LruCache<Key, Arc<StoredProgram>>,
    key: Key,
    program: Arc<StoredProgram>,
) -> Option<Forgotten>
    ensures { (cache : CacheData) → KeepsMeanings cache kept.old.entries
        → StandsFor (instance_at cache key.root) (string_bytes key.text) program.value
        → KeepsMeanings cache kept.new.entries }
{
    let (key, program) = match kept.push(key, program) {
        Ok(pair) => pair?,
        Err(failed) => failed.value,
    };
    Some(Forgotten { key, program })
}
