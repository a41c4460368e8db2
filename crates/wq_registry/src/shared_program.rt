//! Programs that several parts of a server share.
ghost use Rattle.std.specs.Prelude.{◌≡◌, IfOk};

use std::alloc::{AllocError, Global};
use std::sync::Arc;
use wq_verify::StoredProgram;

/// A program that can be shared.
pub(crate) fn share(alloc: Global, program: StoredProgram) -> Result<Arc<StoredProgram>, AllocError>
    ensures { IfOk result (λ shared. shared.value ≡ program) }
{
    match Arc::new(alloc, program) {
        Ok(shared) => Ok(shared),
        Err(_) => Err(AllocError),
    }
}

/// A program as it is kept for long: its file, if it is large and open, and else the one that is there.
pub fn kept_form(
    alloc: Global,
    program: Arc<StoredProgram>,
) -> Result<Arc<StoredProgram>, AllocError>
    ensures { IfOk result (λ kept. kept.value ≡ program.value) }
{
    match program.as_kept(alloc)? {
        Some(kept) => share(alloc, kept),
        None => Ok(program),
    }
}
