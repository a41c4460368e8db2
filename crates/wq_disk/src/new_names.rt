//! The names in a directory that no view has yet: parts of one block, so that none is an allocation of its own.
//! `Names::block_from` makes the block.
ghost use Rattle.std.specs.Prelude.{◌≡◌, IfOk, IfSome};

use std::alloc::AllocError;
use std::sync::ArcSlice;
use wq_view::SharedBytes;

/// The greatest number of bytes of a block, if it has more than one name.
pub(crate) const MOST_SHARED: usize = 65_536;

/// A block of names one after the other. The walk takes them in this order.
#[derive(Drop)]
pub(crate) struct NewNames {
    block: Option<ArcSlice<u8>>,
    /// The place of the next name in the block.
    next: usize,
}

impl NewNames {
    /// No names. It takes no memory.
    pub(crate) fn none() -> NewNames {
        NewNames {
            block: None,
            next: 0,
        }
    }

    /// The names of this block.
    pub(crate) fn of(block: ArcSlice<u8>) -> NewNames {
        NewNames {
            block: Some(block),
            next: 0,
        }
    }

    /// Takes the next bytes of the block, if they are this name.
    pub(crate) fn take(&mut self, name: &[u8]) -> Result<Option<SharedBytes>, AllocError>
        ensures { IfOk result (λ taken. IfSome taken (λ bytes. bytes ≡ name.now)) }
    {
        let Some(block) = &self.block else {
            return Ok(None);
        };
        let end = self.next.saturating_add(name.len());
        match SharedBytes::part(block, self.next, end)? {
            Some(bytes) if bytes.as_slice() == name => {
                self.next = end;
                Ok(Some(bytes))
            }
            _ => Ok(None),
        }
    }
}
