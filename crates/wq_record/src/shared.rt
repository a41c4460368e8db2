//! Bytes that several owners share: a part of a block. The names in a directory have one block, so that none of them is
//! an allocation of its own.
ghost use Rattle.std.specs.Prelude.{◌≡◌, ◌≤◌, IfOk, IfSome, IsSome, length, slice_range};
ghost use Rattle.std.specs.Arc.{arc_slice_items};

use std::alloc::{AllocError, Global};
use std::marker::Model;
use std::sync::ArcSlice;

/// Bytes of a block, which stays as long as one of its parts has an owner. They take 16 bytes beside the block.
#[derive(Drop)]
pub struct SharedBytes {
    block: ArcSlice<u8>,
    start: u32,
    end: u32,
    ghost rise: { start ≤ end },
    ghost within: { end ≤ length (arc_slice_items block) },
}

impl Model for SharedBytes {
    ghost use Rattle.std.specs.Prelude.{ℕ, List, slice_range};
    ghost use Rattle.std.specs.Arc.{arc_slice_items};

    ghost Value = { List ℕ };

    ghost view = { λ s. slice_range (arc_slice_items s.block) s.start s.end };
}

impl SharedBytes {
    /// These bytes, in a block of their own. Bytes of 4 GiB or more are refused as if memory were short.
    pub fn from_slice(alloc: Global, bytes: &[u8]) -> Result<SharedBytes, AllocError>
        ensures { IfOk result (λ shared. shared ≡ bytes.now) }
    {
        let end = u32::try_from(bytes.len()).map_err(|_| AllocError)?;
        Ok(SharedBytes {
            block: ArcSlice::from_slice(alloc, bytes)?,
            start: 0,
            end,
        })
    }

    /// The bytes of a block from one place up to another, or nothing if the block does not have them, or has them after
    /// its first 4 GiB.
    pub fn part(
        block: &ArcSlice<u8>,
        start: usize,
        end: usize,
    ) -> Result<Option<SharedBytes>, AllocError>
        ensures part { IfOk result (λ part. IfSome part (λ shared.
            shared ≡ slice_range (arc_slice_items block.now) start end)) }
        ensures there { start ≤ end → end ≤ length (arc_slice_items block.now) → end ≤ 4294967295
            → IfOk result (λ part. IsSome part) }
    {
        let (Ok(start), Ok(end)) = (u32::try_from(start), u32::try_from(end)) else {
            return Ok(None);
        };
        if start > end || end as usize > block.len() {
            return Ok(None);
        }
        let block = block.clone()?;
        Ok(Some(SharedBytes { block, start, end }))
    }

    /// Another owner of the same bytes.
    pub fn copy(&self) -> Result<SharedBytes, AllocError>
        ensures { IfOk result (λ shared. shared ≡ self.now) }
    {
        Ok(SharedBytes {
            block: self.block.clone()?,
            start: self.start,
            end: self.end,
        })
    }

    /// The bytes.
    pub fn as_slice(&self) -> &[u8]
        ensures { result.now ≡ self.now }
    {
        &self.block.as_slice()[self.start as usize..self.end as usize]
    }
}
