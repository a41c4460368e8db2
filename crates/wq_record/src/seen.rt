//! One file as a pass sees it.
ghost use Rattle.std.specs.Prelude.{◌≡◌};
ghost use Rattle.wq_record.specs.Seen.{is_count, is_lawful_row, is_time};

use crate::kind::Kind;
use crate::name::is_valid_name;
use crate::shared::SharedBytes;
use std::marker::Model;
use wq_base::MAX_SIGNED;

/// One row of a listing, as a walker saw it. Nothing in it is tested yet.
#[derive(Drop)]
pub struct Seen {
    /// The path below the root. A pass and a view share these bytes.
    pub name: SharedBytes,
    pub kind: Kind,
    /// In bytes.
    pub size: i64,
    /// The modification time, in milliseconds of the Unix epoch.
    pub mtime_ms: i64,
}

impl Model for Seen {
    ghost use Rattle.wq_record.specs.Seen.{SeenData};

    ghost Value = { SeenData };

    ghost view = { λ s.
        record { name = s.name; kind = s.kind; size = s.size; mtime_ms = s.mtime_ms } };
}

impl Seen {
    /// Whether the row is without a fault of its own.
    pub fn is_lawful(&self) -> bool
        ensures { result ≡ is_lawful_row self.now }
    {
        is_valid_name(self.name.as_slice()) && is_count(self.size) && is_time(self.mtime_ms)
    }
}

/// Whether a size or a second is from 0 to 2^62.
pub fn is_count(value: i64) -> bool
    ensures { result ≡ is_count value }
{
    0 <= value && value <= MAX_SIGNED
}

/// Whether a time is from -2^62 to 2^62.
fn is_time(value: i64) -> bool
    ensures { result ≡ is_time value }
{
    -MAX_SIGNED <= value && value <= MAX_SIGNED
}
