//! The kind, size and time that the system gives for one file, as a row of a listing has them. Another module reads the
//! disk.
ghost use Rattle.std.specs.Prelude.{◌≡◌, ◌↔◌, IsTrue};
ghost use Rattle.std.specs.Fs.{file_type};
ghost use Rattle.wq_record.specs.Seen.{is_count, is_time};
ghost use Rattle.wq_record.specs.declared.kind.Kind.TheVariants.{Dir};
ghost use Rattle.wq_disk.specs.FileFacts.{stat_from};
ghost use Rattle.wq_disk.specs.Stat.{kind_of_mode, milliseconds_of, nearest_size};

use crate::facts::FileFacts;
use std::fs::Metadata;
use std::marker::Model;
use wq_base::{MAX_NUMBER, MAX_SIGNED};
use wq_view::Kind;

/// The number of milliseconds in a second.
const MILLISECONDS: i64 = 1000;

/// The number of nanoseconds in a millisecond.
const NANOSECONDS: i64 = 1_000_000;

/// The kind, size and time of a file. The numbers are in the ranges of a listing.
#[derive(Drop)]
pub struct Stat {
    pub kind: Kind,
    /// In bytes.
    pub size: i64,
    /// In milliseconds of the Unix epoch.
    pub mtime_ms: i64,
}

impl Model for Stat {
    ghost use Rattle.std.specs.Prelude.{IsTrue};
    ghost use Rattle.wq_record.specs.Seen.{Stat as StatData, stat_code, is_count, is_time};

    ghost Value = { StatData };

    ghost coded = { stat_code };

    ghost view = { λ s. record { kind = s.kind; size = s.size; mtime_ms = s.mtime_ms } };

    ghost invariant = { λ s. IsTrue (is_count s.size) × IsTrue (is_time s.mtime_ms) };
}

impl Stat {
    /// Whether the file is a directory.
    pub fn is_directory(&self) -> bool
        ensures { IsTrue result ↔ (self.now.kind ≡ Dir) }
    {
        self.kind == Kind::Dir
    }
}

/// The stat of a file for what the system gives. A size or a time out of range becomes the nearest bound.
pub(crate) fn stat_from(facts: &FileFacts) -> Stat
    ensures { result ≡ stat_from facts.now }
{
    Stat {
        kind: kind_of(&facts.metadata),
        size: size_of(facts.metadata.len()),
        mtime_ms: milliseconds(facts.seconds, facts.nanoseconds),
    }
}

/// The kind of a file.
fn kind_of(metadata: &Metadata) -> Kind
    ensures { result ≡ kind_of_mode (file_type metadata.now).bits }
{
    if metadata.is_file() {
        Kind::File
    } else if metadata.is_dir() {
        Kind::Dir
    } else if metadata.is_symlink() {
        Kind::Link
    } else {
        Kind::Unknown
    }
}

/// A size in bytes, within the range of sizes.
fn size_of(len: u64) -> i64
    ensures value { result ≡ nearest_size len }
    ensures range { IsTrue (is_count result) }
{
    len.min(MAX_NUMBER) as i64
}

/// Whole seconds and the nanoseconds after them in milliseconds, rounded down, within the range of times.
fn milliseconds(seconds: i64, nanoseconds: i64) -> i64
    ensures value { result ≡ milliseconds_of seconds nanoseconds }
    ensures range { IsTrue (is_time result) }
{
    seconds
        .saturating_mul(MILLISECONDS)
        .saturating_add(nanoseconds.div_euclid(NANOSECONDS))
        .clamp(-MAX_SIGNED, MAX_SIGNED)
}
