//! A program file whole: the order of its fields, read and written.
ghost use Rattle.std.specs.Prelude.{◌≡◌, IsTrue, IfOk};
ghost use Rattle.wq_code.specs.Fits.{raw_fits};
ghost use Rattle.wq_code.specs.Reading.{Gives};
ghost use Rattle.wq_code.specs.File.{head_at, rows_at, counts_at, tables_at, raw_at, file_at};
ghost use Rattle.wq_code.specs.First.{FirstRaw, first_file_at, migrate};
ghost use Rattle.wq_code.specs.Spelling.{FitsFields, IsSpelling, spelling};
ghost use Rattle.wq_code.specs.declared.raw.Raw.{Raw};
ghost use Rattle.wq_code.specs.declared.version.Version.TheVariants.{First, Second};

use crate::fault::FileFault;
use crate::field::{byte_of, count_of, end_of, exact_of, many_of, put_long, put_many};
use crate::raw::Raw;
use crate::version::Version;
use std::alloc::{AllocError, Global};

/// How many rows the tables of a file have.
#[derive(Clone, Copy)]
pub(crate) struct Counts {
    nums: usize,
    texts: usize,
    lists: usize,
    patterns: usize,
    sets: usize,
    code: usize,
}

/// The version after the magic, and the rest.
#[tactic(auto, unfolding(crate::specs::File::head_at))]
fn head_of(bytes: &[u8]) -> Result<(Version, &[u8]), FileFault>
    ensures { Gives (λ x. (x.0, x.1.now)) result (head_at bytes.now) }
{
    let rest = exact_of(FileFault::WrongMagic, b"WQPF", bytes)?;
    let (code, rest) = byte_of(rest)?;
    match code {
        1 => Ok((Version::First, rest)),
        2 => Ok((Version::Second, rest)),
        _ => Err(FileFault::OtherVersion),
    }
}

/// The count of the rows of a table, and the rest.
fn rows_of(version: Version, bytes: &[u8]) -> Result<(usize, &[u8]), FileFault>
    ensures { Gives (λ x. (x.0, x.1.now)) result (rows_at version bytes.now) }
{
    count_of(version, version.max_table_rows(), bytes)
}

/// The counts of the tables' rows, and the rest.
fn counts_of(version: Version, bytes: &[u8]) -> Result<(Counts, &[u8]), FileFault>
    ensures { Gives (λ x. (x.0, x.1.now)) result (counts_at version bytes.now) }
{
    // Each version has a function of its own, which knows at each count how wide it is.
    match version {
        Version::First => first_counts_of(bytes),
        Version::Second => second_counts_of(bytes),
    }
}

/// The counts in the first version, which has no sets, and the rest.
#[tactic(auto, unfolding(crate::specs::File::counts_at))]
fn first_counts_of(bytes: &[u8]) -> Result<(Counts, &[u8]), FileFault>
    ensures { Gives (λ x. (x.0, x.1.now)) result (counts_at First bytes.now) }
{
    let (nums, rest) = rows_of(Version::First, bytes)?;
    let (texts, rest) = rows_of(Version::First, rest)?;
    let (lists, rest) = rows_of(Version::First, rest)?;
    let (patterns, rest) = rows_of(Version::First, rest)?;
    let (code, rest) = rows_of(Version::First, rest)?;
    let counts = Counts {
        nums,
        texts,
        lists,
        patterns,
        sets: 0,
        code,
    };
    Ok((counts, rest))
}

/// The counts in the second version, and the rest.
#[tactic(auto, unfolding(crate::specs::File::counts_at))]
fn second_counts_of(bytes: &[u8]) -> Result<(Counts, &[u8]), FileFault>
    ensures { Gives (λ x. (x.0, x.1.now)) result (counts_at Second bytes.now) }
{
    let (nums, rest) = rows_of(Version::Second, bytes)?;
    let (texts, rest) = rows_of(Version::Second, rest)?;
    let (lists, rest) = rows_of(Version::Second, rest)?;
    let (patterns, rest) = rows_of(Version::Second, rest)?;
    let (sets, rest) = rows_of(Version::Second, rest)?;
    let (code, rest) = rows_of(Version::Second, rest)?;
    let counts = Counts {
        nums,
        texts,
        lists,
        patterns,
        sets,
        code,
    };
    Ok((counts, rest))
}

/// The tables, with so many rows, and the rest.
#[tactic(auto, unfolding(crate::specs::File::tables_at))]
fn tables_of(
    alloc: Global,
    version: Version,
    counts: Counts,
    bytes: &[u8],
) -> Result<(Raw, &[u8]), FileFault>
    ensures { Gives (λ x. (x.0, x.1.now)) result (tables_at version counts bytes.now) }
{
    let (nums, rest) = many_of(alloc, version, counts.nums, bytes)?;
    let (texts, rest) = many_of(alloc, version, counts.texts, rest)?;
    let (lists, rest) = many_of(alloc, version, counts.lists, rest)?;
    let (patterns, rest) = many_of(alloc, version, counts.patterns, rest)?;
    let (sets, rest) = many_of(alloc, version, counts.sets, rest)?;
    let (code, rest) = many_of(alloc, version, counts.code, rest)?;
    let raw = Raw {
        nums,
        texts,
        lists,
        patterns,
        sets,
        code,
    };
    Ok((raw, rest))
}

/// The program at the front of `bytes`, and the rest.
#[tactic(auto, unfolding(crate::specs::File::raw_at))]
fn raw_of(alloc: Global, bytes: &[u8]) -> Result<(Raw, &[u8]), FileFault>
    ensures { Gives (λ x. (x.0, x.1.now)) result (raw_at bytes.now) }
{
    let (version, rest) = head_of(bytes)?;
    let (counts, rest) = counts_of(version, rest)?;
    tables_of(alloc, version, counts, rest)
}

/// The program of a whole file, if memory suffices.
#[tactic(auto, unfolding(crate::specs::File::file_at))]
fn file_of(alloc: Global, bytes: &[u8]) -> Result<Raw, FileFault>
    ensures { Gives (λ raw. raw) result (file_at bytes.now) }
{
    let (raw, rest) = raw_of(alloc, bytes)?;
    end_of(rest)?;
    Ok(raw)
}

/// Reads a program file, in one pass over its bytes.
///
/// ```text
/// 57 51 50 46 01   00 00 00 00 00 00 00 00 00 02   01 01 00 00   23 00 00 00
/// WQPF, version 1; no constants, two instructions; flag 1; ret
/// 57 51 50 46 02   00 00 00 00 (five times)   00 00 00 02   01 01 00 00 00 00   23 00 00 00 00 00
/// WQPF, version 2; the same program
/// ```
///
/// # Errors
/// The first field that is cut short or unlawful, in the order of the file; or the bytes
/// after its end. [`FileFault::NoMemory`] if a growth was refused.
pub fn decode(alloc: Global, bytes: &[u8]) -> Result<Raw, FileFault>
    // The raw that is read is spelled so.
    ensures found { IfOk result (λ raw. IsSpelling raw bytes.now) }
    // It keeps to the limits of a file that is written.
    ensures fits { IfOk result (λ raw. IsTrue (raw_fits raw)) }
    // A raw that is spelled so is read, unless memory runs out.
    ensures only { (raw : Raw) → IsSpelling raw bytes.now → Gives (λ read. read) result (Ok raw) }
    // A file that was one while there was one version holds the same program.
    ensures stays { (raw : FirstRaw) → first_file_at bytes.now ≡ Ok raw
        → Gives (λ read. read) result (Ok (migrate raw)) }
    // Which fault it is.
    ensures exact { Gives (λ raw. raw) result (file_at bytes.now) }
{
    file_of(alloc, bytes)
}

/// The one file of a program that fits, in the second version.
pub fn encode(alloc: Global, raw: &Raw) -> Result<Vec<u8>, AllocError>
    requires { IsTrue (raw_fits raw.now) }
    ensures written { IfOk result (λ bytes. bytes.items ≡ spelling raw.now) }
    // So the program is read back: its numbers and bytes have room in their fields.
    ensures spelled { IfOk result (λ bytes. IsSpelling raw.now bytes.items) }
{
    let bytes = file_bytes(alloc, raw)?;
    Ok(bytes)
}

/// The bytes of a program that fits. Each of its numbers and bytes has room in its field.
#[tactic(auto, unfolding(crate::specs::Spelling::spelling_in))]
fn file_bytes(alloc: Global, raw: &Raw) -> Result<Vec<u8>, AllocError>
    requires { IsTrue (raw_fits raw.now) }
    ensures written { IfOk result (λ bytes. bytes.items ≡ spelling raw.now) }
    ensures room { IfOk result (λ _. FitsFields raw.now) }
{
    let mut out = Vec::new(alloc);
    out.extend_from_slice(b"WQPF")?;
    out.push(2)?;
    put_long(&mut out, raw.nums.len())?;
    put_long(&mut out, raw.texts.len())?;
    put_long(&mut out, raw.lists.len())?;
    put_long(&mut out, raw.patterns.len())?;
    put_long(&mut out, raw.sets.len())?;
    put_long(&mut out, raw.code.len())?;
    put_many(&mut out, raw.nums.as_slice())?;
    put_many(&mut out, raw.texts.as_slice())?;
    put_many(&mut out, raw.lists.as_slice())?;
    put_many(&mut out, raw.patterns.as_slice())?;
    put_many(&mut out, raw.sets.as_slice())?;
    put_many(&mut out, raw.code.as_slice())?;
    Ok(out)
}
