//! The fields of a program file, each read from the front of the bytes that are left and written at
//! their end. Nothing here knows their order.
ghost use Rattle.std.specs.Prelude.{◌≡◌, ◌≤◌, ◌++◌, All, length, IfOk, OnOk, IsTrue};
ghost use Rattle.std.specs.List.{flat_map, list_all};
ghost use Rattle.wq_code.specs.declared.version.Version.TheVariants.{Second};
ghost use Rattle.wq_code.specs.Spelling.{AreBytes, long, short};
ghost use Rattle.wq_code.specs.Reading.{Gives, bytes_at, byte_at, exact_at, end_at, short_at, long_at, wide_at, count_at, many_at};

use crate::fault::FileFault;
use crate::version::Version;
use std::alloc::{AllocError, Global};
use wq_base::Table;

/// A value that has a form of its own in files.
pub(crate) trait Field: Drop + Sized {
    ghost use Rattle.std.specs.Prelude.{◌≡◌, ◌++◌, ℕ, List, Bool, IsTrue, OnOk};
    ghost use Rattle.wq_code.specs.Reading.{Reader, Gives};
    ghost use Rattle.wq_code.specs.declared.version.Version.{Version};
    ghost use Rattle.wq_code.specs.declared.version.Version.TheVariants.{Second};

    /// The reading of it in each version.
    ghost reading: { Version → Reader Self };

    /// The bytes that it is written as in each version.
    ghost spelling: { Version → Self → List ℕ };

    /// It keeps to the limits of each version.
    ghost within: { Version → Self → Bool };

    /// The numbers and bytes of it have room in their fields.
    ghost has_room: { Self → Type 0 };

    /// Reads a value at the front of `bytes`, and gives the rest.
    fn read(alloc: Global, version: Version, bytes: &[u8]) -> Result<(Self, &[u8]), FileFault>
        ensures { Gives (λ x. (x.0, x.1.now)) result (reading version bytes.now) };

    /// Writes the value at the end of `out`, in the second version.
    fn write(&self, out: &mut Vec<u8>) -> Result<(), AllocError>
        requires { IsTrue (within Second self.now) }
        ensures written { OnOk result (out.new.items ≡ out.old.items ++ spelling Second self.now) }
        ensures room { OnOk result (has_room self.now) };

    /// Whether the value keeps to the limits of the second version.
    fn fits(&self) -> bool
        ensures { result ≡ within Second self.now };
}

/// The first `n` bytes and the others.
#[tactic(auto, unfolding(crate::specs::Reading::bytes_at))]
pub(crate) fn bytes_of(n: usize, bytes: &[u8]) -> Result<(&[u8], &[u8]), FileFault>
    ensures read { Gives (λ x. (x.0.now, x.1.now)) result (bytes_at n bytes.now) }
    ensures len { IfOk result (λ x. length x.0.now ≡ n) }
{
    if bytes.len() < n {
        return Err(FileFault::CutShort);
    }
    Ok(bytes.split_at(n))
}

/// The first byte and the others.
pub(crate) fn byte_of(bytes: &[u8]) -> Result<(u8, &[u8]), FileFault>
    ensures { Gives (λ x. (x.0, x.1.now)) result (byte_at bytes.now) }
{
    match bytes {
        [] => Err(FileFault::CutShort),
        [byte, rest @ ..] => Ok((*byte, rest)),
    }
}

/// The bytes after exactly these; the first that differs is this fault.
pub(crate) fn exact_of<'a>(
    fault: FileFault,
    exact: &[u8],
    bytes: &'a [u8],
) -> Result<&'a [u8], FileFault>
    ensures { Gives (λ rest. rest.now) result (exact_at fault exact.now bytes.now) }
{
    let mut left = exact;
    let mut rest = bytes;
    while let [wanted, others @ ..] = left {
        let (byte, after) = byte_of(rest)?;
        if byte != *wanted {
            return Err(fault);
        }
        left = others;
        rest = after;
    }
    Ok(rest)
}

/// Nothing is left.
pub(crate) fn end_of(bytes: &[u8]) -> Result<(), FileFault>
    ensures { Gives (λ _. bytes.now) result (end_at bytes.now) }
{
    if bytes.is_empty() {
        Ok(())
    } else {
        Err(FileFault::BytesAfterEnd)
    }
}

/// A number of two bytes, and the rest.
#[tactic(auto, unfolding(crate::specs::Reading::short_at, crate::specs::Reading::bytes_at))]
pub(crate) fn short_of(bytes: &[u8]) -> Result<(u16, &[u8]), FileFault>
    ensures { Gives (λ x. (x.0, x.1.now)) result (short_at bytes.now) }
{
    if bytes.len() < 2 {
        return Err(FileFault::CutShort);
    }
    let (digits, rest) = bytes.split_at(2);
    Ok((u16::from_be_bytes([digits[0], digits[1]]), rest))
}

/// A number of four bytes, and the rest.
#[tactic(auto, unfolding(crate::specs::Reading::long_at, crate::specs::Reading::bytes_at))]
pub(crate) fn long_of(bytes: &[u8]) -> Result<(u32, &[u8]), FileFault>
    ensures { Gives (λ x. (x.0, x.1.now)) result (long_at bytes.now) }
{
    if bytes.len() < 4 {
        return Err(FileFault::CutShort);
    }
    let (digits, rest) = bytes.split_at(4);
    Ok((
        u32::from_be_bytes([digits[0], digits[1], digits[2], digits[3]]),
        rest,
    ))
}

/// A number as wide as the counts and places of a version, and the rest.
pub(crate) fn wide_of(version: Version, bytes: &[u8]) -> Result<(u32, &[u8]), FileFault>
    ensures { Gives (λ x. (x.0, x.1.now)) result (wide_at version bytes.now) }
{
    match version {
        Version::First => {
            let (number, rest) = short_of(bytes)?;
            Ok((number as u32, rest))
        }
        Version::Second => long_of(bytes),
    }
}

/// A count or a length of at most `limit`, as wide as the counts of a version, and the rest.
#[tactic(auto, unfolding(crate::specs::Reading::count_at))]
pub(crate) fn count_of(
    version: Version,
    limit: usize,
    bytes: &[u8],
) -> Result<(usize, &[u8]), FileFault>
    ensures { Gives (λ x. (x.0, x.1.now)) result (count_at (wide_at version) limit bytes.now) }
{
    let (count, rest) = wide_of(version, bytes)?;
    let count = count as usize;
    if count > limit {
        return Err(FileFault::OverLimit);
    }
    Ok((count, rest))
}

/// So many fields of one form, and the rest.
pub(crate) fn many_of<F: Field>(
    alloc: Global,
    version: Version,
    count: usize,
    bytes: &[u8],
) -> Result<(Table<F>, &[u8]), FileFault>
    ensures { Gives (λ x. (x.0, x.1.now)) result (many_at (F.reading version) count bytes.now) }
{
    let mut rows = Vec::new(alloc);
    let mut rest = bytes;
    for _ in 0..count {
        let (row, after) = F::read(alloc, version, rest)?;
        rows.push(row)?;
        rest = after;
    }
    Ok((Table::from_vec(rows), rest))
}

/// Writes a number of two bytes at the end of `out`.
pub(crate) fn put_short(out: &mut Vec<u8>, n: usize) -> Result<(), AllocError>
    requires { n ≤ 65535 }
    ensures { OnOk result (out.new.items ≡ out.old.items ++ short n) }
{
    out.extend_from_slice(&(n as u16).to_be_bytes())
}

/// Writes a number of four bytes at the end of `out`.
pub(crate) fn put_long(out: &mut Vec<u8>, n: usize) -> Result<(), AllocError>
    requires { n ≤ 4294967295 }
    ensures { OnOk result (out.new.items ≡ out.old.items ++ long n) }
{
    out.extend_from_slice(&(n as u32).to_be_bytes())
}

/// Writes bytes at the end of `out`.
pub(crate) fn put_bytes(out: &mut Vec<u8>, bytes: &[u8]) -> Result<(), AllocError>
    ensures written { OnOk result (out.new.items ≡ out.old.items ++ bytes.now) }
    ensures room { AreBytes bytes.now }
{
    out.extend_from_slice(bytes)
}

/// Writes fields of one form one after the other.
pub(crate) fn put_many<F: Field>(out: &mut Vec<u8>, rows: &[F]) -> Result<(), AllocError>
    requires { IsTrue (list_all (F.within Second) rows.now) }
    ensures written { OnOk result (out.new.items
        ≡ out.old.items ++ flat_map (F.spelling Second) rows.now) }
    ensures room { OnOk result (All F.has_room rows.now) }
{
    for row in rows {
        row.write(out)?;
    }
    Ok(())
}

/// Whether all rows keep to the limits.
pub(crate) fn all_fit<F: Field>(rows: &[F]) -> bool
    ensures { result ≡ list_all (F.within Second) rows.now }
{
    rows.iter().all(|row| row.fits())
}
