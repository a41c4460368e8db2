//! The rows of a program file's tables: how each is read and written, and its limits.
ghost use Rattle.std.specs.Prelude.{◌≡◌};
ghost use Rattle.wq_code.specs.Reading.{Gives, flags_in, entries_at};
ghost use Rattle.wq_code.specs.Spelling.{flags_byte};

use crate::fault::FileFault;
use crate::field::{
    Field, all_fit, byte_of, bytes_of, count_of, many_of, put_bytes, put_long, put_many, put_short,
    short_of, wide_of,
};
use crate::limit::{MAX_CONSTANT_TEXT, MAX_ENTRIES};
use crate::operation::Op;
use crate::version::Version;
use crate::word::{op_of_byte, with_a, with_b};
use std::alloc::{AllocError, Global};
use wq_base::{Table, TextList};
use wq_glob::{Flags, MAX_PATTERN, Pattern, PatternFault};

impl Field for i64 {
    ghost use Rattle.wq_code.specs.Reading.{number_at};
    ghost use Rattle.wq_code.specs.Spelling.{number};
    ghost use Rattle.wq_code.specs.Fits.{is_any};
    ghost use Rattle.wq_code.specs.Spelling.{HasRoomNumber};

    ghost reading = { λ _. number_at };

    ghost spelling = { λ _. number };

    ghost within = { λ _. is_any };

    ghost has_room = { HasRoomNumber };

    #[tactic(auto, unfolding(crate::specs::Reading::number_at, crate::specs::Reading::bytes_at))]
    fn read(_alloc: Global, _version: Version, bytes: &[u8]) -> Result<(i64, &[u8]), FileFault> {
        if bytes.len() < 8 {
            return Err(FileFault::CutShort);
        }
        let (digits, rest) = bytes.split_at(8);
        let number = i64::from_be_bytes([
            digits[0], digits[1], digits[2], digits[3], digits[4], digits[5], digits[6], digits[7],
        ]);
        Ok((number, rest))
    }

    fn write(&self, out: &mut Vec<u8>) -> Result<(), AllocError> {
        out.extend_from_slice(&self.to_be_bytes())
    }

    fn fits(&self) -> bool {
        true
    }
}

impl Field for Table<u8> {
    ghost use Rattle.wq_code.specs.Reading.{text_at};
    ghost use Rattle.wq_code.specs.Spelling.{text};
    ghost use Rattle.wq_code.specs.Fits.{is_short_text};
    ghost use Rattle.wq_code.specs.Spelling.{AreBytes};

    ghost reading = { λ _. text_at };

    ghost spelling = { λ _. text };

    ghost within = { λ _. is_short_text };

    ghost has_room = { AreBytes };

    #[tactic(auto, unfolding(crate::specs::Reading::text_at))]
    fn read(
        alloc: Global,
        _version: Version,
        bytes: &[u8],
    ) -> Result<(Table<u8>, &[u8]), FileFault> {
        let (len, rest) = count_of(Version::First, MAX_CONSTANT_TEXT, bytes)?;
        let (text, rest) = bytes_of(len, rest)?;
        Ok((Table::from_vec(Vec::from_slice(alloc, text)?), rest))
    }

    fn write(&self, out: &mut Vec<u8>) -> Result<(), AllocError> {
        put_short(out, self.len())?;
        put_bytes(out, self.as_slice())
    }

    fn fits(&self) -> bool {
        self.len() <= MAX_CONSTANT_TEXT
    }
}

impl Field for TextList {
    ghost use Rattle.wq_code.specs.Reading.{list_at};
    ghost use Rattle.wq_code.specs.Spelling.{entries};
    ghost use Rattle.wq_code.specs.Fits.{is_list};
    ghost use Rattle.std.specs.Prelude.{All};
    ghost use Rattle.wq_code.specs.Spelling.{AreBytes};

    ghost reading = { list_at };

    ghost spelling = { entries };

    ghost within = { is_list };

    ghost has_room = { All AreBytes };

    #[tactic(auto, unfolding(crate::specs::Reading::list_at))]
    fn read(alloc: Global, version: Version, bytes: &[u8]) -> Result<(TextList, &[u8]), FileFault> {
        let (count, rest) = entries_of(version, bytes)?;
        let (texts, rest) = many_of(alloc, version, count, rest)?;
        Ok((TextList::new(alloc, texts)?, rest))
    }

    fn write(&self, out: &mut Vec<u8>) -> Result<(), AllocError> {
        put_long(out, self.len())?;
        put_many(out, self.texts())
    }

    fn fits(&self) -> bool {
        self.len() <= MAX_ENTRIES && all_fit(self.texts())
    }
}

/// The count of the entries of a list, and the rest.
fn entries_of(version: Version, bytes: &[u8]) -> Result<(usize, &[u8]), FileFault>
    ensures { Gives (λ x. (x.0, x.1.now)) result (entries_at version bytes.now) }
{
    match version {
        Version::First => {
            let (count, rest) = short_of(bytes)?;
            Ok((count as usize, rest))
        }
        Version::Second => count_of(Version::Second, MAX_ENTRIES, bytes),
    }
}

impl Field for Table<Pattern> {
    ghost use Rattle.wq_code.specs.Reading.{set_at};
    ghost use Rattle.wq_code.specs.Spelling.{set};
    ghost use Rattle.wq_code.specs.Fits.{is_pattern_set};
    ghost use Rattle.std.specs.Prelude.{All};
    ghost use Rattle.wq_code.specs.Spelling.{HasRoomPattern};

    ghost reading = { λ _. set_at };

    ghost spelling = { λ _. set };

    ghost within = { λ _. is_pattern_set };

    ghost has_room = { All HasRoomPattern };

    #[tactic(auto, unfolding(crate::specs::Reading::set_at))]
    fn read(
        alloc: Global,
        _version: Version,
        bytes: &[u8],
    ) -> Result<(Table<Pattern>, &[u8]), FileFault> {
        let (count, rest) = count_of(Version::Second, MAX_ENTRIES, bytes)?;
        many_of(alloc, Version::Second, count, rest)
    }

    fn write(&self, out: &mut Vec<u8>) -> Result<(), AllocError> {
        put_long(out, self.len())?;
        put_many(out, self.as_slice())
    }

    fn fits(&self) -> bool {
        self.len() <= MAX_ENTRIES && all_fit(self.as_slice())
    }
}

impl Field for Pattern {
    ghost use Rattle.wq_code.specs.Reading.{pattern_at};
    ghost use Rattle.wq_code.specs.Spelling.{pattern};
    ghost use Rattle.wq_code.specs.Fits.{is_pattern};
    ghost use Rattle.wq_code.specs.Spelling.{HasRoomPattern};

    ghost reading = { λ _. pattern_at };

    ghost spelling = { λ _. pattern };

    ghost within = { λ _. is_pattern };

    ghost has_room = { HasRoomPattern };

    #[tactic(auto, unfolding(crate::specs::Reading::pattern_at))]
    fn read(alloc: Global, _version: Version, bytes: &[u8]) -> Result<(Pattern, &[u8]), FileFault> {
        let (bits, rest) = byte_of(bytes)?;
        if bits >= 16 {
            return Err(FileFault::BadOperand);
        }
        let (len, rest) = byte_of(rest)?;
        let (text, rest) = bytes_of(len as usize, rest)?;
        match Pattern::parse(alloc, text, flags_of_bits(bits)) {
            Ok(pattern) => Ok((pattern, rest)),
            Err(PatternFault::NoMemory) => Err(FileFault::NoMemory),
            Err(PatternFault::TooLong) => unreachable!(),
        }
    }

    fn write(&self, out: &mut Vec<u8>) -> Result<(), AllocError> {
        let text = self.text();
        out.push(bits_of_flags(self.flags()))?;
        out.push(text.len() as u8)?;
        put_bytes(out, text)
    }

    fn fits(&self) -> bool {
        self.text().len() <= MAX_PATTERN
    }
}

/// The flags of a pattern as the lowest four bits of a byte.
fn bits_of_flags(flags: Flags) -> u8
    ensures { result ≡ flags_byte flags }
{
    flags.wholename as u8
        + 2 * (flags.dotfiles as u8)
        + 4 * (flags.noescape as u8)
        + 8 * (flags.fold as u8)
}

/// The flags of a pattern from the lowest four bits of a byte.
fn flags_of_bits(bits: u8) -> Flags
    ensures { result ≡ flags_in bits }
{
    Flags {
        wholename: bits & 1 != 0,
        dotfiles: bits & 2 != 0,
        noescape: bits & 4 != 0,
        fold: bits & 8 != 0,
    }
}

impl Field for Op {
    ghost use Rattle.wq_code.specs.Reading.{op_at};
    ghost use Rattle.wq_code.specs.Spelling.{instruction};
    ghost use Rattle.wq_code.specs.Fits.{is_op};
    ghost use Rattle.wq_code.specs.Spelling.{HasRoomOp};

    ghost reading = { op_at };

    ghost spelling = { instruction };

    ghost within = { is_op };

    ghost has_room = { HasRoomOp };

    #[tactic(auto, unfolding(crate::specs::Reading::op_at))]
    fn read(_alloc: Global, version: Version, bytes: &[u8]) -> Result<(Op, &[u8]), FileFault> {
        let (code, rest) = byte_of(bytes)?;
        let op = op_of_byte(version, code).ok_or(FileFault::UnknownOperation)?;
        let (a, rest) = byte_of(rest)?;
        let op = with_a(op, a).ok_or(FileFault::BadOperand)?;
        // Each version has a call of its own, which knows how wide the number is.
        let (b, rest) = match version {
            Version::First => wide_of(Version::First, rest)?,
            Version::Second => wide_of(Version::Second, rest)?,
        };
        let op = with_b(op, b).ok_or(FileFault::BadOperand)?;
        Ok((op, rest))
    }

    fn write(&self, out: &mut Vec<u8>) -> Result<(), AllocError> {
        let word = self.word();
        out.push(word.op)?;
        out.push(word.a)?;
        out.extend_from_slice(&word.b.to_be_bytes())
    }

    fn fits(&self) -> bool {
        true
    }
}
