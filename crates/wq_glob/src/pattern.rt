//! Patterns: a text with flags, read once and then tried on paths. `reading` reads it, and
//! `matching` tries it. The caller chooses the paths, and whether their last part or the whole is
//! tried.
ghost use Rattle.std.specs.Prelude.{◌≡◌, ◌<◌, ◌≤◌, ◌↔◌, ◌+◌, ◌*◌, IfOk, IsTrue, length, IsErrOf};
ghost use Rattle.wq_glob.specs.Pattern.{atoms_of, cells_of, fits, Fits};
ghost use Rattle.wq_glob.specs.Limit.{max_pattern_length, max_matched_text};

use crate::flag::Flags;
use crate::limit::MAX_PATTERN;
use crate::matcher::{Hit, fits_of, hit_of};
use crate::parser::read_steps;
use crate::rules::Rules;
use crate::step::{Step, least_of};
use std::alloc::{AllocError, Global};
use std::marker::Model;
use thiserror::Error;

/// Why a text is no pattern.
#[derive(Clone, Copy, Debug, PartialEq, Eq, Error)]
pub enum PatternFault {
    /// The text has more than [`MAX_PATTERN`] bytes.
    #[error("pattern too long")]
    TooLong,
    /// A growth was refused.
    #[error("no memory")]
    NoMemory,
}

impl From<AllocError> for PatternFault {
    ghost use Rattle.std.specs.Prelude.{◌≡◌};
    ghost use Rattle.wq_glob.specs.declared.pattern.PatternFault.TheVariants.{NoMemory};

    ghost from_gives = { λ _ fault. fault ≡ NoMemory };

    fn from(_refused: AllocError) -> PatternFault {
        PatternFault::NoMemory
    }
}

/// A pattern of wildmatch. Contracts see its text and its flags, and two patterns are equal if
/// these are.
#[derive(Debug, Drop)]
pub struct Pattern {
    text: Vec<u8>,
    rules: Rules,
    steps: Vec<Step>,
    // How many bytes a text has at least that the pattern fits.
    least: u8,
}

impl Model for Pattern {
    ghost use Rattle.wq_glob.specs.Pattern.{PatternData};
    ghost use Rattle.wq_glob.specs.Least.{least_of};
    ghost use Rattle.wq_glob.specs.Step.{IsCompiled};
    ghost use Rattle.std.specs.Prelude.{◌≡◌};

    ghost Value = { PatternData };

    ghost view = { λ p. record { text = p.text.items; flags = p.rules.flags } };

    ghost invariant = { λ p. IsCompiled p.text.items p.rules p.steps.items
        × (p.least ≡ least_of p.steps.items) };
}

impl Clone for Pattern {
    ghost use Rattle.std.specs.Prelude.{◌≡◌};

    ghost is_clone = { λ p q. q ≡ p };

    fn clone(&self) -> Result<Pattern, AllocError> {
        Ok(Pattern {
            text: self.text.clone()?,
            rules: self.rules.clone()?,
            steps: self.steps.clone()?,
            least: self.least,
        })
    }
}

impl PartialEq for Pattern {
    ghost use Rattle.std.specs.Cmp.{partial_equiv_from_equiv};
    ghost use Rattle.std.specs.Prelude.{◌≡◌, ◌↔◌, IsTrue};
    ghost use Rattle.wq_glob.specs.Pattern.{same_pattern, same_pattern_equiv};

    ghost eq = { same_pattern };

    ghost laws = { partial_equiv_from_equiv same_pattern_equiv };

    /// Two patterns are equal if their texts and their flags are.
    fn eq(&self, other: &Pattern) -> bool
        ensures value { result ≡ same_pattern self.now other.now }
        ensures same { IsTrue result ↔ (self.now ≡ other.now) }
    {
        self.rules.flags == other.rules.flags && self.text.as_slice() == other.text.as_slice()
    }
}

impl Eq for Pattern {
    ghost use Rattle.wq_glob.specs.Pattern.{same_pattern_equiv};

    ghost laws = { same_pattern_equiv };
}

impl Pattern {
    /// Reads a pattern. Every text of at most [`MAX_PATTERN`] bytes is one: a malformed one, as
    /// `[a`, fits nothing.
    ///
    /// # Errors
    /// [`PatternFault::TooLong`] exactly if the text is longer, [`PatternFault::NoMemory`] if
    /// memory ran out.
    pub fn parse(alloc: Global, text: &[u8], flags: Flags) -> Result<Pattern, PatternFault>
        ensures read { IfOk result
            (λ pattern. pattern ≡ record { text = text.now; flags = flags }) }
        ensures long { IsErrOf result PatternFault.TooLong
            ↔ (max_pattern_length < length text.now) }
    {
        if text.len() > MAX_PATTERN {
            return Err(PatternFault::TooLong);
        }
        let compiled = read_steps(alloc, text, flags)?;
        let text = Vec::from_slice(alloc, text)?;
        // At most one for each byte of the pattern.
        let least = least_of(compiled.steps.as_slice()) as u8;
        Ok(Pattern {
            text,
            rules: compiled.rules,
            steps: compiled.steps,
            least,
        })
    }

    /// The text that the pattern was read from.
    pub fn text(&self) -> &[u8]
        ensures value { result.now ≡ self.now.text }
        ensures short { length result.now ≤ max_pattern_length }
    {
        self.text.as_slice()
    }

    /// The flags that the pattern was read with.
    pub fn flags(&self) -> Flags
        ensures { result ≡ self.now.flags }
    {
        self.rules.flags
    }

    /// How many atoms the pattern has: literals, `?`, classes, `*`, `**/` and a last `**` count one
    /// each.
    pub fn atoms(&self) -> usize
        ensures count { result ≡ length (atoms_of self.now) }
        ensures few { result ≤ max_pattern_length }
    {
        self.steps.len()
    }

    /// Whether the pattern fits a text of at most
    /// [`MAX_MATCHED_TEXT`](crate::limit::MAX_MATCHED_TEXT) bytes, and the cost of the answer.
    ///
    /// It fits if some cut of the text gives every atom, from left to right, a part that it
    /// takes. The cost is how many cells of the table of atoms and places the definition `cells_of`
    /// counts. For m atoms and t bytes that is at most (m + 1)(t + 1), whatever the pattern. It
    /// takes no memory.
    ///
    /// ```text
    /// src/**/*.c   with wholename fits src/a.c and src/x/y/a.c, and not src/.x/a.c
    /// ```
    #[inline(always)]
    pub fn matches(&self, text: &[u8]) -> Hit
        requires { length text.now ≤ max_matched_text }

        ensures test { result.yes ≡ fits self.now text.now }
        ensures cuts { IsTrue result.yes ↔ Fits self.now text.now }

        ensures cells { result.cells ≡ cells_of self.now text.now }
        ensures bounded { result.cells
            ≤ (length (atoms_of self.now) + 1) * (length text.now + 1) }
        // A yes costs a cell for each byte at least, and no answer comes for nothing.
        ensures counted { IsTrue result.yes → length text.now + 1 ≤ result.cells }
        ensures looked { 1 ≤ result.cells }
    {
        hit_of(self.steps.as_slice(), text, &self.rules)
    }

    /// Whether the pattern fits a text of at most
    /// [`MAX_MATCHED_TEXT`](crate::limit::MAX_MATCHED_TEXT) bytes: the `yes` of
    /// [`matches`](Pattern::matches), which counts no cells and is mostly found much sooner.
    #[inline(always)]
    pub fn fits(&self, text: &[u8]) -> bool
        requires { length text.now ≤ max_matched_text }
        ensures test { result ≡ fits self.now text.now }
        ensures cuts { IsTrue result ↔ Fits self.now text.now }
    {
        fits_of(
            self.steps.as_slice(),
            usize::from(self.least),
            text,
            &self.rules,
        )
    }
}
