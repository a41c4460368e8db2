//! The form of a pattern that the matcher runs: one small step for each atom. `rules` has the sets
//! of bytes that steps name.
ghost use Rattle.std.specs.Prelude.{◌≡◌, ◌≤◌, length};
ghost use Rattle.wq_glob.specs.Cell.{may_be_empty};
ghost use Rattle.wq_glob.specs.Least.{least_of};
ghost use Rattle.wq_glob.specs.Step.{step_reach};

/// The bytes of a text that an atom takes.
#[derive(Clone, Copy, Debug)]
pub(crate) enum Step {
    /// This byte, which is kept in lower case if the pattern ignores case.
    Byte(u8),
    /// `?`: one byte.
    AnyByte,
    /// A class: one byte of the set with this number.
    Set(u8),
    /// `*`: as many bytes as it likes.
    Stars,
    /// `**/`: directories with their slashes, however many.
    Below,
    /// `**` at the end: all that is left, slashes too.
    Tail,
    /// A byte that no text has.
    Never,
}

// A pattern has as many steps as atoms, and thousands of patterns may be kept.
const _: () = prove!(size_of::<Step>() <= 8);

/// Whether the part of a step may be empty.
pub(crate) fn may_take_nothing(step: &Step) -> bool
    ensures { result ≡ may_be_empty (step_reach step.now) }
{
    matches!(step, Step::Stars | Step::Below | Step::Tail)
}

/// How many bytes a text has at least if the steps fit it: one for each whose part is never empty.
pub(crate) fn least_of(steps: &[Step]) -> usize
    ensures value { result ≡ least_of steps.now }
    ensures few { result ≤ length steps.now }
{
    steps.iter().filter(|step| !may_take_nothing(step)).count()
}
