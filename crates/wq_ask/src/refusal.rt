//! The reasons to refuse lines of clients, and the texts that clients read.
ghost use Rattle.std.specs.Prelude.{◌≡◌, IfOk, string_bytes};
ghost use Rattle.wq_ask.specs.Refusal.{ends_session, query_text, refusal_text, term_text};

use std::alloc::{AllocError, AllocFailed, Global};
use wq_code::FileFault;
use wq_query::QueryFault;
use wq_term::TermFault;
use wq_verify::ProgramFault;

/// The reason to refuse a line of a client. The variants are in the order in which they are looked for, so that the
/// first of several reasons is told. But a line that begins with byte 0 is [`Bser`](Refusal::Bser), however long it is.
/// A growth may be refused before any of them but the first two.
#[derive(Clone, Copy, Debug, Drop)]
pub enum Refusal {
    /// A line of over [`MAX_LINE`](wq_stream::MAX_LINE) bytes.
    LineTooLong,
    /// The line begins with byte 0, as Watchman's binary messages do.
    Bser,
    /// The line is more than one JSON value, or none, or has bytes that are no UTF-8.
    NotJson,
    /// The value is no array with a text as its first item.
    NotACommand,
    /// No command has this name.
    UnknownCommand,
    /// The command takes another number or other kinds of arguments.
    WrongArguments,
    /// The root to watch is no absolute path, or has over [`MAX_ROOT`](crate::MAX_ROOT) bytes as it is given, or a byte
    /// 0.
    RootNotAbsolute,
    /// The root is not watched.
    NotWatched,
    /// The name of a program, a subscription or a trigger is empty or has over 255 bytes.
    BadName,
    /// The greatest number of roots is watched, or every number for a root is used.
    TooManyRoots,
    /// The greatest number of sessions is open. This is the reply to no line: it is told in place of a session.
    TooManySessions,
    /// The root could not be read when it was crawled for the line.
    UnreadableRoot,
    /// The root has more files than a view may have.
    TooManyFiles,
    /// The root was crawled 2^62 times with changes.
    TicksSpent,
    /// The object of a trigger has an unsupported key, no name or command, or a value of another shape.
    BadTrigger,
    /// The query is refused.
    Query(QueryFault),
    /// No program is kept under this name.
    NoSuchProgram,
    /// The query's expression has no program: its code or a list in it is too long.
    ProgramTooLarge,
    /// The session has the most subscriptions that it may have.
    TooManySubscriptions,
    /// The root has the most triggers that it may have.
    TooManyTriggers,
    /// The text of a program is not base64.
    NotBase64,
    /// The bytes of a program are no program file.
    WrongFile(FileFault),
    /// The program may not run, for this fault of the instruction at this place, counted from 0.
    WrongProgram { fault: ProgramFault, at: usize },
    /// The greatest number of programs, or of cursors of the root, is kept.
    ShelfFull,
    /// A growth was refused.
    NoMemory,
}

impl Refusal {
    /// Whether the session ends after a line is refused so, or there is no session.
    pub fn ends_session(self) -> bool
        ensures { result ≡ ends_session self }
    {
        matches!(
            self,
            Refusal::LineTooLong | Refusal::Bser | Refusal::TooManySessions
        )
    }

    /// The text of the key `error` in the reply.
    pub fn text(self, alloc: Global) -> Result<String, AllocError>
        ensures { IfOk result (λ text. string_bytes text ≡ refusal_text self) }
    {
        match self {
            Refusal::LineTooLong => String::from_str(alloc, "E1: line too long"),
            Refusal::NotJson => String::from_str(alloc, "E2: not JSON"),
            Refusal::NotACommand => String::from_str(alloc, "E3: not a command array"),
            Refusal::UnknownCommand => String::from_str(alloc, "E4: unknown command"),
            Refusal::WrongArguments => String::from_str(alloc, "E5: wrong arguments"),
            Refusal::Bser => String::from_str(alloc, "E6: BSER is not spoken here"),
            Refusal::RootNotAbsolute => String::from_str(alloc, "E10: root is not absolute"),
            Refusal::UnreadableRoot => String::from_str(alloc, "E11: root cannot be read"),
            Refusal::TooManyFiles => String::from_str(alloc, "E12: too many files"),
            Refusal::TooManyRoots => String::from_str(alloc, "E13: too many roots"),
            Refusal::NotWatched => String::from_str(alloc, "E14: root is not watched"),
            Refusal::TicksSpent => String::from_str(alloc, "E15: ticks are spent"),
            Refusal::TooManySessions => String::from_str(alloc, "E17: too many sessions"),
            Refusal::Query(fault) => String::from_str(alloc, query_text(fault)),
            Refusal::ProgramTooLarge => String::from_str(alloc, "E30: program too large"),
            Refusal::NotBase64 => String::from_str(alloc, "E31: not base64"),
            Refusal::WrongFile(fault) => format!(in alloc; "E32: F{}", fault.number()),
            Refusal::WrongProgram { fault, at } => {
                format!(in alloc; "E33: Y{} at {at}", fault.number())
            }
            Refusal::NoSuchProgram => String::from_str(alloc, "E34: no such program"),
            Refusal::ShelfFull => String::from_str(alloc, "E35: shelf is full"),
            Refusal::BadName => String::from_str(alloc, "E36: bad name"),
            Refusal::TooManySubscriptions => {
                String::from_str(alloc, "E41: too many subscriptions")
            }
            Refusal::TooManyTriggers => String::from_str(alloc, "E42: too many triggers"),
            Refusal::BadTrigger => String::from_str(alloc, "E43: bad trigger"),
            Refusal::NoMemory => String::from_str(alloc, NO_MEMORY),
        }
    }
}

const BAD_CLOCK_SPEC: &str = "E23: bad clockspec";

const PATTERN_TOO_LONG: &str = "E28: pattern too long";

const NO_MEMORY: &str = "E60: no memory";

fn query_text(fault: QueryFault) -> &'static str
    ensures { result.now ≡ query_text fault }
{
    match fault {
        QueryFault::LeftOutKey => "E20: query key is left out",
        QueryFault::ExpressionAndProgram => "E29: expression and program",
        QueryFault::Expression(fault) => term_text(fault),
        QueryFault::UnknownField => "E21: unknown field",
        QueryFault::BadGenerator => "E22: bad generator",
        QueryFault::PatternTooLong => PATTERN_TOO_LONG,
        QueryFault::BadClockSpec => BAD_CLOCK_SPEC,
        QueryFault::WrongValue => "E37: wrong query value",
        QueryFault::NoMemory => NO_MEMORY,
    }
}

fn term_text(fault: TermFault) -> &'static str
    ensures { result.now ≡ term_text fault }
{
    match fault {
        TermFault::UnknownTerm => "E24: unknown term",
        TermFault::WrongArguments => "E25: wrong term arguments",
        TermFault::TooDeep => "E26: expression too deep",
        TermFault::BadClockSpec => BAD_CLOCK_SPEC,
        TermFault::CursorInTerm => "E27: cursor in a term",
        TermFault::PatternTooLong => PATTERN_TOO_LONG,
        TermFault::NoMemory => NO_MEMORY,
    }
}

impl From<AllocError> for Refusal {
    ghost use Rattle.std.specs.Prelude.{◌≡◌};
    ghost use Rattle.wq_ask.specs.declared.refusal.Refusal.TheVariants.{NoMemory};

    ghost from_gives = { λ _ refusal. refusal ≡ NoMemory };

    fn from(_error: AllocError) -> Refusal {
        Refusal::NoMemory
    }
}

impl<T: Drop> From<AllocFailed<T>> for Refusal {
    ghost use Rattle.std.specs.Prelude.{◌≡◌};
    ghost use Rattle.wq_ask.specs.declared.refusal.Refusal.TheVariants.{NoMemory};

    ghost from_gives = { λ _ refusal. refusal ≡ NoMemory };

    fn from(_error: AllocFailed<T>) -> Refusal {
        Refusal::NoMemory
    }
}
