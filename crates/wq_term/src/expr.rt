//! The expressions, one variant for each term. Terms that differ in letter case alone are one
//! variant.

use wq_base::{Case, Relation};
use wq_clock::Bound;
use wq_glob::Pattern;
use wq_record::Kind;

/// An expression over the record of a file, as in Watchman's documentation of file queries.
#[derive(Drop)]
pub enum Expr {
    /// `true`: every record.
    True,
    /// `false`: no record.
    False,
    /// `exists`: the files that the last pass saw.
    Exists,
    /// `empty`: the regular files and directories that exist and have size 0.
    Empty,
    /// `type`: the files of this kind, deleted ones by their last kind.
    KindIs(Kind),
    /// `name` and `iname`: the files of which this part of the name is one of the texts. A text may
    /// be empty, and so may the list.
    Name {
        case: Case,
        scope: Scope,
        texts: Vec<Vec<u8>>,
    },
    /// `match` and `imatch`: the files whose name fits the pattern. That is the whole name if the
    /// pattern has the flag `wholename`, and else the part after the last slash.
    Match(Pattern),
    /// `suffix`: the files whose suffix is one of the texts, with A to Z as a to z. An empty text
    /// matches nothing.
    Suffix(Vec<Vec<u8>>),
    /// `size`: the files that exist, and whose size in bytes has this relation to the number.
    Size(Relation, i64),
    /// `since`: the files to which something happened strictly after a point.
    Since(Since),
    /// `dirname` and `idirname`: the files strictly below a directory, which is written without
    /// slashes at its end. Below the empty one lies every file.
    Dirname {
        case: Case,
        dir: Vec<u8>,
        depth: Depth,
    },
    /// `not`: the records that the term does not match.
    Not(Box<Expr>),
    /// `allof`: the records that every term matches; all of them if there is no term.
    AllOf(Vec<Expr>),
    /// `anyof`: the records that some term matches; none if there is no term.
    AnyOf(Vec<Expr>),
}

/// The part of a name that is compared.
#[derive(Clone, Copy)]
pub enum Scope {
    /// The part after the last slash.
    Basename,
    /// The name from the root on.
    Wholename,
}

/// A change of a file, and the point strictly after which it came.
#[derive(Clone, Copy)]
pub enum Since {
    /// `oclock`: a pass saw a change of the file, its deletion too.
    Observed(Bound),
    /// `cclock`: a pass saw the file come.
    Created(Bound),
    /// `mtime`: the file was modified, in whole seconds of the Unix epoch, rounded down.
    Modified(i64),
}

/// How deep below a directory a file lies: the number of slashes in the rest of its name after the
/// directory and its slash.
#[derive(Clone, Copy)]
pub enum Depth {
    /// At any depth.
    Any,
    /// At a depth in this relation to the number.
    Is(Relation, i64),
}
