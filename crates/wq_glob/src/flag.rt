//! The flags of a pattern.

/// How a pattern is read and compared.
#[derive(Clone, Copy, Debug, PartialEq, Eq)]
pub struct Flags {
    /// The text is a path: slashes part its names, and only `**` goes across them.
    pub wholename: bool,
    /// `?`, `*`, `**` and classes take a dot at the front of a name, too.
    pub dotfiles: bool,
    /// A backslash is a byte like any other.
    pub noescape: bool,
    /// Letters of ASCII are compared without their case.
    pub fold: bool,
}
