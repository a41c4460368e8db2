//! The two versions of program files, and how much each has room for.
ghost use Rattle.std.specs.Prelude.{◌≡◌};
ghost use Rattle.wq_code.specs.Limit.{max_rows_in};
ghost use Rattle.wq_code.specs.File.{version_code};

/// Which of the two forms a program file has.
#[derive(Clone, Copy, Debug)]
pub enum Version {
    /// Counts and operands of two bytes, no sets of patterns.
    First,
    /// Counts and operands of four bytes.
    Second,
}

impl Version {
    /// The most rows of a table.
    pub(crate) fn max_table_rows(self) -> usize
        ensures { result ≡ max_rows_in self }
    {
        match self {
            Version::First => 4096,
            Version::Second => 65536,
        }
    }
}
