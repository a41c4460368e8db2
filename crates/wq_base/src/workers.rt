//! How many threads may look for the files of a query.
ghost use Rattle.wq_base.specs.Limit.{AreFew};

/// How many threads may look for the files of a query: 1 to 16.
#[derive(Clone, Copy, Debug)]
pub struct Workers {
    /// The number.
    pub count: u32,
    ghost few: { AreFew count },
}
