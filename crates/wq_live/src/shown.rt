//! The value that threads share: the table of all roots, with the list of events from which it follows.
ghost use Rattle.std.specs.Prelude.{◌≡◌, [], IfOk};
ghost use Rattle.wq_live.specs.Log.{Compared, longer_log};
ghost use Rattle.wq_live.specs.Table.{IsTableOf};

use crate::log::Log;
use crate::table::RootTable;
use left_right::Absorb;
use std::alloc::{AllocError, Global};
use std::marker::Model;
use std::sync::Arc;

/// A list that was published. Only the step that shows a value makes one, and the first value, whose list is empty.
/// Contracts see the list.
#[derive(Drop)]
pub struct Published {
    log: Log,
}

impl Model for Published {
    ghost use Rattle.wq_live.specs.Log.{LogData, log_code};

    ghost Value = { LogData };

    ghost coded = { log_code };

    ghost view = { λ p. p.log };

    ghost invariant = { λ _. Unit {0} };
}

impl Published {
    /// A copy.
    fn again(&self) -> Published
        ensures { result ≡ self.now }
    {
        Published {
            log: self.log.again(),
        }
    }

    /// The list.
    fn log(&self) -> &Log
        ensures { result.now ≡ self.now }
    {
        &self.log
    }
}

/// A value that is to be shown: a table with the list from which it follows. Contracts see the list.
#[derive(Drop)]
pub struct Next {
    table: Arc<RootTable>,
    log: Log,
}

impl Model for Next {
    ghost use Rattle.wq_live.specs.Log.{LogData, log_code};
    ghost use Rattle.wq_live.specs.Table.{IsTableOf};

    ghost Value = { LogData };

    ghost coded = { log_code };

    ghost view = { λ n. n.log };

    ghost invariant = { λ n. IsTableOf n.log.log n.table.value };
}

impl Next {
    /// The table of this list. It takes no memory.
    pub(crate) fn new(table: Arc<RootTable>, log: Log) -> Next
        requires { IsTableOf log.log table.value }
        ensures { result ≡ log }
    {
        Next { table, log }
    }

    /// The list.
    pub(crate) fn log(&self) -> &Log
        ensures { result.now ≡ self.now }
    {
        &self.log
    }
}

/// A table with the list from which it follows, which was published. Contracts see the list.
#[derive(Drop)]
pub struct Shown {
    table: Arc<RootTable>,
    published: Published,
}

impl Model for Shown {
    ghost use Rattle.wq_live.specs.Log.{LogData, log_code};
    ghost use Rattle.wq_live.specs.Table.{IsTableOf};

    ghost Value = { LogData };

    ghost coded = { log_code };

    ghost view = { λ s. s.published };

    ghost invariant = { λ s. IsTableOf s.published.log s.table.value };
}

impl Shown {
    /// The first value that is shown, before the first event. It takes no memory.
    pub(crate) fn first(table: Arc<RootTable>, log: Log) -> Shown
        requires empty { log.log ≡ [] }
        requires table { IsTableOf log.log table.value }
        ensures { result ≡ log }
    {
        Shown {
            table,
            published: Published { log },
        }
    }

    /// The same value, which shares the table.
    pub(crate) fn again(&self) -> Result<Shown, AllocError>
        ensures { IfOk result (λ shown. shown ≡ self.now) }
    {
        Ok(Shown {
            table: self.table.clone()?,
            published: self.published.again(),
        })
    }

    /// The same value by this table, which is that of the list too. It takes no memory.
    pub(crate) fn with_table(&self, table: Arc<RootTable>) -> Shown
        requires { IsTableOf self.now.log table.value }
        ensures { result ≡ self.now }
    {
        Shown {
            table,
            published: self.published.again(),
        }
    }

    /// The same value, to be shown once more.
    pub(crate) fn next(&self) -> Result<Next, AllocError>
        ensures { IfOk result (λ next. next ≡ self.now) }
    {
        Ok(Next {
            table: self.table.clone()?,
            log: self.published.log().again(),
        })
    }

    /// The value with the longer list.
    pub(crate) fn longer(self, other: Shown) -> Shown
        requires { self.book ≡ other.book }
        ensures longer { result ≡ longer_log self other }
        ensures compared { Compared self other }
    {
        if self.log().is_shorter(other.log()) {
            other
        } else {
            self
        }
    }

    /// The table.
    pub(crate) fn table(&self) -> &RootTable
        ensures { IsTableOf self.now.log result.now }
    {
        &self.table
    }

    /// The list.
    pub(crate) fn log(&self) -> &Log
        ensures { result.now ≡ self.now }
    {
        self.published.log()
    }

    /// The list, as one that was published.
    pub(crate) fn published(&self) -> &Published
        ensures { result.now ≡ self.now }
    {
        &self.published
    }
}

// A newly published value replaces the old one as a whole. Here alone a list becomes one that was published.
impl Absorb<Next> for Shown {
    type State = Shown;

    ghost state = { λ shown. shown };

    ghost applied = { λ _ next. next };

    fn absorb_first(&mut self, next: &Next, _other: &Shown) -> Result<(), AllocError> {
        *self = Shown {
            table: next.table.clone()?,
            published: Published {
                log: next.log.again(),
            },
        };
        Ok(())
    }

    fn absorb_second(&mut self, next: Next, _other: &Shown) -> Result<(), Next> {
        let Next { table, log } = next;
        *self = Shown {
            table,
            published: Published { log },
        };
        Ok(())
    }
}
