//! Bounds: the point after which an observation counts, as a clock spec gives it.
ghost use Rattle.std.specs.Prelude.{◌≡◌, pos, ◌≤ℤ◌};
ghost use Rattle.std.specs.Option.{SomeIff};
ghost use Rattle.wq_clock.specs.Bound.{bound_of, is_fresh};
ghost use Rattle.wq_clock.specs.Instance.{instance_data};
ghost use Rattle.wq_clock.specs.Spec.{spec_data};

use crate::instance::Instance;
use crate::parser::Spec;
use wq_base::MAX_NUMBER;

/// The point after which observations are new to a client, as Watchman's documentation of
/// clockspecs defines it.
#[derive(Clone, Copy, Debug, PartialEq, Eq)]
pub enum Bound {
    /// The client knows nothing: everything that exists is new.
    Fresh,
    /// Observations of later ticks of this instance are new.
    Tick(u64),
    /// A second of the Unix epoch. A reply lists changes in this second or later, because the
    /// second may have passes that the client has not seen. Files that came in a later second are
    /// new.
    Second(i64),
}

impl Bound {
    /// The bound of a clock spec that is a whole number. It is a second of the Unix epoch, from 0
    /// to 2^62.
    pub fn second(seconds: i64) -> Option<Bound>
        ensures { SomeIff result ((pos 0 ≤ℤ seconds) × (seconds ≤ℤ pos MAX_NUMBER))
            (Bound.Second seconds) }
    {
        let second = u64::try_from(seconds).ok()?;
        if second <= MAX_NUMBER {
            Some(Bound::Second(seconds))
        } else {
            None
        }
    }

    /// Whether the client knows nothing.
    pub fn is_fresh(self) -> bool
        ensures { result ≡ is_fresh self }
    {
        match self {
            Bound::Fresh => true,
            Bound::Tick(_) | Bound::Second(_) => false,
        }
    }
}

/// The bound that a clock spec sets at `instance`.
///
/// An id with the three numbers of `instance` gives its tick, which the view need not have reached.
/// Every other id is fresh, an old one too. A cursor gives `None`, because the server keeps a tick
/// under its name.
///
/// At start 7, process 9 and root 1, `c:7:9:1:99` is `Bound::Tick(99)`, and `c:7:8:1:1` is
/// `Bound::Fresh`.
pub fn resolve(spec: &Spec<'_>, instance: &Instance) -> Option<Bound>
    ensures { result ≡ bound_of (spec_data spec.now) (instance_data instance.now) }
{
    match spec {
        Spec::Id(other, tick) if other == instance => Some(Bound::Tick(*tick)),
        Spec::Id(..) | Spec::OldId => Some(Bound::Fresh),
        Spec::Cursor(_) => None,
    }
}
