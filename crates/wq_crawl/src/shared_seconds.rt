//! A clock that threads share, so that the seconds of all passes rise together.
ghost use Rattle.std.specs.Prelude.{◌≡◌};

use crate::seconds::Seconds;
use std::sync::{Arc, Mutex, Wait};

/// A clock that threads share. Contracts see no second of it, since others ask it too.
#[derive(Drop)]
pub struct SharedSeconds<R: Wait + Drop, S: Seconds + Drop> {
    rt: R,
    seconds: Arc<Mutex<S>>,
}

impl<R: Wait + Drop, S: Seconds + Drop> SharedSeconds<R, S> {
    /// This clock, which other threads may share.
    pub fn new(rt: R, seconds: Arc<Mutex<S>>) -> SharedSeconds<R, S> {
        SharedSeconds { rt, seconds }
    }
}

impl<R: Wait + Drop, S: Seconds + Drop> Seconds for SharedSeconds<R, S> {
    fn second(&mut self) -> i64 {
        self.seconds.lock(&self.rt).second()
    }
}
