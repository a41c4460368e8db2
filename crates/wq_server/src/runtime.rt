//! What the threads of a server use of the machine.

use std::sync::Wait;
use std::thread::Threads;
use std::time::{Clock, CpuClock};

/// A handle that makes threads, waits and reads clocks. Each thread of a server has a copy of it.
pub trait Runtime: Threads + Wait + Clock + CpuClock + Copy + Drop + Send + Sync + 'static {}

impl<T> Runtime for T
where
    T: Threads + Wait + Clock + CpuClock + Copy + Drop + Send + Sync + 'static,
{}
