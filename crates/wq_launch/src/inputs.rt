//! The inputs of commands that run, until they are written. A command that does not read holds a pipe and the bytes of
//! its input, so both are bounded over all commands.
ghost use Rattle.std.specs.Prelude.{◌≡◌};
ghost use Rattle.wq_launch.specs.Inputs.{TakesInput, has_room, without_input};

use std::marker::Model;

/// How many bytes the inputs that are not written yet may have together, if there are several.
pub const MAX_INPUT_BYTES: usize = 67_108_864;

/// The inputs that are not written yet.
#[derive(Drop)]
pub(crate) struct Inputs {
    /// How many there may be at once.
    most: usize,
    count: usize,
    bytes: usize,
}

impl Model for Inputs {
    ghost use Rattle.std.specs.Prelude.{◌≡◌};
    ghost use Rattle.wq_launch.specs.Inputs.{InputsData};

    ghost Value = { InputsData };

    ghost view = { λ i. record { most = i.most; count = i.count; bytes = i.bytes } };

    ghost invariant = { λ i. i.count ≡ 0 → i.bytes ≡ 0 };
}

impl Inputs {
    /// No input waits, and so many may.
    pub(crate) fn new(most: usize) -> Inputs
        ensures { result ≡ record { most = most; count = 0; bytes = 0 } }
    {
        Inputs {
            most,
            count: 0,
            bytes: 0,
        }
    }

    /// Whether there is room for an input of so many bytes.
    fn has_room(&self, bytes: usize) -> bool
        ensures { result ≡ has_room bytes self.now }
    {
        bytes == 0
            || (self.count < self.most
                && (self.count == 0 || bytes <= MAX_INPUT_BYTES.saturating_sub(self.bytes)))
    }

    /// Takes an input of so many bytes, if there is room for it, and says whether it did.
    pub(crate) fn take(&mut self, bytes: usize) -> bool
        ensures { TakesInput bytes self.old result self.new }
    {
        if !self.has_room(bytes) {
            return false;
        }
        if bytes > 0 {
            self.count += 1;
            self.bytes += bytes;
        }
        true
    }

    /// An input of so many bytes was written, or is no longer needed.
    pub(crate) fn end(&mut self, bytes: usize)
        ensures { self.new ≡ without_input bytes self.old }
    {
        if bytes > 0 {
            self.count = self.count.saturating_sub(1);
            self.bytes = if self.count == 0 {
                0
            } else {
                self.bytes.saturating_sub(bytes)
            };
        }
    }
}
