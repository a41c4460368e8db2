//! The source of the second of a pass.

/// The source of the second of a pass.
///
/// The source may show the second that it gave last, and the number of seconds that it gave.
pub trait Seconds {
    ghost use Rattle.std.specs.Prelude.{ℕ, ℤ, Option, None};
    ghost use Rattle.wq_patch.specs.Device.{Gave};

    // The number of seconds that it gave so far, and the last of them, if the source shows these.
    ghost told: { Self → Option (ℕ × ℤ) } = { λ _. None };

    /// The present second of the Unix epoch.
    fn second(&mut self) -> i64
        ensures { Gave (told self.old) result (told self.new) };
}
