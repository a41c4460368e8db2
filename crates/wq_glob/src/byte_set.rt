//! A set of bytes in four words, so that a class costs one look however many items it has.
ghost use Rattle.std.specs.Prelude.{◌≡◌, ◌≢◌, ℕ, ◌<◌, ◌==◌, ◌||◌, false, not};
ghost use Rattle.wq_glob.specs.ByteSet.{has_byte};

/// Which of the 256 bytes are in the set: byte b is bit b % 64 of word b / 64.
#[derive(Clone, Copy, Debug)]
pub(crate) struct ByteSet {
    words: [u64; 4],
}

impl ByteSet {
    /// The set of no byte.
    pub(crate) fn empty() -> ByteSet
        ensures { (b : ℕ) → has_byte result b ≡ false }
    {
        ByteSet { words: [0; 4] }
    }

    /// Whether the byte is in the set.
    pub(crate) fn has(&self, byte: u8) -> bool
        ensures { result ≡ has_byte self.now byte }
    {
        (self.words[(byte / 64) as usize] >> (byte % 64)) & 1 == 1
    }

    /// Adds the byte.
    pub(crate) fn insert(&mut self, byte: u8)
        ensures { (b : ℕ) → b < 256 → has_byte self.new b ≡ (has_byte self.old b || b == byte) }
    {
        self.words[(byte / 64) as usize] |= 1 << (byte % 64);
    }

    /// The set of all other bytes.
    pub(crate) fn complement(&self) -> ByteSet
        ensures { (b : ℕ) → b < 256 → has_byte result b ≡ not (has_byte self.now b) }
    {
        let all = u64::MAX;
        let words = self.words;
        ByteSet {
            words: [
                words[0] ^ all,
                words[1] ^ all,
                words[2] ^ all,
                words[3] ^ all,
            ],
        }
    }
}
