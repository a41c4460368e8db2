//! The kinds of files, and their letters in listings and replies.
ghost use Rattle.std.specs.Prelude.{◌≡◌, MatchOption, ◌≢◌, ℕ};
ghost use Rattle.wq_record.specs.Kind.{kind_with, letter_of};

/// The kind of a file, as POSIX has it. One more kind exists on Solaris alone.
#[derive(Clone, Copy, Debug, PartialEq, Eq)]
pub enum Kind {
    /// A regular file.
    File,
    /// A directory.
    Dir,
    /// A symbolic link.
    Link,
    /// A block device.
    Block,
    /// A character device.
    Char,
    /// A named pipe.
    Fifo,
    /// A socket.
    Socket,
    /// A door, which only Solaris has.
    Door,
    /// Anything else.
    Unknown,
}

impl Kind {
    /// The letter of the kind, as in Watchman's field `type`: one of `f d l b c p s D`, or `?` for any other kind.
    pub fn letter(self) -> u8
        ensures { result ≡ letter_of self }
    {
        match self {
            Kind::File => b'f',
            Kind::Dir => b'd',
            Kind::Link => b'l',
            Kind::Block => b'b',
            Kind::Char => b'c',
            Kind::Fifo => b'p',
            Kind::Socket => b's',
            Kind::Door => b'D',
            Kind::Unknown => b'?',
        }
    }

    /// The kind that has this letter.
    #[tactic(auto, unfolding(crate::specs::Kind::kind_with))]
    pub fn from_letter(letter: u8) -> Option<Kind>
        ensures table { result ≡ kind_with letter }
        ensures letter { MatchOption result
            ((kind : Kind) → letter_of kind ≢ letter)
            (λ kind. letter_of kind ≡ letter) }
    {
        match letter {
            b'f' => Some(Kind::File),
            b'd' => Some(Kind::Dir),
            b'l' => Some(Kind::Link),
            b'b' => Some(Kind::Block),
            b'c' => Some(Kind::Char),
            b'p' => Some(Kind::Fifo),
            b's' => Some(Kind::Socket),
            b'D' => Some(Kind::Door),
            b'?' => Some(Kind::Unknown),
            _ => None,
        }
    }
}
