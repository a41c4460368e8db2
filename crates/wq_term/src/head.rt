//! The names of terms.
ghost use Rattle.std.specs.Prelude.{◌≡◌};
ghost use Rattle.wq_term.specs.Head.{head_named};

/// The head of a term: the name that begins it in the grammar of expressions.
#[derive(Clone, Copy)]
pub enum Head {
    /// `true`.
    True,
    /// `false`.
    False,
    /// `exists`.
    Exists,
    /// `empty`.
    Empty,
    /// `type`.
    KindIs,
    /// `name`.
    Name,
    /// `iname`.
    Iname,
    /// `match`.
    Match,
    /// `imatch`.
    Imatch,
    /// `suffix`.
    Suffix,
    /// `size`.
    Size,
    /// `since`.
    Since,
    /// `dirname`.
    Dirname,
    /// `idirname`.
    Idirname,
    /// `not`.
    Not,
    /// `allof`.
    AllOf,
    /// `anyof`.
    AnyOf,
}

impl Head {
    /// The term that a text names.
    #[tactic(auto, unfolding(crate::specs::Head::head_named))]
    pub(crate) fn named(text: &str) -> Option<Head>
        ensures { result ≡ head_named text.now }
    {
        match text {
            "true" => Some(Head::True),
            "false" => Some(Head::False),
            "exists" => Some(Head::Exists),
            "empty" => Some(Head::Empty),
            "type" => Some(Head::KindIs),
            "name" => Some(Head::Name),
            "iname" => Some(Head::Iname),
            "match" => Some(Head::Match),
            "imatch" => Some(Head::Imatch),
            "suffix" => Some(Head::Suffix),
            "size" => Some(Head::Size),
            "since" => Some(Head::Since),
            "dirname" => Some(Head::Dirname),
            "idirname" => Some(Head::Idirname),
            "not" => Some(Head::Not),
            "allof" => Some(Head::AllOf),
            "anyof" => Some(Head::AnyOf),
            _ => None,
        }
    }
}
