//! The fields that a query may ask of each file.
ghost use Rattle.std.specs.Prelude.{◌≡◌};
ghost use Rattle.wq_query.specs.Field.{field_name, field_named};

/// A fact that a reply tells of a file.
#[derive(Clone, Copy, Debug, PartialEq, Eq)]
pub enum Field {
    /// `name`: the path below the root.
    Name,
    /// `exists`: whether the last pass saw the file.
    Exists,
    /// `new`: whether the file came after the bound.
    New,
    /// `size`: in bytes.
    Size,
    /// `type`: the letter of the kind.
    Kind,
    /// `cclock`: the clock id of the pass that saw the file come.
    Cclock,
    /// `oclock`: the clock id of the last pass that saw a change of the file, its deletion too.
    Oclock,
    /// `mtime`: the modification time in whole seconds of the Unix epoch, rounded down.
    Mtime,
    /// `mtime_ms`: the modification time in milliseconds of the Unix epoch.
    MtimeMs,
}

impl Field {
    /// The name of the field in queries and replies.
    pub fn name(self) -> &'static str
        ensures { result.now ≡ field_name self }
    {
        match self {
            Field::Name => "name",
            Field::Exists => "exists",
            Field::New => "new",
            Field::Size => "size",
            Field::Kind => "type",
            Field::Cclock => "cclock",
            Field::Oclock => "oclock",
            Field::Mtime => "mtime",
            Field::MtimeMs => "mtime_ms",
        }
    }

    /// The field that has this name.
    #[tactic(auto, unfolding(crate::specs::Field::field_named))]
    pub fn named(name: &str) -> Option<Field>
        ensures { result ≡ field_named name.now }
    {
        match name {
            "name" => Some(Field::Name),
            "exists" => Some(Field::Exists),
            "new" => Some(Field::New),
            "size" => Some(Field::Size),
            "type" => Some(Field::Kind),
            "cclock" => Some(Field::Cclock),
            "oclock" => Some(Field::Oclock),
            "mtime" => Some(Field::Mtime),
            "mtime_ms" => Some(Field::MtimeMs),
            _ => None,
        }
    }
}
