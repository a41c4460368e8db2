//! The words that terms take as arguments.
ghost use Rattle.std.specs.Prelude.{◌≡◌};
ghost use Rattle.wq_term.specs.Word.{kind_named, scope_named, relation_named, since_field_named};

use crate::expr::Scope;
use wq_base::Relation;
use wq_record::Kind;

/// The fields that `since` compares.
#[derive(Clone, Copy)]
pub(crate) enum SinceField {
    Oclock,
    Cclock,
    Mtime,
}

/// The kind that `type` asks for by this letter.
#[tactic(auto, unfolding(crate::specs::Word::kind_named))]
pub(super) fn kind_named(letter: &str) -> Option<Kind>
    ensures { result ≡ kind_named letter.now }
{
    match letter {
        "b" => Some(Kind::Block),
        "c" => Some(Kind::Char),
        "d" => Some(Kind::Dir),
        "f" => Some(Kind::File),
        "p" => Some(Kind::Fifo),
        "l" => Some(Kind::Link),
        "s" => Some(Kind::Socket),
        "D" => Some(Kind::Door),
        _ => None,
    }
}

/// The part of a name that `name` compares.
#[tactic(auto, unfolding(crate::specs::Word::scope_named))]
pub(super) fn scope_named(word: &str) -> Option<Scope>
    ensures { result ≡ scope_named word.now }
{
    match word {
        "basename" => Some(Scope::Basename),
        "wholename" => Some(Scope::Wholename),
        _ => None,
    }
}

/// The relation of `size` and of a depth.
#[tactic(auto, unfolding(crate::specs::Word::relation_named))]
pub(super) fn relation_named(word: &str) -> Option<Relation>
    ensures { result ≡ relation_named word.now }
{
    match word {
        "eq" => Some(Relation::Eq),
        "ne" => Some(Relation::Ne),
        "gt" => Some(Relation::Gt),
        "ge" => Some(Relation::Ge),
        "lt" => Some(Relation::Lt),
        "le" => Some(Relation::Le),
        _ => None,
    }
}

/// The field of `since`.
#[tactic(auto, unfolding(crate::specs::Word::since_field_named))]
pub(super) fn field_named(word: &str) -> Option<SinceField>
    ensures { result ≡ since_field_named word.now }
{
    match word {
        "oclock" => Some(SinceField::Oclock),
        "cclock" => Some(SinceField::Cclock),
        "mtime" => Some(SinceField::Mtime),
        _ => None,
    }
}
