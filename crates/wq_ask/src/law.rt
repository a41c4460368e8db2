//! Laws of asks: functions whose contracts are the laws.
ghost use Rattle.wq_ask.specs.HandedIn.{AsksHandInValid, HandsInValid};

use crate::ask::{Ask, ShelfAsk};

/// No ask of an event hands in a program that may not run.
#[tactic(auto, using(crate::proofs::HandingIn::asks_hand_in_valid))]
pub fn asks_hand_in_valid()
    ensures { AsksHandInValid }
{}

/// Nor does any ask: what it hands in is a verified program.
pub fn hands_in_valid(ask: &Ask)
    ensures { HandsInValid ask.now }
{
    if let Ask::OfShelf(ShelfAsk::AddProgram { program, .. }) = ask {
        program.raw();
    }
}
