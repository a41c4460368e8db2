//! Laws about clock specs. Each law is the contract of a function without a body. A proof of
//! another crate gets a law by a call, which costs nothing.
ghost use Rattle.wq_clock.specs.Law.{TextsSayWhatTheySpell, PrintedIdsReadBack, SameTextSameId};

/// [`parse`](crate::parse) reads exactly the texts of the grammar of clock specs.
pub fn texts_say_what_they_spell()
    ensures { TextsSayWhatTheySpell }
{}

/// The text of every clock id is read as that id.
pub fn printed_ids_read_back()
    ensures { PrintedIdsReadBack }
{}

/// Two clock ids with one text are the same.
pub fn same_text_same_id()
    ensures { SameTextSameId }
{}
