//! Laws about streams. Each law is the contract of a function without a body. A proof of another crate gets a law by a
//! call, which costs nothing.
ghost use Rattle.wq_stream.specs.Law.{CutsDoNotMatter, PiecesTellTheStream, ToldEventsStay};

/// All pieces of a stream, in turn, give the events of the whole stream, at whatever places it is cut.
pub fn pieces_tell_the_stream()
    ensures { PiecesTellTheStream }
{}

/// Two pieces of a stream, one after the other, give the same events as the two in one piece.
pub fn cuts_do_not_matter()
    ensures { CutsDoNotMatter }
{}

/// The events of a stream are the first events of the stream with more bytes after it.
pub fn told_events_stay()
    ensures { ToldEventsStay }
{}
