//! What holds of pieces that come one after another. The functions state laws: they do nothing.
ghost use Rattle.wire_text.specs.Streams.{PiecesComeBack, GivenStands};

/// A text that begins with `{` and is within the limit is given again by its own pieces, if there are
/// at most 1,000,000 of them.
pub fn pieces_come_back()
    ensures { PiecesComeBack }
{}

/// What an assembler gives is what the pieces stand for: a whole text by itself, or parts whose counts
/// fall by one to 0.
pub fn what_is_given_stands()
    ensures { GivenStands }
{}
