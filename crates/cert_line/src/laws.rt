ghost use Rattle.cert_line.specs.Lines.{LineHasNoFeed, ReadingIsExact};

/// A law with nothing to run: bytes are read as a line exactly where they are the text of this line and its numbers are
/// in their ranges.
pub fn reading_is_exact()
    ensures { ReadingIsExact }
{}

/// A law with nothing to run: no text of a line has a line feed.
pub fn line_has_no_feed()
    ensures { LineHasNoFeed }
{}
