// What holds between reading and the canonical text, for all texts and messages. Each law is the
// contract of a function that does nothing.
ghost use Rattle.mvt_grammar.specs.Laws.{ReadingGivesReadable, CanonicalIsReadBack, CanonicalTellsApart, CanonicalIsShort, FlightIsReadBack};

/// Each message that a text is read as is readable.
pub fn reading_gives_readable_messages()
    ensures readable { ReadingGivesReadable }
{}

/// The canonical text of each readable message is read as that message.
pub fn canonical_texts_are_read_back()
    ensures read { CanonicalIsReadBack }
{}

/// Two readable messages with the same canonical text are equal.
pub fn canonical_texts_tell_messages_apart()
    ensures same { CanonicalTellsApart }
{}

/// A canonical text has at most 85 bytes.
pub fn canonical_texts_are_short()
    ensures few { CanonicalIsShort }
{}

/// The canonical text of each flight in its form is read as that flight.
pub fn flights_are_read_back()
    ensures read { FlightIsReadBack }
{}
