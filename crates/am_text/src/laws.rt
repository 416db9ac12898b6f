ghost use Rattle.am_text.specs.Laws.{ReadIsInGrammar, GrammarIsRead, FaultsHaveNoReading, OneReading, ReadCanBeWritten, WrittenIsRead, LinesAreRead, RoundTrip};

/// What is read is in the grammar, and keeps the limits.
pub fn what_is_read_is_in_the_grammar()
    ensures { ReadIsInGrammar }
{}

/// What is in the grammar and keeps the limits is read.
pub fn what_is_in_the_grammar_is_read()
    ensures { GrammarIsRead }
{}

/// A fault comes only where the bytes have no reading within the limits.
pub fn faults_have_no_reading()
    ensures { FaultsHaveNoReading }
{}

/// No bytes have two readings.
pub fn no_bytes_have_two_readings()
    ensures { OneReading }
{}

/// Forms that were read are forms that can be written.
pub fn what_was_read_can_be_written()
    ensures { ReadCanBeWritten }
{}

/// A form that can be written is read from its spelling as the same form, places aside.
pub fn what_is_written_is_read()
    ensures { WrittenIsRead }
{}

/// Forms that are written a line each are read as the same forms, places aside.
pub fn lines_are_read()
    ensures { LinesAreRead }
{}

/// A form that was read and written is read as the same form, places aside.
pub fn round_trip()
    ensures { RoundTrip }
{}
