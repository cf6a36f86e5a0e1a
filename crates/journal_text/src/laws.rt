//! The law of journal lines.
ghost use Rattle.journal_text.specs.Written.{ReadsJournals};

/// What is written of a line of a journal is read as that line. (That a byte is below 256 and a count
/// below 2^64, which the law asks for, the types say.)
pub fn written_entries_are_read()
    ensures { ReadsJournals }
{}
