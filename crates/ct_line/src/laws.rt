//! Laws of the grammar, each the contract of a function that does nothing.

ghost use Rattle.ct_line.specs.Calls.{SpelledIsRead, HasSpelling, ReadIsSpelled};

/// Words that spell a call ask for that call.
pub fn spelled_call_is_read()
    ensures { SpelledIsRead }
{}

/// Each call whose names, numbers and null bytes words can be, and which has the segments and
/// indexes that it needs, has a spelling.
pub fn call_has_spelling()
    ensures { HasSpelling }
{}

/// Words that ask for a call spell that call.
pub fn read_call_is_spelled()
    ensures { ReadIsSpelled }
{}
