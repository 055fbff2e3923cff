//! Laws of spelling and splitting, each the contract of a function that does nothing.
//! What is spelled is read again, whatever stands round it.

ghost use Rattle.std.specs.Prelude.{◌≡◌, ℕ, List};
ghost use Rattle.ct_text.specs.Words.{Spells, AreBytes, SpelledIsRead, spelling};

/// The spelling of bytes stands for these bytes.
pub fn spelling_stands_for_its_bytes()
    ensures { (bytes : List ℕ) → AreBytes bytes → Spells (spelling bytes) bytes }
{}

/// A spelled word is one word of a line, whatever words stand before it and behind it.
pub fn spelled_word_is_read()
    ensures { SpelledIsRead }
{}
