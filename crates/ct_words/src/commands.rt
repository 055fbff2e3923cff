//! Which command the words are, by how many they are.
//! Each test here is one line of the table in `specs/Commands.antt`.

ghost use Rattle.std.specs.Prelude.{◌≡◌, ◌↔◌, ◌∷◌, [], map, codes, string_bytes, IsTrue, Some};
ghost use Rattle.ct_words.specs.declared.commands.Command.TheVariants.{Create, Exec, Check, Unbuilt};
ghost use Rattle.ct_words.specs.Commands.{IsCreate, TakesOne, TakesTwo, TakesThree, AskCreate, AskOther, Asks};

use crate::words::{MOST_LINES, MOST_SESSIONS, is, is_id, is_number_within, is_shelf_name};

/// A command of the tool.
#[derive(Clone, Copy, Debug, PartialEq, Eq)]
pub enum Command {
    /// `create id`: an empty store.
    Create,
    /// `exec`: one session.
    Exec,
    /// `check`: what the store holds.
    Check,
    /// Another command of the table, which the tool does not have yet.
    Unbuilt,
}

/// Whether this is `create` with an id.
fn is_create(verb: &[u8], word: &[u8]) -> bool
    ensures { IsTrue result ↔ IsCreate verb.now word.now }
{
    is(verb, b"create") && is_id(word)
}

/// Whether this is another command with one further word.
fn takes_one(verb: &[u8], word: &[u8]) -> bool
    ensures { IsTrue result ↔ TakesOne verb.now word.now }
{
    (is(verb, b"ctrdmp") || is(verb, b"ctfdmp")) && is_shelf_name(word)
}

/// Whether this is a command with two further words.
fn takes_two(verb: &[u8], name: &[u8], upto: &[u8]) -> bool
    ensures { IsTrue result ↔ TakesTwo verb.now name.now upto.now }
{
    is(verb, b"ctfdmp") && is_shelf_name(name) && is_number_within(0, u64::MAX, upto)
}

/// Whether this is a command with three further words.
fn takes_three(verb: &[u8], number: &[u8], sessions: &[u8], lines: &[u8]) -> bool
    ensures { IsTrue result ↔ TakesThree verb.now number.now sessions.now lines.now }
{
    is(verb, b"work")
        && is_number_within(0, u64::MAX, number)
        && is_number_within(1, MOST_SESSIONS, sessions)
        && is_number_within(0, MOST_LINES, lines)
}

/// Whether the words are this one alone.
fn is_alone(words: &[String], text: &[u8]) -> bool
    ensures { IsTrue result ↔ (map string_bytes words.now ≡ text.now ∷ []) }
{
    match words {
        [verb] => is(verb.as_bytes(), text),
        _ => false,
    }
}

/// Whether the words make a store.
fn asks_create(words: &[String]) -> bool
    ensures { IsTrue result ↔ AskCreate (map string_bytes words.now) }
{
    match words {
        [verb, word] => is_create(verb.as_bytes(), word.as_bytes()),
        _ => false,
    }
}

/// Whether the words are a command that is not built yet.
fn asks_other(words: &[String]) -> bool
    ensures { IsTrue result ↔ AskOther (map string_bytes words.now) }
{
    match words {
        [verb] => is(verb.as_bytes(), b"play"),
        [verb, word] => takes_one(verb.as_bytes(), word.as_bytes()),
        [verb, name, upto] => takes_two(verb.as_bytes(), name.as_bytes(), upto.as_bytes()),
        [verb, number, sessions, lines] => takes_three(
            verb.as_bytes(),
            number.as_bytes(),
            sessions.as_bytes(),
            lines.as_bytes(),
        ),
        _ => false,
    }
}

/// The command that the words ask for, if they ask for one.
pub fn command_of(words: &[String]) -> Option<Command>
    // The words ask for this.
    ensures exact { Asks (map string_bytes words.now) result }
    // They ask for nothing else.
    ensures create { AskCreate (map string_bytes words.now) → result ≡ Some Create }
    ensures exec { map string_bytes words.now ≡ codes "exec" ∷ [] → result ≡ Some Exec }
    ensures check { map string_bytes words.now ≡ codes "check" ∷ [] → result ≡ Some Check }
    ensures other { AskOther (map string_bytes words.now) → result ≡ Some Unbuilt }
{
    if is_alone(words, b"exec") {
        return Some(Command::Exec);
    }
    if is_alone(words, b"check") {
        return Some(Command::Check);
    }
    if asks_create(words) {
        return Some(Command::Create);
    }
    if asks_other(words) {
        return Some(Command::Unbuilt);
    }
    None
}
