//! One line of a schedule, read.
//! How it is spelled is said in `specs/Orders.antt`.

ghost use Rattle.std.specs.Prelude.{◌≡◌, ◌++◌, ◌∷◌, ◌<◌, ◌==◌, ℕ, List, Option, true, Some, None, IfSome, length, position};
ghost use Rattle.std.specs.Fmt.{decimal};
ghost use Rattle.ct_play.specs.Orders.{Said, Queues, Makes, Flushes, Checks, spelled, said_by, has_no_space, IsOrder, IsSession, IsCount};

use ct_text::read_number;

/// The greatest number of a session.
const LAST_SESSION: u64 = 64;

/// The greatest count of turns.
const MOST_TURNS: u64 = 1 << 20;

/// What a line of a schedule orders.
#[derive(Clone, Copy, Debug)]
pub enum Order<'a> {
    /// The line goes to the end of the session's queue.
    Queue { session: u64, line: &'a [u8] },
    /// Turns of the session: so many at most, or as long as it has any to make.
    Turns { session: u64, count: Option<u64> },
    /// Turns of the flusher.
    Flush { count: u64 },
    /// Turns of a checkpoint, at most.
    Checkpoint { count: u64 },
}

/// Reads a line of a schedule. `None` is a line outside its grammar.
pub fn read_order(line: &[u8]) -> Option<Order<'_>>
    ensures found { (said : Said) → said_by result ≡ Some said → IsOrder said × (line.now ≡ spelled said) }
    ensures only { (said : Said) → IsOrder said → line.now ≡ spelled said → said_by result ≡ Some said }
{
    let (kind, rest) = parted(line)?;
    if kind.len() != 1 {
        return None;
    }
    match kind[0] {
        b'S' => read_queue(rest),
        b'T' => read_turns(rest),
        b'F' => read_flush(rest),
        b'K' => read_checkpoint(rest),
        _ => None,
    }
}

/// A session and its line, behind an `S`.
fn read_queue(bytes: &[u8]) -> Option<Order<'_>>
    ensures found { (said : Said) → said_by result ≡ Some said → IsOrder said × (83 ∷ 32 ∷ bytes.now ≡ spelled said) }
    ensures only { (session : ℕ) (line : List ℕ) → IsSession session → bytes.now ≡ decimal session ++ 32 ∷ line → said_by result ≡ Some (Queues session line) }
{
    let Some((word, line)) = parted(bytes) else {
        return None;
    };
    let Some(session) = read_session(word) else {
        return None;
    };
    Some(Order::Queue { session, line })
}

/// A session and perhaps a count, behind a `T`.
fn read_turns(bytes: &[u8]) -> Option<Order<'_>>
    ensures found { (said : Said) → said_by result ≡ Some said → IsOrder said × (84 ∷ 32 ∷ bytes.now ≡ spelled said) }
    ensures only { (session : ℕ) (count : Option ℕ) → IsOrder (Makes session count) → 84 ∷ 32 ∷ bytes.now ≡ spelled (Makes session count) → said_by result ≡ Some (Makes session count) }
{
    let Some((word, count)) = parted(bytes) else {
        let session = read_session(bytes)?;
        return Some(Order::Turns {
            session,
            count: None,
        });
    };
    let Some(session) = read_session(word) else {
        return None;
    };
    let Some(count) = read_count(count) else {
        return None;
    };
    Some(Order::Turns {
        session,
        count: Some(count),
    })
}

/// A count, behind an `F`.
fn read_flush(bytes: &[u8]) -> Option<Order<'_>>
    ensures found { (said : Said) → said_by result ≡ Some said → IsOrder said × (70 ∷ 32 ∷ bytes.now ≡ spelled said) }
    ensures only { (count : ℕ) → IsCount count → bytes.now ≡ decimal count → said_by result ≡ Some (Flushes count) }
{
    let count = read_count(bytes)?;
    Some(Order::Flush { count })
}

/// A count, behind a `K`.
fn read_checkpoint(bytes: &[u8]) -> Option<Order<'_>>
    ensures found { (said : Said) → said_by result ≡ Some said → IsOrder said × (75 ∷ 32 ∷ bytes.now ≡ spelled said) }
    ensures only { (count : ℕ) → IsCount count → bytes.now ≡ decimal count → said_by result ≡ Some (Checks count) }
{
    let count = read_count(bytes)?;
    Some(Order::Checkpoint { count })
}

/// The number of a session.
fn read_session(word: &[u8]) -> Option<u64>
    ensures found { IfSome result (λ session. IsSession session × (word.now ≡ decimal session)) }
    ensures only { (session : ℕ) → IsSession session → word.now ≡ decimal session → result ≡ Some session }
{
    let session = read_number(word)?;
    if session < 1 || LAST_SESSION < session {
        return None;
    }
    Some(session)
}

/// A count of turns.
fn read_count(word: &[u8]) -> Option<u64>
    ensures found { IfSome result (λ count. IsCount count × (word.now ≡ decimal count)) }
    ensures only { (count : ℕ) → IsCount count → word.now ≡ decimal count → result ≡ Some count }
{
    let count = read_number(word)?;
    if MOST_TURNS < count {
        return None;
    }
    Some(count)
}

/// The bytes before the first space, and those behind it.
fn parted(bytes: &[u8]) -> Option<(&[u8], &[u8])>
    ensures parts { IfSome result (λ parts. (bytes.now ≡ parts.0.now ++ 32 ∷ parts.1.now) × (has_no_space parts.0.now ≡ true)) }
    ensures none { result ≡ None → has_no_space bytes.now ≡ true }
{
    let Some(at) = first_space(bytes) else {
        return None;
    };
    Some((&bytes[..at], &bytes[at + 1..]))
}

/// The place of the first space.
fn first_space(bytes: &[u8]) -> Option<usize>
    ensures place { result ≡ position (λ byte. byte == 32) bytes.now }
    ensures within { IfSome result (λ place. place < length bytes.now) }
{
    bytes.iter().position(|byte| *byte == b' ')
}
