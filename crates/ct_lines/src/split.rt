//! The first line of a piece.

ghost use Rattle.std.specs.Prelude.{◌≡◌, ℕ, List, [], ◌∷◌, ◌++◌, MatchOption};
ghost use Rattle.ct_lines.specs.Lines.{HasNoEnd, lines_of, line_of, without_cr};

use memchr::memchr;

/// The bytes before the first LF, and those behind it; none where no line ends.
pub fn first_line(piece: &[u8]) -> Option<(&[u8], &[u8])>
    ensures { MatchOption result (HasNoEnd piece.now) (λ parts. HasNoEnd parts.0.now × (piece.now ≡ parts.0.now ++ 10 ∷ parts.1.now)) }
{
    match memchr(b'\n', piece) {
        Some(at) => Some((&piece[..at], &piece[at + 1..])),
        None => None,
    }
}

/// What the lines of an input are, read off it from the left: each is what stands before an LF, without
/// a CR at its end, or none where that is too long; what stands behind the last LF is a line where it isn't empty.
pub fn lines_are_parted_by_feeds()
    ensures line { (line rest : List ℕ) → HasNoEnd line → lines_of (line ++ 10 ∷ rest) ≡ line_of (without_cr line) ∷ lines_of rest }
    ensures last { (byte : ℕ) (line : List ℕ) → HasNoEnd (byte ∷ line) → lines_of (byte ∷ line) ≡ line_of (byte ∷ line) ∷ [] }
    ensures nothing { lines_of [] ≡ [] }
{}
