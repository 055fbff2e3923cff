//! What follows of the definitions of a log's head and its chunks as they are read.

ghost use Rattle.std.specs.Prelude.{◌≡◌, ◌≢◌, ◌==◌, ◌⊎◌, ◌<◌, ◌≤◌, ◌^◌, ◌++◌, [], ◌∷◌, All, List, ℕ, length, IsTrue, Ok};
ghost use Rattle.ct_log.specs.Chunks.{open_chunk, IsShort};
ghost use Rattle.ct_log.specs.Front.{is_id, front, front_with};
ghost use Rattle.ct_log.specs.Heads.{head_in, has_open_header, made_head, closed_head};
ghost use Rattle.ct_log.specs.Reading.{chunk, nothing, found_in};

/// The head of a log that was made is read as it was made, with its gate open or closed, and of any log the
/// head and the two start cells alone tell it.
pub fn made_logs_are_read()
    ensures opened { (id : List ℕ) (base : ℕ) (behind : List ℕ) → IsTrue (is_id id) → base ≤ 2 ^ 63
        → head_in (front id base ++ behind) ≡ Ok (made_head id base) }
    ensures closed { (gate : ℕ) (id : List ℕ) (base : ℕ) (behind : List ℕ) → gate ≢ 1 → IsTrue (is_id id)
        → head_in (front_with gate id base ++ behind) ≡ Ok closed_head }
    ensures gate { (gate : ℕ) (id : List ℕ) (base : ℕ) (behind : List ℕ) → IsTrue (is_id id)
        → has_open_header (front_with gate id base ++ behind) ≡ (gate == 1) }
    ensures front_tells { (front behind : List ℕ) → 12288 ≤ length front → head_in (front ++ behind) ≡ head_in front }
{}

/// A chunk is found where bytes begin with an open one, and only there.
pub fn chunks_are_found()
    ensures whole { (groups rest : List ℕ) → IsShort groups → found_in (open_chunk groups ++ rest) ≡ chunk groups }
    ensures closed { (gate : ℕ) (rest : List ℕ) → gate ≢ 1 → found_in (gate ∷ rest) ≡ nothing }
    ensures end { found_in [] ≡ nothing }
    ensures parts { (bytes groups : List ℕ) → All (λ b. b < 256) bytes → found_in bytes ≡ chunk groups
        → (rest : List ℕ) × (bytes ≡ open_chunk groups ++ rest) }
    ensures short { (bytes groups : List ℕ) → All (λ b. b < 256) bytes → found_in bytes ≡ chunk groups → IsShort groups }
    ensures ends { (bytes : List ℕ) → found_in bytes ≡ nothing
        → (bytes ≡ []) ⊎ ((gate : ℕ) × (rest : List ℕ) × (gate ≢ 1) × (bytes ≡ gate ∷ rest)) }
{}
