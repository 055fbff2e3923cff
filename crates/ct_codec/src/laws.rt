//! The laws of the basic formats, as contracts of calls that do nothing.
//! The laws of what is made of others speak of any types, and stand in `proofs/Exact.antt`.

ghost use Rattle.std.specs.Prelude.{ℕ, ◌≡◌, ◌<◌, ◌^◌, Bool, length, IsTrue, ⊤};
ghost use Rattle.std.specs.Int.{w16, w32, w64};
ghost use Rattle.ct_codec.specs.Codec.{IsExact};
ghost use Rattle.ct_codec.specs.Formats.{number, byte, block, flag, sized, any_byte};

/// The basic formats are exact: what is read is spelled so, and what fits is read again.
pub fn basic_formats_are_exact()
    ensures byte { (passes : ℕ → Bool) → IsExact (byte passes) (λ b. (b < 2 ^ 8) × IsTrue (passes b)) }
    ensures number16 { IsExact (number w16) (λ n. n < 2 ^ 16) }
    ensures number32 { IsExact (number w32) (λ n. n < 2 ^ 32) }
    ensures number64 { IsExact (number w64) (λ n. n < 2 ^ 64) }
    ensures flag { IsExact flag (λ _. ⊤) }
    ensures block { (n : ℕ) → IsExact (block n) (λ field. length field ≡ n) }
    ensures sized8 { IsExact (sized any_byte) (λ field. length field < 2 ^ 8) }
    ensures sized32 { IsExact (sized (number w32)) (λ field. length field < 2 ^ 32) }
{}
