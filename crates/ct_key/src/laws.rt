//! How keys sort, and which targets lead to them: laws of the definitions.
//! Each law is the contract of a function that does nothing.

ghost use Rattle.std.specs.Prelude.{◌≡◌, ◌↔◌, ℕ, List, length, take, true, false, Some};
ghost use Rattle.std.specs.List.{list_all};
ghost use Rattle.std.specs.Ordering.{nat_cmp, int_cmp};
ghost use Rattle.std.specs.Cmp.Lexicographic.{slice_cmp};
ghost use Rattle.ct_definitions.specs.Keys.{segment_bytes, key_part, key_from};
ghost use Rattle.ct_definitions.specs.Validity.{is_valid_seg};
ghost use Rattle.ct_key.specs.Order.{number_of, signed_number_of, image_cmp, agree_but_for_case};
ghost use Rattle.ct_key.specs.Target.{target_from, joined};

use ct_definitions::{Mode, Seg};

/// The parts of keys that an `Int` segment gives sort as the numbers in the images do.
pub fn int_parts_sort_as_numbers(seg: Seg, image: &[u8], other: &[u8])
    requires mode { seg.mode ≡ Mode.Int }
    requires in_image { is_valid_seg (length image.now) seg ≡ true }
    requires in_other { is_valid_seg (length other.now) seg ≡ true }
    ensures ascending { seg.desc ≡ false
        → slice_cmp nat_cmp (key_part seg image.now) (key_part seg other.now)
        ≡ nat_cmp (number_of (segment_bytes seg image.now)) (number_of (segment_bytes seg other.now)) }

    // A descending segment turns the order round.
    ensures descending { seg.desc ≡ true
        → slice_cmp nat_cmp (key_part seg image.now) (key_part seg other.now)
        ≡ nat_cmp (number_of (segment_bytes seg other.now)) (number_of (segment_bytes seg image.now)) }
{}

/// The parts of keys that a `Sgn` segment gives sort as the signed numbers in the images do.
pub fn sgn_parts_sort_as_signed_numbers(seg: Seg, image: &[u8], other: &[u8])
    requires mode { seg.mode ≡ Mode.Sgn }
    requires in_image { is_valid_seg (length image.now) seg ≡ true }
    requires in_other { is_valid_seg (length other.now) seg ≡ true }
    ensures ascending { seg.desc ≡ false
        → slice_cmp nat_cmp (key_part seg image.now) (key_part seg other.now)
        ≡ int_cmp (signed_number_of (segment_bytes seg image.now))
        (signed_number_of (segment_bytes seg other.now)) }

    // A descending segment turns the order round.
    ensures descending { seg.desc ≡ true
        → slice_cmp nat_cmp (key_part seg image.now) (key_part seg other.now)
        ≡ int_cmp (signed_number_of (segment_bytes seg other.now))
        (signed_number_of (segment_bytes seg image.now)) }
{}

/// Whole keys sort by the first segment at which their images differ, each by its mode and sense.
pub fn keys_sort_by_segments(segs: &[Seg], null: Option<u8>, image: &[u8], other: &[u8])
    requires in_image { list_all (is_valid_seg (length image.now)) segs.now ≡ true }
    requires in_other { list_all (is_valid_seg (length other.now)) segs.now ≡ true }
    ensures { (key other_key : List ℕ) → key_from segs.now null image.now ≡ Some key
        → key_from segs.now null other.now ≡ Some other_key
        → slice_cmp nat_cmp key other_key ≡ image_cmp segs.now image.now other.now }
{}

/// The parts of keys that a `Ureg` segment gives are equal exactly where the images agree but for
/// the case of a to z.
pub fn ureg_parts_agree_but_for_case(seg: Seg, image: &[u8], other: &[u8])
    requires mode { seg.mode ≡ Mode.Ureg }
    ensures { (key_part seg image.now ≡ key_part seg other.now)
        ↔ (agree_but_for_case (segment_bytes seg image.now) (segment_bytes seg other.now) ≡ true) }
{}

/// What a target becomes is a front of the key of every image whose segments' bytes begin with it.
pub fn targets_become_fronts(segs: &[Seg], null: Option<u8>, image: &[u8], target: &[u8])
    requires { list_all (is_valid_seg (length image.now)) segs.now ≡ true }
    ensures { (key found : List ℕ) → key_from segs.now null image.now ≡ Some key
        → target_from segs.now target.now ≡ Some found
        → take (length target.now) (joined segs.now image.now) ≡ target.now
        → take (length found) key ≡ found }
{}
