//! Worked examples of keys, valid definitions, block room and the order of pairs.
//! Each is an equation that holds by computing.

ghost use Rattle.std.specs.Prelude.{◌≡◌, ℕ, [], ◌∷◌, map, replicate, true, false, Some, None, codes};
ghost use Rattle.ct_definitions.specs.declared.definition.Mode.TheVariants.{Reg, Ureg, Int, Sgn};
ghost use Rattle.ct_definitions.specs.declared.definition.Kind.TheVariants.{Fixed, Variable};
ghost use Rattle.ct_definitions.specs.Keys.{key_of};
ghost use Rattle.ct_definitions.specs.Validity.{is_name, is_valid};
ghost use Rattle.ct_definitions.specs.Room.{has_room, block_use};
ghost use Rattle.ct_definitions.specs.Changes.{may_stand};
ghost use Rattle.ct_laws.specs.Examples.{rising, falling, index_by, index_beside_blanks, unique_by};
ghost use Rattle.ct_laws.specs.Examples.{def_of, def_with, order_of, four_numbers, part, bins, two_large};

/// Keys of 0, 255, 256 and 65535 or -1, and of text.
pub fn keys_by_example()
    ensures unsigned { map (key_of (index_by (rising Int 0 2 ∷ []))) four_numbers
        ≡ Some (0x00 ∷ 0x00 ∷ []) ∷ Some (0x00 ∷ 0xff ∷ [])
        ∷ Some (0x01 ∷ 0x00 ∷ []) ∷ Some (0xff ∷ 0xff ∷ []) ∷ [] }
    ensures signed { map (key_of (index_by (rising Sgn 0 2 ∷ []))) four_numbers
        ≡ Some (0x80 ∷ 0x00 ∷ []) ∷ Some (0x80 ∷ 0xff ∷ [])
        ∷ Some (0x81 ∷ 0x00 ∷ []) ∷ Some (0x7f ∷ 0xff ∷ []) ∷ [] }
    ensures descending { map (key_of (index_by (falling Int 0 2 ∷ []))) four_numbers
        ≡ Some (0xff ∷ 0xff ∷ []) ∷ Some (0xff ∷ 0x00 ∷ [])
        ∷ Some (0xfe ∷ 0xff ∷ []) ∷ Some (0x00 ∷ 0x00 ∷ []) ∷ [] }
    ensures upper { key_of (index_by (rising Ureg 1 3 ∷ [])) (codes "1az{") ≡ Some (codes "AZ{") }
    ensures joined { key_of (index_by (rising Reg 2 2 ∷ rising Ureg 0 1 ∷ [])) (codes "abcd")
        ≡ Some (codes "cdA") }
    ensures blank { key_of (index_beside_blanks (rising Reg 2 2 ∷ [])) (codes "01  ") ≡ None }
    ensures filled { key_of (index_beside_blanks (rising Reg 2 2 ∷ [])) (codes "02XY")
        ≡ Some (codes "XY") }
    ensures half_blank { key_of (index_beside_blanks (rising Reg 0 1 ∷ rising Reg 2 2 ∷ []))
        (codes "01  ") ≡ Some (codes "0  ") }
{}

/// In which order an index has records 1, 2, ..
pub fn order_by_example()
    ensures unsigned { order_of (unique_by (rising Int 0 2 ∷ [])) four_numbers ≡ 1 ∷ 2 ∷ 3 ∷ 4 ∷ [] }
    ensures signed { order_of (unique_by (rising Sgn 0 2 ∷ [])) four_numbers ≡ 4 ∷ 1 ∷ 2 ∷ 3 ∷ [] }
    ensures descending { order_of (unique_by (falling Int 0 2 ∷ [])) four_numbers
        ≡ 4 ∷ 3 ∷ 2 ∷ 1 ∷ [] }
    ensures duplicates { order_of (index_by (rising Reg 0 1 ∷ []))
        (codes "Aab" ∷ codes "Aaa" ∷ codes "Aac" ∷ [])
        ≡ 1 ∷ 2 ∷ 3 ∷ [] }
    ensures text { order_of (index_by (rising Reg 0 3 ∷ []))
        (codes "Aab" ∷ codes "Aaa" ∷ codes "Aac" ∷ [])
        ≡ 2 ∷ 1 ∷ 3 ∷ [] }
    ensures upper { order_of (index_by (rising Ureg 0 5 ∷ [])) (codes "Miller" ∷ codes "adams" ∷ [])
        ≡ 2 ∷ 1 ∷ [] }
    ensures blank { order_of (index_beside_blanks (rising Reg 2 2 ∷ []))
        (codes "01  " ∷ codes "02XY" ∷ [])
        ≡ 2 ∷ [] }
{}

/// Which definitions are valid: segments lie in the bytes that each image has.
pub fn validity_by_example()
    ensures whole { is_valid (def_of (Fixed 4) (unique_by (rising Reg 0 4 ∷ []))) ≡ true }
    ensures past { is_valid (def_of (Fixed 4) (unique_by (rising Reg 2 4 ∷ []))) ≡ false }
    ensures least { is_valid (def_of (Variable 2 10) (index_by (rising Reg 0 2 ∷ []))) ≡ true }
    ensures past_least { is_valid (def_of (Variable 2 10) (index_by (rising Reg 1 2 ∷ []))) ≡ false }
    ensures long { is_valid (def_of (Fixed 3840) (index_by (rising Reg 0 128 ∷ []))) ≡ true }
    ensures too_long { is_valid (def_of (Fixed 3841) (index_by (rising Reg 0 1 ∷ []))) ≡ false }
    ensures long_key { is_valid (def_of (Fixed 200)
        (index_by (rising Reg 0 128 ∷ rising Reg 0 1 ∷ []))) ≡ false }
    ensures no_number { is_valid (def_of (Fixed 4) (index_by (rising Int 0 3 ∷ []))) ≡ false }
    ensures empty { is_valid (def_of (Fixed 4) (index_by (rising Reg 0 0 ∷ []))) ≡ false }
    ensures least_over_most { is_valid (def_of (Variable 5 4)
        (index_by (rising Reg 0 2 ∷ []))) ≡ false }
    ensures no_segment { is_valid (def_of (Fixed 4) (index_by [])) ≡ false }
    ensures eight_segments { is_valid (def_of (Fixed 4)
        (index_by (replicate 8 (rising Reg 0 1)))) ≡ true }
    ensures nine_segments { is_valid (def_of (Fixed 4)
        (index_by (replicate 9 (rising Reg 0 1)))) ≡ false }
    ensures no_index { is_valid (def_with []) ≡ false }
    ensures eight_indexes { is_valid (def_with (codes "abcdefgh")) ≡ true }
    ensures nine_indexes { is_valid (def_with (codes "abcdefghi")) ≡ false }
    ensures same_names { is_valid (def_with (codes "abca")) ≡ false }
{}

/// Which names are valid.
pub fn names_by_example()
    ensures each_kind { is_name (codes "Az09_.-") ≡ true }
    ensures blank { is_name (codes "a b") ≡ false }
    ensures none { is_name [] ≡ false }
    ensures longest { is_name (replicate 32 97) ≡ true }
    ensures too_long { is_name (replicate 33 97) ≡ false }
{}

/// Beside an image of 2000 bytes the second may have 1952 bytes and no more.
/// Block 1 begins with number 128.
pub fn room_by_example()
    ensures used { block_use 0 two_large ≡ 3916 }
    ensures grown { has_room 2 (replicate 1952 0) two_large ≡ true }
    ensures too_large { has_room 2 (replicate 1953 0) two_large ≡ false }
    ensures same_block { has_room 127 (replicate 1953 0) two_large ≡ false }
    ensures next_block { has_room 128 (replicate 1953 0) two_large ≡ true }
{}

/// A key stands once in a unique index, beside the record's own.
pub fn images_by_example()
    ensures same_key { may_stand part 2 (codes "0001") ≡ false }
    ensures other_key { may_stand part 2 (codes "0002") ≡ true }
    ensures own_key { may_stand part 1 (codes "0001") ≡ true }
    ensures duplicate { may_stand bins 2 (codes "0001") ≡ true }
    ensures longer { may_stand bins 2 (codes "00011") ≡ false }
{}
