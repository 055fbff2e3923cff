//! Where operations may begin.

ghost use Rattle.std.specs.Prelude.{◌≡◌, ◌≤◌, ℕ, [], length};
ghost use Rattle.ct_definitions.specs.Pairs.{Pair};
ghost use Rattle.ct_node.specs.MemWorlds.{new_world};
ghost use Rattle.ct_node.specs.declared.target.Target.TheVariants.{At};
ghost use Rattle.ct_tree_laws.specs.declared.walk.Walk.{Walk};
ghost use Rattle.ct_tree_laws.specs.declared.walk.Stage.TheVariants.{Start};
ghost use Rattle.ct_tree_laws.specs.Trees.{Chain};
ghost use Rattle.ct_tree_laws.specs.Stands.{Stands};

/// A new index in memory has no pair, and any operation may begin on it.
pub fn begins_in_memory()
    ensures stands { (key_len : ℕ) → 1 ≤ key_len → key_len ≤ 128 → (walk : Walk) → walk.at ≡ record { page = 0; index = 0 } → ((pair : Pair) → walk.target ≡ At pair → length pair.key ≡ key_len) → Stands walk Start (new_world key_len) }
    ensures pairs { (key_len : ℕ) → 1 ≤ key_len → key_len ≤ 128 → Chain (new_world key_len) (record { page = 0; index = 0 }) [] }
{}
