//! What holds between the writes of a split and between those of a new root, and what the levels of
//! a tree are.

ghost use Rattle.std.specs.Prelude.{◌≡◌, ℕ, List, Some, true, false, length, ◌^◌};
ghost use Rattle.ct_node.specs.declared.root.Root.{Root};
ghost use Rattle.std.specs.List.{All};
ghost use Rattle.ct_node.specs.declared.root.IndexRow.{IndexRow};
ghost use Rattle.ct_node.specs.Nodes.{Entry, NodeValue};
ghost use Rattle.ct_node.specs.Halves.{upper_half};
ghost use Rattle.ct_node.specs.Worlds.{World, Holds, page_at, IsLevel, IsBeside, IsOneAbove, has_own, is_fresh, row_in, with_lost, edited, Move};
ghost use Rattle.ct_node.specs.declared.root.Mark.{Mark};
ghost use Rattle.ct_definitions.specs.Pairs.{Pair};
ghost use Rattle.ct_node.specs.declared.target.Target.TheVariants.{At};
ghost use Rattle.ct_tree_laws.specs.declared.walk.Stage.{Stage};
ghost use Rattle.ct_tree_laws.specs.Stops.{stopped};
ghost use Rattle.ct_tree_laws.specs.declared.walk.Walk.{Walk};
ghost use Rattle.ct_tree_laws.specs.declared.walk.Stage.TheVariants.{Start, Cut, Post};
ghost use Rattle.ct_tree_laws.specs.declared.rise.Separator.{Separator};
ghost use Rattle.ct_tree_laws.specs.declared.rise.Rise.TheVariants as Rise;
ghost use Rattle.ct_tree_laws.specs.Trees.{Tree, IsOf, IsTree, IsApart, IsAmong, Link, link_of};
ghost use Rattle.ct_tree_laws.specs.Stands.{Stands, Keeps};

/// Between the two writes of a split, of a leaf or an inner node, the right page equals the upper
/// half of a node that the operation has for itself. Between the write and the naming of a new root
/// the definition page is the operation's own. No link of any tree leads to such a page: no leaf,
/// right link, entry or root.
pub fn half_split_is_not_reached()
    ensures half { (walk : Walk) (page right : ℕ) (w : World) → Stands walk (Cut page right) w → (node : NodeValue) × (page_at w page ≡ Holds node) × (has_own walk.op page w ≡ true) × (page_at w right ≡ Holds (upper_half node)) × (is_fresh right w ≡ true) }
    ensures half_above { (walk : Walk) (separator : Separator) (page right : ℕ) (w : World) → Stands walk (Post separator (Rise.Cut page right)) w → (node : NodeValue) × (page_at w page ≡ Holds node) × (has_own walk.op page w ≡ true) × (page_at w right ≡ Holds (upper_half node)) × (is_fresh right w ≡ true) }
    ensures new_root { (walk : Walk) (separator : Separator) (root : ℕ) (w : World) → Stands walk (Post separator (Rise.Crowned root)) w → (node : NodeValue) × (page_at w root ≡ Holds node) × (node.leaf ≡ false) × (has_own walk.op walk.at.page w ≡ true) × (is_fresh root w ≡ true) }
    ensures no_leaf { (w : World) (at : Root) (t : Tree) (leaves : List ℕ) (right : ℕ) → IsTree w at t leaves → is_fresh right w ≡ true → IsAmong right leaves → ⊥ }
    ensures no_link { (w : World) (at : Root) (t : Tree) (leaves : List ℕ) (right page : ℕ) (node : NodeValue) (link : Link) → IsTree w at t leaves → is_fresh right w ≡ true → page_at w page ≡ Holds node → IsOf t node → is_fresh page w ≡ false → link_of node ≡ Some link → link.page ≡ right → ⊥ }
    ensures no_entry { (w : World) (at : Root) (t : Tree) (leaves : List ℕ) (right page : ℕ) (node : NodeValue) → IsTree w at t leaves → is_fresh right w ≡ true → page_at w page ≡ Holds node → IsOf t node → is_fresh page w ≡ false → node.leaf ≡ false → All (λ (entry : Entry). entry.child ≡ right → ⊥) node.entries }
    ensures no_root { (w : World) (at : Root) (t : Tree) (leaves : List ℕ) (right : ℕ) (row : IndexRow) → IsTree w at t leaves → is_fresh right w ≡ true → row_in at.index (page_at w at.page) ≡ Some row → row.root ≡ right → ⊥ }
{}

/// Each edit that is a move of an operation leaves each tree a tree, and what every other operation
/// remembers stands; whichever pages are lost.
pub fn moves_keep_trees()
    ensures tree { (op page : ℕ) (new : NodeValue) (mark : Mark) (w : World) (at : Root) (t : Tree) (leaves : List ℕ) → IsApart w → Move op page new mark w → IsTree w at t leaves → (after : List ℕ) × IsTree (edited op page new w) at t after }
    ensures apart { (op page : ℕ) (new : NodeValue) (mark : Mark) (w : World) → IsApart w → Move op page new mark w → IsApart (edited op page new w) }
    ensures keeps { (op page : ℕ) (new : NodeValue) (mark : Mark) (w : World) → IsApart w → Move op page new mark w → Keeps op w (edited op page new w) }
{}

/// A stop leaves each tree a tree: the pages of operations that were under way are lost. Any operation
/// may begin on it.
pub fn a_stop_leaves_trees()
    ensures tree { (lost : List ℕ) (w : World) (at : Root) (t : Tree) (leaves : List ℕ) → IsTree (with_lost lost w) at t leaves → IsTree (stopped lost w) at t leaves }
    ensures apart { (lost : List ℕ) (w : World) → IsApart (with_lost lost w) → IsApart (stopped lost w) }
    ensures begins { (lost : List ℕ) (w : World) (before walk : Walk) (at : Stage) → Stands before at (with_lost lost w) → walk.at ≡ before.at
        → ((pair : Pair) (tree : Tree) (leaves : List ℕ) → IsTree (with_lost lost w) before.at tree leaves → walk.target ≡ At pair → length pair.key ≡ tree.key_len)
        → (walk.op ≡ 2 ^ 64 → ⊥) → Stands walk Start (stopped lost w) }
{}

/// A page stands on one level at most. In a tree the right link of a node leads to a page of its
/// level, and each page below it is one level lower.
pub fn levels_are_even()
    ensures one { (w : World) (level other page : ℕ) → IsLevel w level page → IsLevel w other page → level ≡ other }
    ensures right { (w : World) (at : Root) (t : Tree) (leaves : List ℕ) (page : ℕ) (node : NodeValue) (link : Link) → IsTree w at t leaves → page_at w page ≡ Holds node → IsOf t node → is_fresh page w ≡ false → link_of node ≡ Some link → IsBeside w page link.page }
    ensures below { (w : World) (at : Root) (t : Tree) (leaves : List ℕ) (page : ℕ) (node : NodeValue) → IsTree w at t leaves → page_at w page ≡ Holds node → IsOf t node → is_fresh page w ≡ false → node.leaf ≡ false → All (λ (entry : Entry). IsOneAbove w page entry.child) node.entries }
{}
