//! What follows of the definitions of a node's page.

ghost use Rattle.std.specs.Prelude.{◌≡◌, List, ℕ, Some};
ghost use Rattle.ct_page.specs.Fields.{u64_at};
ghost use Rattle.ct_page.specs.Headers.{IsPage, with_position};
ghost use Rattle.ct_node.specs.Nodes.{NodeValue, IsNode};
ghost use Rattle.ct_node.specs.Pages.{node_in, page_text};

/// What a page shows as a node is one, and a page is spelled by what it shows and its position.
pub fn node_pages_are_exact()
    ensures nodes { (page : List ℕ) (node : NodeValue) → node_in page ≡ Some node → IsNode node }
    ensures spelled { (page : List ℕ) (node : NodeValue) → IsPage page → node_in page ≡ Some node → page_text (u64_at 8 page) node ≡ page }
{}

/// A page with another position is a node where it was one, and that same node; the page of a node
/// with another position is its page with that position.
pub fn positions_keep_nodes()
    ensures node { (position : ℕ) (page : List ℕ) → IsPage page → node_in (with_position position page) ≡ node_in page }
    ensures text { (position other : ℕ) (node : NodeValue) → with_position position (page_text other node) ≡ page_text position node }
{}
