//! How a walk comes to a page, and so what the node there must be: its role. A page that is read
//! from a device may hold anything.

ghost use Rattle.std.specs.Prelude.{◌≡◌};
ghost use Rattle.ct_node.specs.Reaches.{key_len_of, reach_root};

use crate::pair::Pair;
use crate::root::Root;
use crate::target::Target;

/// What is known of the node of a page by the way that leads there: its file, whether it is a leaf
/// and how many bytes its keys have, where that is known; its index; and the pair at which it
/// begins, or none where it is open to the left.
#[derive(Debug, Drop)]
pub struct Reach {
    pub file: Option<u16>,
    pub index: u16,
    pub leaf: Option<bool>,
    pub key_len: Option<usize>,
    pub low: Option<Pair>,
}

impl Reach {
    /// The way to the root of an index. Its keys are as long as the key of a target at a pair.
    pub fn root(at: Root, target: &Target) -> Reach
        ensures { result ≡ reach_root at target.now }
    {
        Reach {
            file: None,
            index: at.index,
            leaf: None,
            key_len: key_len_of(target),
            low: None,
        }
    }
}

/// How many bytes the keys of a target have, where it tells.
fn key_len_of(target: &Target) -> Option<usize>
    ensures { result ≡ key_len_of target.now }
{
    match target {
        Target::First => None,
        Target::Last => None,
        Target::At(pair) => Some(pair.key.as_slice().len()),
        Target::Before(_) => None,
    }
}
