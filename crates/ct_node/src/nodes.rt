//! The trait `Nodes`: the pages that the nodes of indexes stand in, with latches on them.

ghost use Rattle.std.specs.Prelude.{◌≡◌, ℕ, ◌≤◌, ◌<◌, List, Option, Some, None, true, false, length, find, filter, not, ◌==◌};
ghost use Rattle.ct_latch.specs.Latches.{is_of, bars, with_hold, with_share};
ghost use Rattle.ct_disk.specs.declared.turn.HaltCause.{HaltCause};
ghost use Rattle.ct_disk.specs.declared.turn.StepFault.{StepFault};
ghost use Rattle.ct_node.specs.declared.root.Mark.{Mark};
ghost use Rattle.ct_node.specs.Worlds.{World, Holds, page_at, has_own, with_fresh, with_holds, edited, rooted, row_in, with_lost, Move, RaisesRoot, IsTidy, no_mark, Effect, Allowed, Meant};
ghost use Rattle.ct_node.specs.Turns.{OnDone, OnBusy, After, LatchedBy, Caused, CausedTurn, LeavesLess, kept_cause, mark_by};

use crate::node::Node;
use crate::root::{Mark, Root};
use ct_disk::{StepFault, Turn};

/// The pages of indexes, which operations visit in turns. Each call but `node`, `free`, `free_all`
/// and `bad` is one step of a turn. A call that is not done leaves the pages and the latches as they
/// were; `More` says that it is to be made again, and that less work of the pages' own is left.
pub trait Nodes {
    /// The pages, the latches and the pages that no link reaches yet.
    ghost world: { Self → World };

    /// The pages are those of a sound store: operations alone made them. These pages are lost, which
    /// no link reaches and no operation has.
    ghost sound: { Self → List ℕ → Type 0 };

    /// How the pages have gone on from one value to another: of all steps of transactions this one was
    /// made, or none.
    ghost goes: { Self → Mark → Self → Type 0 };

    /// Why the pages have halted, if they have.
    ghost halted: { Self → Option HaltCause };

    /// How many reads have failed, up to 2^64 - 1.
    ghost faults: { Self → ℕ };

    /// The operation that owns the flush of the log, where one does.
    ghost flushes: { Self → Option ℕ };

    /// Which steps of transactions an operation may make, and the marks that they bear.
    ghost allows: { Self → ℕ → Mark → Effect → Type 0 };

    /// Whether the node of a page is at hand, to be read where it stands.
    ghost shows: { Self → ℕ → Type 0 };

    /// How much work of their own the pages have, at most, before they do what they are asked for.
    ghost left: { Self → ℕ };

    /// How many pages there are.
    fn pages(&self) -> u64
        ensures { result ≡ length (world self.now).pages };

    /// Looks at a page: its node is at hand afterwards.
    fn look(&mut self, op: u64, page: u64) -> Turn<()>
        ensures shown { OnDone result (λ _. shows self.new page) }
        ensures sound { (lost : List ℕ) → sound self.old lost → sound self.new lost }
        ensures goes { goes self.old no_mark self.new }
        ensures world { world self.new ≡ world self.old }
        ensures busy { OnBusy result (λ other. flushes self.old ≡ Some other) }
        ensures flushes { OnDone result (λ _. flushes self.new ≡ flushes self.old) }
        ensures left { LeavesLess result (left self.old) (left self.new) }
        ensures cause { CausedTurn result (faults self.old) (faults self.new) (halted self.old) (halted self.new) };

    /// The node of a page that was looked at, where it stands.
    fn node(&self, page: u64) -> &Node
        requires { shows self.now page }
        ensures { page_at (world self.now) page ≡ Holds result.now };

    /// Writes a node into a page.
    fn edit(&mut self, op: u64, page: u64, node: &Node, mark: Mark) -> Turn<()>
        requires mark { Allowed (allows self.old op mark) mark page node.now (world self.old) }
        ensures sound { (lost : List ℕ) → sound self.old lost → OnDone result (λ _. Move op page node.now mark (with_lost lost (world self.old)) × Meant (allows self.old op mark) mark page node.now (world self.old)) → sound self.new lost }
        ensures goes { goes self.old (mark_by result mark) self.new }
        ensures world { After result (λ _. edited op page node.now (world self.old)) (world self.old) (world self.new) }
        ensures busy { OnBusy result (λ other. flushes self.old ≡ Some other) }
        ensures left { LeavesLess result (left self.old) (left self.new) }
        ensures cause { CausedTurn result (faults self.old) (faults self.new) (halted self.old) (halted self.new) };

    /// Allocates a page, which belongs to the operation until a link reaches it.
    fn fresh(&mut self, op: u64) -> Turn<u64>
        ensures page { OnDone result (λ page. page ≡ length (world self.old).pages) }
        ensures sound { (lost : List ℕ) → sound self.old lost → sound self.new lost }
        ensures goes { goes self.old no_mark self.new }
        ensures world { After result (λ _. with_fresh op (world self.old)) (world self.old) (world self.new) }
        ensures busy { OnBusy result (λ other. flushes self.old ≡ Some other) }
        ensures left { LeavesLess result (left self.old) (left self.new) }
        ensures cause { CausedTurn result (faults self.old) (faults self.new) (halted self.old) (halted self.new) };

    /// Lets an operation share a page, unless another has it for itself.
    fn share(&mut self, op: u64, page: u64) -> Turn<()>
        ensures sound { (lost : List ℕ) → sound self.old lost → sound self.new lost }
        ensures goes { goes self.old no_mark self.new }
        ensures world { After result (λ _. with_holds (with_share page op (world self.old).holds) (world self.old)) (world self.old) (world self.new) }
        ensures busy { LatchedBy result (find (bars page op false) (world self.old).holds) }
        ensures left { LeavesLess result (left self.old) (left self.new) }
        ensures cause { CausedTurn result (faults self.old) (faults self.new) (halted self.old) (halted self.new) };

    /// Lets an operation have a page for itself, unless another holds it.
    fn own(&mut self, op: u64, page: u64) -> Turn<()>
        ensures sound { (lost : List ℕ) → sound self.old lost → sound self.new lost }
        ensures goes { goes self.old no_mark self.new }
        ensures world { After result (λ _. with_holds (with_hold (record { node = page; op = op; own = true }) (world self.old).holds) (world self.old)) (world self.old) (world self.new) }
        ensures busy { LatchedBy result (find (bars page op true) (world self.old).holds) }
        ensures left { LeavesLess result (left self.old) (left self.new) }
        ensures cause { CausedTurn result (faults self.old) (faults self.new) (halted self.old) (halted self.new) };

    /// Gives back the latch that an operation has on a page, where it has one.
    fn free(&mut self, op: u64, page: u64)
        ensures sound { (lost : List ℕ) → sound self.old lost → IsTidy op (with_lost lost (world self.old)) → sound self.new lost }
        ensures goes { goes self.old no_mark self.new }
        ensures world { world self.new ≡ with_holds (filter (λ hold. not (is_of page op hold)) (world self.old).holds) (world self.old) }
        ensures faults { faults self.new ≡ faults self.old }
        ensures halted { halted self.new ≡ halted self.old };

    /// Gives back all latches that an operation has.
    fn free_all(&mut self, op: u64)
        ensures sound { (lost : List ℕ) → sound self.old lost → IsTidy op (with_lost lost (world self.old)) → sound self.new lost }
        ensures goes { goes self.old no_mark self.new }
        ensures world { world self.new ≡ with_holds (filter (λ hold. not (hold.op == op)) (world self.old).holds) (world self.old) }
        ensures faults { faults self.new ≡ faults self.old }
        ensures halted { halted self.new ≡ halted self.old };

    /// The page of an index's root.
    fn root(&mut self, op: u64, at: Root) -> Turn<u64>
        ensures seen { OnDone result (λ page. (row : _) × (row_in at.index (page_at (world self.old) at.page) ≡ Some row) × (page ≡ row.root)) }
        ensures sound { (lost : List ℕ) → sound self.old lost → sound self.new lost }
        ensures goes { goes self.old no_mark self.new }
        ensures world { world self.new ≡ world self.old }
        ensures busy { OnBusy result (λ other. flushes self.old ≡ Some other) }
        ensures left { LeavesLess result (left self.old) (left self.new) }
        ensures cause { CausedTurn result (faults self.old) (faults self.new) (halted self.old) (halted self.new) };

    /// Names another root of an index.
    fn set_root(&mut self, op: u64, at: Root, page: u64) -> Turn<()>
        ensures sound { (lost : List ℕ) → sound self.old lost → OnDone result (λ _. RaisesRoot op at page (with_lost lost (world self.old))) → sound self.new lost }
        ensures goes { goes self.old no_mark self.new }
        ensures world { After result (λ _. rooted op at page (world self.old)) (world self.old) (world self.new) }
        ensures busy { OnBusy result (λ other. flushes self.old ≡ Some other) }
        ensures left { LeavesLess result (left self.old) (left self.new) }
        ensures cause { CausedTurn result (faults self.old) (faults self.new) (halted self.old) (halted self.new) };

    /// Halts for a page that is outside its role. The cause of an earlier halt is kept.
    fn bad(&mut self, page: u64) -> StepFault
        ensures goes { goes self.old no_mark self.new }
        ensures world { world self.new ≡ world self.old }
        ensures is { result ≡ StepFault.Halted (kept_cause (halted self.old) page) }
        ensures faults { faults self.new ≡ faults self.old }
        ensures cause { Caused result (faults self.old) (faults self.new) (halted self.old) (halted self.new) };

    /// What stays as it is goes on without a step.
    ghost goes_nowhere: { (nodes : Self) → goes nodes no_mark nodes };

    /// What goes on without a step, before or after one, goes on by that step.
    ghost then_goes: { (first mid last : Self) (mark : Mark) → goes first no_mark mid → goes mid mark last → goes first mark last };

    ghost goes_then: { (first mid last : Self) (mark : Mark) → goes first mark mid → goes mid no_mark last → goes first mark last };

    /// Where no step is made, the steps that may be made stay.
    ghost goes_allows: { (first last : Self) (op : ℕ) (mark : Mark) (effect : Effect) → goes first no_mark last → allows first op mark effect → allows last op mark effect };
}
