//! Pages in memory, with real latches. Their faults come by a list of calls alone.

ghost use Rattle.std.specs.Prelude.{◌≡◌, ℕ, ◌≤◌, ◌==◌, ◌&&◌, ◌∷◌, ◌++◌, [], ◌+◌, not, true, false, MatchOption, IfOk, IfSome, filter, vec_len, vec_capacity};
ghost use Rattle.ct_node.specs.Worlds.{Holds, page_at, row_in, is_owner};
ghost use Rattle.ct_node.specs.Turns.{Caused, kept_cause};
ghost use Rattle.ct_node.specs.Nodes.{NodeValue};
ghost use Rattle.ct_disk.specs.declared.turn.StepFault.{StepFault};
ghost use Rattle.ct_node.specs.MemWorlds.{world_of, new_world, damaged, failing_of, counts_of, latest, refusal_of};

use crate::node::Node;
use crate::nodes::Nodes;
use crate::root::{IndexRow, Mark, Owner, Root};
use ct_disk::{HaltCause, StepFault, Turn};
use ct_items::NoMemory;
use ct_latch::Latches;
use std::alloc::Global;

/// What stands in a page.
#[derive(Drop)]
pub(crate) enum MemPage {
    Unwritten,
    Index(IndexRow),
    Tree(Node),
}

/// Pages in memory: page 0 is a definition page with one index, whose first leaf is page 1.
#[derive(Drop)]
pub struct MemNodes {
    pages: Vec<MemPage>,
    latches: Latches,
    fresh: Vec<Owner>,
    founded: bool,
    halted: Option<HaltCause>,
    faults: u64,
    calls: u64,
    failing: Vec<u64>,
    last: Mark,
}

impl MemNodes {
    /// An index without pairs, of keys of this length: index 0 of the definition in page 0.
    pub fn new(alloc: Global, key_len: u16) -> Result<MemNodes, NoMemory>
        requires some_key { 1 ≤ key_len }
        requires short_key { key_len ≤ 128 }
        ensures world { IfOk result (λ nodes. world_of nodes ≡ new_world key_len) }
        ensures sound { IfOk result (λ nodes. nodes.founded ≡ true) }
    {
        let mut pages = Vec::new(alloc);
        let row = IndexRow {
            root: 1,
            first: 1,
            key_len,
        };
        pages.push(MemPage::Index(row))?;
        pages.push(MemPage::Tree(Node::new(0, 0, true, key_len)))?;
        Ok(MemNodes {
            pages,
            latches: Latches::new(alloc),
            fresh: Vec::new(alloc),
            founded: true,
            halted: None,
            faults: 0,
            calls: 0,
            failing: Vec::new(alloc),
            last: Mark::NONE,
        })
    }

    /// Makes the call with this number fail. Calls count from 1.
    pub fn fail_at(&mut self, call: u64) -> Result<(), NoMemory>
        ensures plan { IfOk result (λ _. failing_of self.new ≡ failing_of self.old ++ call ∷ []) }
        ensures world { world_of self.new ≡ world_of self.old }
        ensures counts { counts_of self.new ≡ counts_of self.old }
    {
        self.failing.push(call)?;
        Ok(())
    }

    /// Writes any node into a page, where there is that page, as damage to a device may. From then on
    /// the pages are not those that operations alone made.
    pub fn damage(&mut self, page: u64, node: &Node)
        ensures world { world_of self.new ≡ damaged page node.now (world_of self.old) }
        ensures plan { failing_of self.new ≡ failing_of self.old }
        ensures counts { counts_of self.new ≡ counts_of self.old }
    {
        self.founded = false;
        if page < self.pages.len() as u64 {
            let mut copy = Node::new(0, 0, true, 1);
            node.copy_into(&mut copy);
            self.pages[page as usize] = MemPage::Tree(copy);
        }
    }

    /// Why a call is refused, if it is: after a halt each is, and else one whose number is among those
    /// that are to fail.
    fn refusal(&mut self) -> Option<StepFault>
        ensures is { result ≡ refusal_of self.old }
        ensures plan { failing_of self.new ≡ failing_of self.old }
        ensures world { world_of self.new ≡ world_of self.old }
        ensures founded { self.new.founded ≡ self.old.founded }
        ensures last { self.new.last ≡ self.old.last }
        ensures cause { MatchOption result ((self.new.faults ≡ self.old.faults) × (self.new.halted ≡ self.old.halted)) (λ fault. Caused fault self.old.faults self.new.faults self.old.halted self.new.halted) }
    {
        if let Some(cause) = self.halted {
            return Some(StepFault::Halted(cause));
        }
        self.calls = self.calls.saturating_add(1);
        if self.failing.as_slice().contains(&self.calls) {
            self.faults = self.faults.saturating_add(1);
            return Some(StepFault::Read);
        }
        None
    }

    /// Halts for a page, unless it has halted already.
    fn halt(&mut self, page: u64) -> StepFault
        ensures is { result ≡ StepFault.Halted (kept_cause self.old.halted page) }
        ensures faults { self.new.faults ≡ self.old.faults }
        ensures world { world_of self.new ≡ world_of self.old }
        ensures founded { self.new.founded ≡ self.old.founded }
        ensures last { self.new.last ≡ self.old.last }
        ensures cause { Caused result self.old.faults self.new.faults self.old.halted self.new.halted }
    {
        if let Some(cause) = self.halted {
            return StepFault::Halted(cause);
        }
        self.halted = Some(HaltCause::BadPage(page));
        StepFault::Halted(HaltCause::BadPage(page))
    }

    /// The node of a page.
    fn node_at(&self, page: u64) -> Option<&Node>
        ensures { MatchOption result ((node : NodeValue) → page_at (world_of self.now) page ≡ Holds node → ⊥) (λ node. page_at (world_of self.now) page ≡ Holds node.now) }
    {
        match self.pages.get(page as usize) {
            Some(MemPage::Tree(node)) => Some(node),
            _ => None,
        }
    }

    /// The row of an index.
    fn row(&self, at: Root) -> Option<IndexRow>
        ensures { result ≡ row_in at.index (page_at (world_of self.now) at.page) }
    {
        match self.pages.get(at.page as usize) {
            Some(MemPage::Index(row)) => {
                if at.index == 0 {
                    return Some(*row);
                }
                return None;
            }
            _ => return None,
        }
    }
}

/// The mark of the last step, once this step is made or none.
fn latest(mark: Mark, before: Mark) -> Mark
    ensures { result ≡ latest mark before }
{
    if mark.tran == 0 && mark.steps == 0 {
        before
    } else {
        mark
    }
}

/// Takes an operation's page out of those that no link reaches.
fn link_page(fresh: &mut Vec<Owner>, op: u64, page: u64)
    ensures { fresh.new.items ≡ filter (λ owner. not (is_owner op page owner)) fresh.old.items }
{
    fresh.retain(
        |owner: &Owner| -> bool
            ensures { result ≡ not (is_owner op page owner.now) }
        { !(owner.page == page && owner.op == op) },
    );
}

/// Puts an owner first, for which there is room.
fn put_first(fresh: &mut Vec<Owner>, owner: Owner)
    requires room { vec_len fresh.old + 1 ≤ vec_capacity fresh.old }
    ensures { fresh.new.items ≡ owner ∷ fresh.old.items }
{
    match fresh.insert(0, owner) {
        Ok(()) => {}
        Err(_refused) => unreachable!(),
    }
}

impl Nodes for MemNodes {
    ghost use Rattle.std.specs.Prelude.{◌≡◌, None};
    ghost use Rattle.ct_node.specs.Nodes.{NodeValue};
    ghost use Rattle.ct_node.specs.Worlds.{Holds, page_at};
    ghost use Rattle.ct_node.specs.MemWorlds.{world_of, latest};
    ghost use Rattle.std.proofs.Common.{refl, ap, ◌∙◌, true};

    ghost world = { world_of };

    ghost sound = { λ nodes lost. nodes.founded ≡ true };

    ghost goes = { λ old mark new. new.last ≡ latest mark old.last };

    ghost halted = { λ nodes. nodes.halted };

    ghost faults = { λ nodes. nodes.faults };

    ghost flushes = { λ nodes. None };

    ghost allows = { λ nodes op mark effect. Unit {0} };

    ghost goes_nowhere = { λ nodes. refl };

    ghost then_goes = { λ first mid last mark none one. one ∙ ap (latest mark) none };

    ghost goes_then = { λ first mid last mark one none. none ∙ one };

    ghost goes_allows = { λ first last op mark effect none allowed. tt };

    ghost shows = { λ nodes page. (node : NodeValue) × (page_at (world_of nodes) page ≡ Holds node) };

    ghost left = { λ nodes. 0 };

    fn pages(&self) -> u64 {
        self.pages.len() as u64
    }

    fn look(&mut self, _op: u64, page: u64) -> Turn<()> {
        if let Some(fault) = self.refusal() {
            return Turn::Refused(fault);
        }
        if self.node_at(page).is_some() {
            return Turn::Done(());
        }
        Turn::Refused(self.halt(page))
    }

    fn node(&self, page: u64) -> &Node {
        match self.node_at(page) {
            Some(node) => node,
            None => unreachable!(),
        }
    }

    fn edit(&mut self, op: u64, page: u64, node: &Node, mark: Mark) -> Turn<()> {
        if let Some(fault) = self.refusal() {
            return Turn::Refused(fault);
        }
        if page >= self.pages.len() as u64 {
            return Turn::Refused(self.halt(page));
        }
        let right = node.right();
        let mut copy = Node::new(0, 0, true, 1);
        node.copy_into(&mut copy);
        self.pages[page as usize] = MemPage::Tree(copy);
        link_page(&mut self.fresh, op, right);
        self.last = latest(mark, self.last);
        Turn::Done(())
    }

    fn fresh(&mut self, op: u64) -> Turn<u64> {
        if let Some(fault) = self.refusal() {
            return Turn::Refused(fault);
        }
        if self.fresh.reserve(1).is_err() {
            return Turn::Refused(StepFault::Memory);
        }
        let page = self.pages.len() as u64;
        if self.pages.push(MemPage::Unwritten).is_err() {
            return Turn::Refused(StepFault::Memory);
        }
        put_first(&mut self.fresh, Owner { page, op });
        Turn::Done(page)
    }

    fn share(&mut self, op: u64, page: u64) -> Turn<()> {
        if let Some(fault) = self.refusal() {
            return Turn::Refused(fault);
        }
        if self.latches.reserve(1).is_err() {
            return Turn::Refused(StepFault::Memory);
        }
        match self.latches.try_share(page, op) {
            Ok(()) => return Turn::Done(()),
            Err(held) => return Turn::Busy { op: held.op },
        }
    }

    fn own(&mut self, op: u64, page: u64) -> Turn<()> {
        if let Some(fault) = self.refusal() {
            return Turn::Refused(fault);
        }
        if self.latches.reserve(1).is_err() {
            return Turn::Refused(StepFault::Memory);
        }
        match self.latches.try_own(page, op) {
            Ok(()) => return Turn::Done(()),
            Err(held) => return Turn::Busy { op: held.op },
        }
    }

    fn free(&mut self, op: u64, page: u64) {
        self.latches.release(page, op);
    }

    fn free_all(&mut self, op: u64) {
        self.latches.release_all(op);
    }

    fn root(&mut self, _op: u64, at: Root) -> Turn<u64> {
        if let Some(fault) = self.refusal() {
            return Turn::Refused(fault);
        }
        match self.row(at) {
            Some(row) => return Turn::Done(row.root),
            None => {}
        }
        Turn::Refused(self.halt(at.page))
    }

    fn set_root(&mut self, op: u64, at: Root, page: u64) -> Turn<()> {
        if let Some(fault) = self.refusal() {
            return Turn::Refused(fault);
        }
        match self.row(at) {
            Some(row) => {
                let other = IndexRow {
                    root: page,
                    first: row.first,
                    key_len: row.key_len,
                };
                self.pages[at.page as usize] = MemPage::Index(other);
                link_page(&mut self.fresh, op, page);
                return Turn::Done(());
            }
            None => {}
        }
        Turn::Refused(self.halt(at.page))
    }

    fn bad(&mut self, page: u64) -> StepFault {
        self.halt(page)
    }
}
