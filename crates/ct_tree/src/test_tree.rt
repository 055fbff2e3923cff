//! An index in memory for tests, whose pairs go by number.

ghost use Rattle.std.specs.Prelude.{◌≤◌, IfOk};
ghost use Rattle.ct_tree.specs.Schedules.{IsReady};
ghost use Rattle.ct_tree.specs.Answers.{IsPair, IsSearchingBy};

use super::*;
use ct_disk::{StepFault, Turn};
use ct_items::NoMemory;
use ct_key::KeyBuf;
use ct_node::{Mark, MemNodes, Pair, Root, Target};
use std::alloc::{AllocFailed, Global};

/// The index of each such tree.
pub(crate) const INDEX: Root = Root { page: 0, index: 0 };

/// How many turns an operation has at most that no other is beside.
const TURNS: u32 = 5000;

/// How many pairs a walk finds at most.
const PAIRS: u32 = 10_000;

/// Why a test can't go on.
#[derive(Clone, Copy, Debug, PartialEq, Eq, Drop)]
pub(crate) enum Stop {
    /// There is no memory.
    Memory,
    /// This operation is in the way of one that none should be beside.
    Busy { op: u64 },
    /// A turn was refused.
    Refused(StepFault),
    /// An operation has not ended after many turns, or a walk after many pairs.
    Endless,
    /// An operation on the pair with this number told something wrong.
    Wrong { number: u64 },
}

impl From<NoMemory> for Stop {
    fn from(_refusal: NoMemory) -> Stop {
        Stop::Memory
    }
}

impl<T: Drop> From<AllocFailed<T>> for Stop {
    fn from(_refusal: AllocFailed<T>) -> Stop {
        Stop::Memory
    }
}

/// The pairs of a tree: how many bytes a key has, and how many pairs in a row have the same one.
#[derive(Clone, Copy)]
pub(crate) struct Shape {
    pub key_len: u16,
    pub alike: u64,
    ghost some_key: { 1 ≤ key_len },
    ghost short_key: { key_len ≤ 128 },
    ghost some_pair: { 1 ≤ alike },
}

/// A tree, and what its tests need to begin operations on it.
#[derive(Drop)]
pub(crate) struct TestTree {
    alloc: Global,
    shape: Shape,
    pub nodes: MemNodes,
    last_op: u64,
}

impl TestTree {
    /// A tree without pairs.
    pub(crate) fn new(alloc: Global, shape: Shape) -> Result<TestTree, NoMemory> {
        let nodes = MemNodes::new(alloc, shape.key_len)?;
        Ok(TestTree {
            alloc,
            shape,
            nodes,
            last_op: 0,
        })
    }

    /// The number of an operation that has not begun yet.
    pub(crate) fn new_op(&mut self) -> u64 {
        self.last_op = self.last_op.wrapping_add(1);
        self.last_op
    }

    /// The pair with this number. Its key is the number divided, in the last bytes; it is of the
    /// record with the number, so pairs rise with their numbers.
    pub(crate) fn target(&self, number: u64) -> Result<Target, NoMemory>
        ensures { IfOk result IsPair }
    {
        let mut bytes = [0; 128];
        bytes[120..].copy_from_slice(&(number / self.shape.alike).to_be_bytes());
        let first = 128 - usize::from(self.shape.key_len);
        let key = KeyBuf::from_slice(self.alloc, &bytes[first..])?;
        Ok(Target::At(Pair { key, num: number }))
    }

    /// A put of the pair with this number.
    pub(crate) fn new_put(&self, op: u64, number: u64) -> Result<Program, NoMemory>
        ensures { IfOk result IsReady }
    {
        let target = self.target(number)?;
        Ok(Program::Put(Put::new(self.alloc, op, INDEX, target, Mark::NONE)))
    }

    /// A take of the pair with this number.
    pub(crate) fn new_take(&self, op: u64, number: u64) -> Result<Program, NoMemory>
        ensures { IfOk result IsReady }
    {
        let target = self.target(number)?;
        Ok(Program::Take(Take::new(self.alloc, op, INDEX, target, Mark::NONE)))
    }

    /// A search by a new operation.
    pub(crate) fn new_search(&mut self, target: Target, seek: Seek) -> Search
        ensures { IsSearchingBy result.seek result.stage }
    {
        let op = self.new_op();
        Search::new(self.alloc, op, INDEX, target, seek)
    }

    /// One turn of a program.
    pub(crate) fn turn(&mut self, program: &mut Program) -> Turn<Answer>
        requires { IsReady program.old }
        ensures { IsReady program.new }
    {
        turn(program, &mut self.nodes)
    }

    /// One turn of a search.
    pub(crate) fn turn_search(&mut self, search: &mut Search) -> Turn<Option<Pair>>
        requires { IsSearchingBy search.old.seek search.old.stage }
        ensures { IsSearchingBy search.new.seek search.new.stage }
    {
        search.turn(&mut self.nodes)
    }

    /// Ends a search.
    pub(crate) fn end(&mut self, search: &mut Search)
        requires { IsSearchingBy search.old.seek search.old.stage }
    {
        search.end(&mut self.nodes);
    }

    /// Gives turns to a program that no other should be in the way of, until it ends.
    pub(crate) fn run(&mut self, program: &mut Program) -> Result<Answer, Stop>
        requires { IsReady program.old }
        ensures { IsReady program.new }
    {
        for _turn in 0..TURNS {
            match self.turn(program) {
                Turn::Done(answer) => return Ok(answer),
                Turn::More => {}
                Turn::Busy { op } => return Err(Stop::Busy { op }),
                Turn::Refused(fault) => return Err(Stop::Refused(fault)),
            }
        }
        Err(Stop::Endless)
    }

    /// Puts the pair with this number.
    pub(crate) fn put(&mut self, number: u64) -> Result<(), Stop> {
        let op = self.new_op();
        let mut put = self.new_put(op, number)?;
        self.run_put(&mut put, number)
    }

    fn run_put(&mut self, put: &mut Program, number: u64) -> Result<(), Stop>
        requires { IsReady put.old }
    {
        match self.run(put)? {
            Answer::Put => Ok(()),
            _ => Err(Stop::Wrong { number }),
        }
    }

    /// Puts the pairs from the last one down to the first.
    pub(crate) fn put_down(&mut self, first: u64, last: u64) -> Result<(), Stop> {
        for number in (first..=last).rev() {
            self.put(number)?;
        }
        Ok(())
    }

    /// Takes the pair with this number; whether it was there.
    pub(crate) fn take(&mut self, number: u64) -> Result<bool, Stop> {
        let op = self.new_op();
        let mut take = self.new_take(op, number)?;
        self.run_take(&mut take, number)
    }

    fn run_take(&mut self, take: &mut Program, number: u64) -> Result<bool, Stop>
        requires { IsReady take.old }
    {
        match self.run(take)? {
            Answer::Taken(found) => Ok(found),
            _ => Err(Stop::Wrong { number }),
        }
    }

    /// The pair that a search finds.
    pub(crate) fn find(&mut self, target: Target, seek: Seek) -> Result<Option<Pair>, Stop> {
        let mut search = self.new_search(target, seek);
        let found = self.run_search(&mut search);
        self.end(&mut search);
        found
    }

    /// Gives turns to a search that no other operation should be in the way of, until it ends.
    pub(crate) fn run_search(&mut self, search: &mut Search) -> Result<Option<Pair>, Stop>
        requires { IsSearchingBy search.old.seek search.old.stage }
        ensures { IsSearchingBy search.new.seek search.new.stage }
    {
        for _turn in 0..TURNS {
            match self.turn_search(search) {
                Turn::Done(found) => return Ok(found),
                Turn::More => {}
                Turn::Busy { op } => return Err(Stop::Busy { op }),
                Turn::Refused(fault) => return Err(Stop::Refused(fault)),
            }
        }
        Err(Stop::Endless)
    }

    /// The number of the pair that a search around this one finds.
    pub(crate) fn find_beside(&mut self, number: u64, seek: Seek) -> Result<Option<u64>, Stop> {
        let target = self.target(number)?;
        Ok(self.find(target, seek)?.map(|pair| pair.num))
    }

    /// The numbers of the pairs that searches to the right find one after another.
    pub(crate) fn rising(&mut self) -> Result<Vec<u64>, Stop> {
        self.walk(Target::First, Seek::Above)
    }

    /// The numbers of the pairs that searches to the left find one after another.
    pub(crate) fn falling(&mut self) -> Result<Vec<u64>, Stop> {
        self.walk(Target::Last, Seek::Below)
    }

    /// The numbers of the pairs found, each beside the one before.
    fn walk(&mut self, from: Target, seek: Seek) -> Result<Vec<u64>, Stop> {
        let mut numbers = Vec::new(self.alloc);
        let mut target = from;
        for _pair in 0..PAIRS {
            let Some(pair) = self.find(target, seek)? else {
                return Ok(numbers);
            };
            numbers.push(pair.num)?;
            target = Target::At(pair);
        }
        Err(Stop::Endless)
    }
}

/// Each number from 1 to the last one, in no order, as the places rise. The last one has no factor 1201.
pub(crate) fn mixed(place: u64, last: u64) -> u64
    requires { 1 ≤ last }
    ensures some { 1 ≤ result }
    ensures within { result ≤ last }
{
    place.wrapping_mul(1201) % last + 1
}
