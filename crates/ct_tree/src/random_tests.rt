//! Operations of all kinds beside one another, turn by turn in a random order. An ordered set of std
//! tells what each that ends should answer.

ghost use Rattle.std.specs.Prelude.{◌≡◌, ◌≤◌, ◌<◌, length, IfOk, IsTrue};
ghost use Rattle.std.specs.List.{All};
ghost use Rattle.ct_tree.specs.Schedules.{IsReady};
ghost use Rattle.ct_tree.specs.Answers.{IsSearchingBy};

use super::*;
use crate::test_tree::{Shape, Stop, TestTree};
use ct_disk::Turn;
use ct_node::{Pair, Target};
use std::alloc::Global;
use std::collections::BTreeSet;
use std::mem::replace;
use std::test::Fail;

/// How many puts and takes are under way.
const CHANGES: usize = 5;

/// How many searches are under way.
const LOOKS: usize = 3;

/// How many numbers there are in a stretch, and stretches in all.
const STRETCH: u64 = 100;

const STRETCHES: u64 = 16;

/// The last number of a pair.
const LAST: u64 = STRETCH * STRETCHES;

/// Keys so long that 27 pairs fill a leaf, some of them the same.
const SHAPE: Shape = Shape {
    key_len: 128,
    alike: 3,
};

/// Random numbers. A state is the one before times 6364136223846793005 plus 1442695040888963407,
/// modulo 2^64, of which the upper half is drawn.
#[derive(Drop)]
struct Random {
    state: u64,
}

impl Random {
    /// A number below this one.
    fn below(&mut self, end: u64) -> u64
        requires { 1 ≤ end }
        ensures { result < end }
    {
        self.state = self
            .state
            .wrapping_mul(6364136223846793005)
            .wrapping_add(1442695040888963407);
        (self.state >> 32) % end
    }
}

/// A put or a take of the pair with this number.
#[derive(Drop)]
struct Change {
    program: Program,
    number: u64,
}

/// A search around the pair with this number.
#[derive(Drop)]
struct Look {
    search: Search,
    number: u64,
    seek: Seek,
}

/// A tree, the numbers of the pairs that should stand in it, and how many operations there were.
#[derive(Drop)]
struct Crowd {
    tree: TestTree,
    numbers: BTreeSet<u64, Global>,
    random: Random,
    falls: bool,
    begun: u64,
    ended: u64,
}

impl Crowd {
    /// A number in the stretch that is so many ahead of the one where pairs are taken. The stretches
    /// go by as operations begin, up or down.
    fn number(&mut self, ahead: u64) -> u64
        ensures some { 1 ≤ result }
        ensures within { result ≤ LAST }
    {
        let stretch = (self.begun / 250).wrapping_add(ahead) % STRETCHES;
        let number = stretch * STRETCH + self.random.below(STRETCH);
        if self.falls {
            LAST - number
        } else {
            number + 1
        }
    }

    /// A put in one stretch or a take in the one behind it, one of eight the other way round. So
    /// leaves are split beside others that are emptied.
    fn new_change(&mut self) -> Result<Change, Stop>
        ensures { IfOk result (λ change. IsReady change.program) }
    {
        let takes = self.random.below(2) == 0;
        let usual = self.random.below(8) > 0;
        let number = self.number(if takes == usual { 0 } else { 1 });
        let op = self.tree.new_op();
        let program = if takes {
            self.tree.new_take(op, number)?
        } else {
            self.tree.new_put(op, number)?
        };
        self.begun = self.begun.wrapping_add(1);
        Ok(Change { program, number })
    }

    /// A search around a number of either stretch, one of eight from below all pairs or above them.
    fn new_look(&mut self) -> Result<Look, Stop>
        ensures { IfOk result (λ look. IsSearchingBy look.search.seek look.search.stage) }
    {
        let number = match self.random.below(16) {
            0 => 0,
            1 => LAST + 1,
            other => self.number(other % 2),
        };
        let seek = match self.random.below(4) {
            0 => Seek::AtOrAbove,
            1 => Seek::Above,
            2 => Seek::AtOrBelow,
            _ => Seek::Below,
        };
        let target = match number {
            0 => Target::First,
            _ if number > LAST => Target::Last,
            _ => self.tree.target(number)?,
        };
        let search = self.tree.new_search(target, seek);
        self.begun = self.begun.wrapping_add(1);
        Ok(Look {
            search,
            number,
            seek,
        })
    }

    /// The number that a search around this one should find.
    fn sought(&self, number: u64, seek: Seek) -> Option<u64> {
        match seek {
            Seek::AtOrAbove => self.numbers.range(number..).next().copied(),
            Seek::Above => {
                let next = number.saturating_add(1);
                self.numbers.range(next..).next().copied()
            }
            Seek::AtOrBelow => self.numbers.range(..=number).next_back().copied(),
            Seek::Below => self.numbers.range(..number).next_back().copied(),
        }
    }

    /// Makes in the set what a put or a take has made; whether its answer was right.
    fn follow(&mut self, number: u64, answer: Answer) -> Result<bool, Stop> {
        match answer {
            Answer::Put => {
                self.numbers.insert(number)?;
                Ok(true)
            }
            Answer::Taken(found) => Ok(self.numbers.remove(&number) == found),
            Answer::Found(_) => Ok(false),
        }
    }

    /// One turn of a put or a take; whether it has ended.
    fn turn_change(&mut self, change: &mut Change) -> Result<bool, Stop>
        requires { IsReady change.old.program }
        ensures { IsReady change.new.program }
    {
        let number = change.number;
        match self.tree.turn(&mut change.program) {
            Turn::Done(answer) => {
                self.ended = self.ended.wrapping_add(1);
                if self.follow(number, answer)? {
                    return Ok(true);
                }
                Err(Stop::Wrong { number })
            }
            Turn::More => Ok(false),
            Turn::Busy { op: _ } => Ok(false),
            Turn::Refused(fault) => Err(Stop::Refused(fault)),
        }
    }

    /// One turn of a search; whether it has found what it should.
    fn turn_look(&mut self, look: &mut Look) -> Result<bool, Stop>
        requires { IsSearchingBy look.old.search.seek look.old.search.stage }
        ensures { IsSearchingBy look.new.search.seek look.new.search.stage }
    {
        let number = look.number;
        match self.tree.turn_search(&mut look.search) {
            Turn::Done(found) => {
                self.ended = self.ended.wrapping_add(1);
                if found.map(|pair| pair.num) == self.sought(number, look.seek) {
                    return Ok(true);
                }
                Err(Stop::Wrong { number })
            }
            Turn::More => Ok(false),
            Turn::Busy { op: _ } => Ok(false),
            Turn::Refused(fault) => Err(Stop::Refused(fault)),
        }
    }

    /// A turn of the put or take at a place, which makes way for a new one where it has ended.
    fn turn_change_at(
        &mut self,
        changes: &mut [Change],
        place: usize,
        makes_way: bool,
    ) -> Result<(), Stop>
        requires place { place < length changes.old }
        requires ready { All (λ change. IsReady change.program) changes.old }
        ensures count { length changes.new ≡ length changes.old }
        ensures ready { All (λ change. IsReady change.program) changes.new }
    {
        if self.turn_change(&mut changes[place])? && makes_way {
            let new = self.new_change()?;
            let _old = replace(&mut changes[place], new);
        }
        Ok(())
    }

    /// A turn of the search at a place. One that has ended gives its latches back, and makes way for
    /// a new one.
    fn turn_look_at(&mut self, looks: &mut [Look], place: usize) -> Result<(), Stop>
        requires place { place < length looks.old }
        requires open { All (λ look. IsSearchingBy look.search.seek look.search.stage) looks.old }
        ensures count { length looks.new ≡ length looks.old }
        ensures open { All (λ look. IsSearchingBy look.search.seek look.search.stage) looks.new }
    {
        if self.turn_look(&mut looks[place])? {
            let new = self.new_look()?;
            let mut old = replace(&mut looks[place], new);
            self.tree.end(&mut old.search);
        }
        Ok(())
    }

    /// The puts and takes that are under way first.
    fn new_changes(&mut self, alloc: Global) -> Result<Vec<Change>, Stop>
        ensures count { IfOk result (λ changes. length changes.items ≡ CHANGES) }
        ensures ready { IfOk result (λ changes. All (λ change. IsReady change.program) changes.items) }
    {
        let mut changes = Vec::new(alloc);
        for _change in 0..CHANGES {
            changes.push(self.new_change()?)?;
        }
        Ok(changes)
    }

    /// The searches that are under way first.
    fn new_looks(&mut self, alloc: Global) -> Result<Vec<Look>, Stop>
        ensures count { IfOk result (λ looks. length looks.items ≡ LOOKS) }
        ensures open { IfOk result (λ looks. All (λ look. IsSearchingBy look.search.seek look.search.stage) looks.items) }
    {
        let mut looks = Vec::new(alloc);
        for _look in 0..LOOKS {
            looks.push(self.new_look()?)?;
        }
        Ok(looks)
    }

    /// So many turns, each of any of the operations.
    fn give_turns(
        &mut self,
        changes: &mut [Change],
        looks: &mut [Look],
        turns: u64,
        makes_way: bool,
    ) -> Result<(), Stop>
        requires changes { length changes.old ≡ CHANGES }
        requires looks { length looks.old ≡ LOOKS }
        requires ready { All (λ change. IsReady change.program) changes.old }
        requires open { All (λ look. IsSearchingBy look.search.seek look.search.stage) looks.old }
        ensures changes { length changes.new ≡ CHANGES }
        ensures looks { length looks.new ≡ LOOKS }
        ensures ready { All (λ change. IsReady change.program) changes.new }
        ensures open { All (λ look. IsSearchingBy look.search.seek look.search.stage) looks.new }
    {
        for _turn in 0..turns {
            let place = self.random.below(8) as usize;
            if place < CHANGES {
                self.turn_change_at(changes, place, makes_way)?;
            } else {
                self.turn_look_at(looks, place - CHANGES)?;
            }
        }
        Ok(())
    }

    /// Turns until all puts and takes have ended.
    fn give_last_turns(&mut self, changes: &mut [Change], looks: &mut [Look]) -> Result<(), Stop>
        requires changes { length changes.old ≡ CHANGES }
        requires looks { length looks.old ≡ LOOKS }
        requires ready { All (λ change. IsReady change.program) changes.old }
        requires open { All (λ look. IsSearchingBy look.search.seek look.search.stage) looks.old }
    {
        for _round in 0..100 {
            if self.begun == self.ended.wrapping_add(LOOKS as u64) {
                return Ok(());
            }
            self.give_turns(changes, looks, 50, false)?;
        }
        Err(Stop::Endless)
    }

    /// Whether the pairs that stand in the tree are those of the set.
    fn is_right(&mut self) -> Result<bool, Stop> {
        let found = self.tree.rising()?;
        Ok(found.as_slice().iter().eq(self.numbers.iter()))
    }
}

/// Gives so many turns to operations, and then lets the puts and takes end; how many operations have
/// ended, and whether the pairs of the set stand in the tree then.
fn run_crowd(alloc: Global, seed: u64, turns: u64) -> Result<(u64, bool), Stop> {
    let mut crowd = Crowd {
        tree: TestTree::new(alloc, SHAPE)?,
        numbers: BTreeSet::new(alloc),
        random: Random { state: seed },
        falls: seed % 2 == 0,
        begun: 0,
        ended: 0,
    };
    let mut changes = crowd.new_changes(alloc)?;
    let mut looks = crowd.new_looks(alloc)?;
    crowd.give_turns(changes.as_mut_slice(), looks.as_mut_slice(), turns, true)?;
    crowd.give_last_turns(changes.as_mut_slice(), looks.as_mut_slice())?;
    Ok((crowd.ended, crowd.is_right()?))
}

#[test]
fn each_answer_beside_others_is_that_of_a_set(rt: HostRuntime) -> Result<(), Fail> {
    for (seeds, turns) in [(6, 3000), (2, 15_000)] {
        for seed in 0..seeds {
            let (ended, is_right) = run_crowd(rt.alloc(), seed, turns)?;
            assert!(rt; is_right, "seed {seed}, {turns} turns");
            assert!(rt; ended > turns / 20, "seed {seed}, {turns} turns");
        }
    }
    Ok(())
}
