//! Two kinds of actors by a schedule: some add to a tally, others take coins from a jar. Lines of a schedule.

use super::*;
use ct_disk::{StepFault, Turn};
use ct_lane::Actor;

/// What actors add to.
#[derive(Drop)]
struct Tally {
    total: u64,
}

/// Adds its amount at each turn, and remembers how much it has added.
#[derive(Drop)]
struct Adder {
    name: u64,
    amount: u64,
    added: u64,
}

impl Actor<Tally> for Adder {
    ghost use Rattle.std.specs.Prelude.{◌≡◌, ◌≤◌};

    ghost fact = { λ tally. Unit {0} };

    // What it has added is among the total.
    ghost stands = { λ adder tally. adder.added ≤ tally.total };

    ghost makes = { λ adder tally answer after now. tally.total ≤ now.total };

    ghost number = { λ adder. adder.name };

    fn turn(&mut self, tally: &mut Tally) -> Turn<()> {
        let Some(total) = tally.total.checked_add(self.amount) else {
            return Turn::Refused(StepFault::Memory);
        };
        tally.total = total;
        self.added = self.added.saturating_add(self.amount);
        Turn::Done(())
    }
}

/// A hundred coins, some of them taken.
#[derive(Drop)]
struct Jar {
    coins: u64,
    taken: u64,
}

/// Takes a coin at each turn, while there is one.
#[derive(Drop)]
struct Taker {
    name: u64,
    waits: bool,
}

impl Actor<Jar> for Taker {
    ghost use Rattle.std.specs.Prelude.{◌≡◌, ◌≤◌, ◌+◌, IsTrue};

    // No coin is lost.
    ghost fact = { λ jar. jar.coins + jar.taken ≡ 100 };

    // Once it has found the jar empty, the jar stays empty.
    ghost stands = { λ taker jar. IsTrue taker.waits → jar.coins ≡ 0 };

    ghost makes = { λ taker jar answer after now. now.coins ≤ jar.coins };

    ghost number = { λ taker. taker.name };

    fn turn(&mut self, jar: &mut Jar) -> Turn<()> {
        if jar.coins == 0 {
            self.waits = true;
            return Turn::More;
        }
        let Some(taken) = jar.taken.checked_add(1) else {
            return Turn::Refused(StepFault::Memory);
        };
        jar.coins -= 1;
        jar.taken = taken;
        Turn::Done(())
    }
}

#[test]
fn each_place_of_the_schedule_makes_a_turn(rt: HostRuntime) {
    let mut tally = Tally { total: 0 };
    let mut adders = [
        Adder {
            name: 1,
            amount: 5,
            added: 0,
        },
        Adder {
            name: 2,
            amount: 7,
            added: 0,
        },
    ];
    play(&mut tally, &mut adders, &[0, 1, 1, 0, 1]);
    assert_eq!(rt; tally.total, 31);
    assert_eq!(rt; adders[1].added, 21);
}

#[test]
fn turns_go_on_where_nothing_is_left(rt: HostRuntime) {
    let mut jar = Jar {
        coins: 2,
        taken: 98,
    };
    let mut takers = [
        Taker {
            name: 1,
            waits: false,
        },
        Taker {
            name: 2,
            waits: false,
        },
    ];
    play(&mut jar, &mut takers, &[1, 0, 1]);
    assert_eq!(rt; jar.taken, 100);
    assert_eq!(rt; takers[1].waits, true);
}

#[test]
fn lines_of_a_schedule_are_read(rt: HostRuntime) {
    let queued = read_order(b"S 1 GET part id");
    assert_eq!(rt;
        matches!(
            queued,
            Some(Order::Queue {
                session: 1,
                line: b"GET part id"
            })
        ),
        true
    );
    let turns = read_order(b"T 64 1048576");
    assert_eq!(rt;
        matches!(
            turns,
            Some(Order::Turns {
                session: 64,
                count: Some(1_048_576)
            })
        ),
        true
    );
    assert_eq!(rt; read_order(b"X 1").is_none(), true);
}
