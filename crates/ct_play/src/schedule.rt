//! A schedule of turns, and the law of what it does.

ghost use Rattle.std.specs.Prelude.{◌≡◌, ◌<◌, All, length, map};
ghost use Rattle.ct_lane.specs.Actors.{AllStand, HaveOwnNumbers, Turned, Plays};

use ct_lane::Actor;

/// Makes one turn for each place of the schedule, of the actor that stands there.
///
/// Where the value's fact holds and all actors remember what stands, that is so afterwards, and what was
/// done is one step of an actor after another.
pub fn play<Y, A: Actor<Y>>(value: &mut Y, actors: &mut [A], schedule: &[usize])
    requires places { All (λ place. place < length actors.old) schedule.now }
    requires numbers { HaveOwnNumbers A.number actors.old }
    ensures numbers { map A.number actors.new ≡ map A.number actors.old }
    ensures stands { A.fact value.old → AllStand A.stands actors.old value.old → A.fact value.new × AllStand A.stands actors.new value.new }
    ensures plays { A.fact value.old → AllStand A.stands actors.old value.old → Plays A.makes schedule.now actors.old value.old actors.new value.new }
{
    for place in schedule {
        turn_at(value, actors, *place);
    }
}

/// One turn of the actor at a place.
fn turn_at<Y, A: Actor<Y>>(value: &mut Y, actors: &mut [A], place: usize)
    requires place { place < length actors.old }
    requires numbers { HaveOwnNumbers A.number actors.old }
    ensures numbers { map A.number actors.new ≡ map A.number actors.old }
    ensures stands { A.fact value.old → AllStand A.stands actors.old value.old → A.fact value.new × AllStand A.stands actors.new value.new }
    ensures turned { A.fact value.old → AllStand A.stands actors.old value.old → Turned A.makes place actors.old value.old actors.new value.new }
{
    let _answer = actors[place].turn(value);
}
