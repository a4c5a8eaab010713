//! Where the ports of two processors are both at hand, the one sees what the other has sent, and what it has sent to itself.
ghost use Rattle.std.specs.Prelude.{◌≡◌, ℕ, ◌<◌};
ghost use Rattle.lwkt_lane.specs.Lane.{IsLane};
ghost use Rattle.lwkt_port.specs.Posts.{ChangesOne, AreStillLines, IsSamePost};
ghost use Rattle.lwkt_port.specs.Sights.{AreEnds, SeesAll, LooksBeside, SeesOwnLine, SeesAllFrom, AreJoined, PostSees, PostSeesOwn};

use crate::lines::Lane;
use crate::posts::Ports;

// A line sees all that a sender's line has put into the queue of the lane between them.
fn see_line(line: &mut Lane, sender: &mut Lane)
    requires { IsLane sender.old.out line.old.into }
    ensures sees { SeesAll sender.old.out line.old line.new }
    ensures beside { LooksBeside sender.old sender.new }
{
    let _ = line.into.see_all(&mut sender.out);
}

// Lines see all that came from a sender.
fn see_from(lanes: &mut Vec<Lane>, from: usize, sender: &mut Vec<Lane>, to: usize)
    requires { AreEnds from to sender.old.items lanes.old.items }
    ensures sees { SeesAllFrom from to sender.old.items sender.new.items lanes.old.items lanes.new.items }
    ensures lines { AreStillLines lanes.old lanes.new }
    ensures sender { AreStillLines sender.old sender.new }
{
    see_line(&mut lanes[from], &mut sender[to]);
}

// A line whose two ends are those of one lane sees all that was put into its queue.
fn see_line_own(line: &mut Lane)
    requires { IsLane line.old.out line.old.into }
    ensures { SeesOwnLine line.old line.new }
{
    let _ = line.into.see_all(&mut line.out);
}

// The line at this place sees all that came over the lane of its own two ends.
fn see_at(lanes: &mut Vec<Lane>, at: usize)
    requires { AreEnds at at lanes.old.items lanes.old.items }
    ensures sees { ChangesOne SeesOwnLine at lanes.old.items lanes.new.items }
    ensures lines { AreStillLines lanes.old lanes.new }
{
    see_line_own(&mut lanes[at]);
}

impl Ports {
    /// Sees every note that another processor's ports have put into the queue of the lane to this one. A `take_in` that follows
    /// takes these notes in first, up to its limit and the room of their ports' queues.
    ///
    /// That the lane between the two has its ends at them is the caller's condition.
    pub fn see(&mut self, sender: &mut Ports)
        requires { AreJoined sender.old self.old }
        ensures sees { PostSees sender.old sender.new self.old self.new }
        ensures same { IsSamePost self.old self.new }
        ensures sender { IsSamePost sender.old sender.new }
    {
        let from = usize::from(sender.office.counters.room.seat.cpu().0);
        let to = usize::from(self.office.counters.room.seat.cpu().0);
        see_from(&mut self.office.lanes, from, &mut sender.office.lanes, to);
    }
    /// Sees every note that these ports have put into the queue of the lane to themselves. A `take_in` that follows takes these notes
    /// in first, as after `see`.
    ///
    /// That the lane has both its ends here is the caller's condition.
    pub fn see_own(&mut self)
        requires { AreJoined self.old self.old }
        ensures sees { PostSeesOwn self.old self.new }
        ensures same { IsSamePost self.old self.new }
    {
        let own = usize::from(self.office.counters.room.seat.cpu().0);
        see_at(&mut self.office.lanes, own);
    }
}
