//! Where two processors are both at hand, the one sees what the other has sent to it, and what it has sent to itself.
ghost use Rattle.lwkt_port.specs.Posts.{IsSamePost};
ghost use Rattle.lwkt_cpu.specs.Sights.{AreLinked, SeesLane, SeesOwnLane};

use crate::cpus::Cpu;

impl<B> Cpu<B> {
    /// Sees every note that another processor has put into the queue of its lane to this one. The next turn takes these notes in,
    /// up to the 16 notes that a turn takes in and the room of their ports' queues.
    ///
    /// That the lane from that processor to this one has its ends at them is the caller's condition.
    #[inline]
    pub fn see(&mut self, sender: &mut Cpu<B>)
        requires { AreLinked sender.old self.old }
        ensures sees { SeesLane sender.old sender.new self.old self.new }
        ensures same { IsSamePost self.old.post self.new.post }
        ensures sender { IsSamePost sender.old.post sender.new.post }
    {
        self.ports.see(&mut sender.ports);
    }
    /// Sees every note that this processor has put into the queue of the lane to itself, as `see` does of another's.
    ///
    /// That this lane has both its ends here is the caller's condition.
    #[inline]
    pub fn see_own(&mut self)
        requires { AreLinked self.old self.old }
        ensures sees { SeesOwnLane self.old self.new }
        ensures same { IsSamePost self.old.post self.new.post }
    {
        self.ports.see_own();
    }
}
