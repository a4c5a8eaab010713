//! A processor of a machine sees what has been sent to it.
ghost use Rattle.std.specs.Prelude.{◌≡◌, ◌<◌, All, length};
ghost use Rattle.std.specs.List.{AllZip};
ghost use Rattle.lwkt_cpu.specs.Sights.{AreLinked};
ghost use Rattle.lwkt_machine.specs.Machines.{processors, AreAllJoined, AreNumbered};
ghost use Rattle.lwkt_machine.specs.Sights.{KeepsLog, SeesEach, SeesSent};

use lwkt_cpu::Cpu;
use lwkt_drive::Driven;

// A processor sees all that each of these others has put into the queue of its lane to it.
fn see_each<B>(cpu: &mut Cpu<B>, others: &mut [Driven<B>])
    requires { All (λ s. AreLinked s cpu.old) (processors others.old) }
    ensures sees { SeesEach cpu.old cpu.new (processors others.old) (processors others.new) }
    ensures logs { AllZip KeepsLog others.old others.new }
    ensures as_many { length others.new ≡ length others.old }
{
    for at in 0..others.len() {
        cpu.see(&mut others[at].cpu);
    }
}

/// The processor of this number sees all that each one, itself too, has put into the queue of its lane to it. That the processor is
/// there, that each is at its number, and that the lanes have their ends at them is the caller's condition.
pub(crate) fn see_sent<B>(cpus: &mut [Driven<B>], cpu: usize)
    requires there { cpu < length cpus.old }
    requires numbered { AreNumbered (processors cpus.old) }
    requires joined { AreAllJoined (processors cpus.old) }
    ensures sees { SeesSent cpu (processors cpus.old) (processors cpus.new) }
    ensures logs { AllZip KeepsLog cpus.old cpus.new }
    ensures as_many { length cpus.new ≡ length cpus.old }
{
    let (lower, rest) = cpus.split_at_mut(cpu);
    let (one, upper) = rest.split_at_mut(1);
    let target = &mut one[0].cpu;
    target.see_own();
    see_each(target, lower);
    see_each(target, upper);
}
