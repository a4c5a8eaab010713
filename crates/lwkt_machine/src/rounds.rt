//! Rounds of turns.
ghost use Rattle.std.specs.Prelude.{◌≡◌, ◌≢◌, ◌⊎◌, true, false, IfOk, OnErr, OnOk, List, length};
ghost use Rattle.lwkt_cpu.specs.declared.answers.Turned.{Turned as TurnMade};
ghost use Rattle.lwkt_machine.specs.Turns.{IsOver, MakesRound, MakesRoundShort, Runs, RunsShort};

use crate::lasting::Lasting;
use crate::machines::Machine;
use lwkt_base::OutOfMemory;
use lwkt_cpu::Turned;

// Whether a round is still over after one turn more.
fn is_still_over(over: bool, turned: Turned) -> bool
    ensures yes { result ≡ true → (over ≡ true) × (turned ≡ Turned.AllExited) }
    ensures no { result ≡ false → (over ≡ false) ⊎ (turned ≢ Turned.AllExited) }
{
    over && matches!(turned, Turned::AllExited)
}

impl<B: Lasting> Machine<B> {
    // A turn of each processor, by rising number. Says whether every thread has ended.
    fn turn_all(&mut self) -> Result<bool, OutOfMemory>
        ensures ok { IfOk result (λ over. (turns : List TurnMade) × (MakesRound B.polled self.old self.new turns × (over ≡ true → IsOver turns) × (over ≡ false → ¬ IsOver turns))) }
        ensures err { OnErr result (MakesRoundShort B.polled self.old self.new) }
        ensures bank { self.new.bank ≡ self.old.bank }
        ensures book { self.new.book ≡ self.old.book }
        ensures as_many { length self.new.cpus ≡ length self.old.cpus }
    {
        let mut over = true;
        for number in 0..self.cpus() {
            let turned = self.turn_at(number)?;
            over = is_still_over(over, turned);
        }
        Ok(over)
    }

    /// Makes `rounds` rounds of one turn for each processor, by rising number, or fewer: up to the first in which each turn says that
    /// every thread of its processor has ended.
    ///
    /// Refused if memory for 4096 events of a processor is; the turns before stand.
    pub fn run(&mut self, rounds: u32) -> Result<(), OutOfMemory>
        ensures ok { OnOk result (Runs B.polled rounds self.old self.new) }
        ensures err { OnErr result (RunsShort B.polled rounds self.old self.new) }
        ensures bank { self.new.bank ≡ self.old.bank }
        ensures book { self.new.book ≡ self.old.book }
        ensures as_many { length self.new.cpus ≡ length self.old.cpus }
    {
        for _made in 0..rounds {
            if self.turn_all()? {
                return Ok(());
            }
        }
        Ok(())
    }
}
