//! One turn of a processor that is driven, and whether it makes another.
ghost use Rattle.std.specs.Prelude.{◌≡◌, true, ◌+◌, ◌<◌, ◌≤◌, ◌^◌, IfOk, IfSome, OnErr, None};
ghost use Rattle.lwkt_bank.specs.Seats.{id_of};
ghost use Rattle.lwkt_cpu.specs.Driving.{with_turn};
ghost use Rattle.lwkt_drive.specs.Appending.{AppendsTurn, LacksMemory};
ghost use Rattle.lwkt_drive.specs.Course.{IsAtTables, IsBelowLimits, MakesAnother, EndsBy, RanNone, WasSilent, agreed, said_at_end};

use crate::driven::{Door, Driven, Ending, Limits};
use crate::gates::Gate;
use crate::watches::{Sight, Watch};
use lwkt_bank::Bank;
use lwkt_base::OutOfMemory;
use lwkt_cpu::{Body, Turned};
use lwkt_msg::MsgBook;

// Whether a turn was silent, by how many events there were before it and after.
fn was_silent(turned: Turned, before: usize, now: usize) -> bool
    ensures { result ≡ true → RanNone turned × (now ≡ before) }
{
    match turned {
        Turned::Ran { .. } => false,
        Turned::Idle | Turned::AllExited => now == before,
    }
}

impl<B> Driven<B> {
    /// Why no further turn is made, if there is a reason.
    pub(crate) fn ends<G: Gate>(
        &mut self,
        door: &Door<'_, G>,
        watch: &Watch<'_>,
        limits: &Limits,
        turn: u64,
    ) -> Option<Ending>
        requires { IsBelowLimits limits.now self.old.drove }
        ensures some { IfSome result (λ ending. (self.new ≡ record self.old { said = said_at_end ending self.old.said }) × EndsBy (G.answers door.now.gate.now) limits.now self.old.id turn self.old.drove self.old.silent self.old.room self.old.trace ending) }
        ensures none { result ≡ None → (self.new ≡ record self.old { said = agreed self.old.said }) × MakesAnother (G.answers door.now.gate.now) limits.now self.old.id turn self.old.drove }
        ensures few { result ≡ None → self.new.drove.ran + self.new.drove.idle + 1 < 2 ^ 64 }
    {
        if self.drove.ran >= u64::from(limits.turns) {
            return Some(Ending::TurnsOut);
        }
        if self.drove.idle >= u64::from(limits.idle) {
            return Some(Ending::IdleOut);
        }
        if self.drove.all_exited && watch.board().have_all_exited() {
            return Some(Ending::AllExited);
        }
        if let Some(refused) = watch.board().called_off() {
            return Some(Ending::CalledOff(refused));
        }
        if self.silent && watch.is_over() {
            return Some(Ending::Quiet);
        }
        if self.ask(door, turn) {
            None
        } else {
            Some(Ending::Stopped)
        }
    }

    // Counts a turn that was made. The first one that says that every thread has ended is reported to all.
    fn note(&mut self, watch: &Watch<'_>, turned: Turned)
        requires { self.old.drove.ran + self.old.drove.idle + 1 < 2 ^ 64 }
        ensures { self.new ≡ record self.old { drove = with_turn self.old.drove turned } }
    {
        match turned {
            Turned::Ran { .. } => self.drove.ran += 1,
            Turned::Idle => self.drove.idle += 1,
            Turned::AllExited => {
                self.drove.idle += 1;
                if !self.drove.all_exited {
                    self.drove.all_exited = true;
                    watch.board().say_exited();
                }
            }
        }
    }
}

impl<B> Driven<B> {
    /// What a turn has left.
    pub(crate) fn sight(&self) -> Sight {
        Sight {
            ran: self.drove.ran,
            events: self.trace.len(),
            progress: self.cpu.progress(),
        }
    }

    /// A turn has polled no thread: whether the processor leaves its slice. If not, the turn is looked at once the pauses are long,
    /// and there is a pause.
    pub(crate) fn rests(&self, watch: &mut Watch<'_>) -> bool {
        if watch.leaves() {
            return true;
        }
        if watch.is_patient() {
            watch.look(self.sight());
        }
        watch.pause();
        false
    }
}

impl<B: Body> Driven<B> {
    /// Makes a turn, counts it, and marks it if it was silent. Refused if memory is, as to `Driven::turn`; nothing has changed then.
    pub(crate) fn advance(
        &mut self,
        watch: &Watch<'_>,
        bank: &Bank,
        book: &MsgBook,
    ) -> Result<Turned, OutOfMemory>
        requires at { IsAtTables (id_of bank.now) book.now.table self.old }
        requires few { self.old.drove.ran + self.old.drove.idle + 1 < 2 ^ 64 }
        ensures ok { IfOk result (λ turned. AppendsTurn B.polled (id_of bank.now) self.old.cpu self.new.cpu self.old.trace.items self.new.trace.items turned × (self.new.drove ≡ with_turn self.old.drove turned) × (self.new.silent ≡ true → WasSilent turned self.old.trace.items self.new.trace.items)) }
        ensures err { OnErr result ((self.new.cpu ≡ self.old.cpu) × (self.new.trace.items ≡ self.old.trace.items) × (self.new.drove ≡ self.old.drove) × (self.new.silent ≡ self.old.silent) × LacksMemory self.new.room self.new.trace) }
        ensures said { self.new.said ≡ self.old.said }
        ensures at { IsAtTables (id_of bank.now) book.now.table self.new }
        ensures same { self.new.id ≡ self.old.id }
    {
        let events = self.trace.len();
        let turned = self.turn(bank, book)?;
        self.note(watch, turned);
        self.silent = was_silent(turned, events, self.trace.len());
        Ok(turned)
    }
}
