//! What a processor does about mail at the beginning of its turn.
ghost use Rattle.std.specs.Prelude.{◌≡◌, ◌≤◌, false, Option, Some, None, if◌then◌else◌, length, IfOk, OnOk};
ghost use Rattle.lwkt_base.specs.declared.limits.TheConstants.{MESSAGE_LIMIT, THREAD_LIMIT};
ghost use Rattle.lwkt_plain.specs.Letters.{handled};
ghost use Rattle.lwkt_plain.specs.Places.{cpu_at, with_letter};
ghost use Rattle.lwkt_plain.specs.Sound.{IsSound};
ghost use Rattle.lwkt_plain.specs.Intakes.{moves_on, replies, pays, pays_at, pays_all, hears, is_sync_answer, queues, comes_in, intake, receives, receives_from, receives_all, has_ended, is_closed, clears_port, clears, clears_all, looked, shown_by, looks, wakes, wakes_at, wakes_all, takes_mail};

use crate::letters::{Letter, Note, NoteKind, PORTS};
use crate::states::{CLEARED_AT_ONCE, Phase, Plain, TURN_NOTES};
use lwkt_base::{Item, MsgId, OutOfMemory};

impl Phase {
    /// Whether the thread has ended.
    pub fn has_ended(self) -> bool
        ensures { result ≡ has_ended self }
    {
        matches!(self, Phase::Exited | Phase::Faulted(_))
    }
}

impl Note {
    // Whether it is the answer to a synchronous send.
    fn is_sync_answer(&self, letter: &Letter) -> bool
        ensures { result ≡ is_sync_answer self.now.kind letter.now }
    {
        match self.kind {
            NoteKind::Request => false,
            NoteKind::Answer => letter.word.sync,
        }
    }
}

impl Plain {
    // The notes in a processor's hands move on.
    #[tactic(auto, using(crate::proofs::Folds::fold_more, crate::proofs::Folds::fold_none), unfolding(crate::specs::Intakes::moves_on))]
    fn move_on(&mut self, c: usize) -> Result<(), OutOfMemory>
        ensures { OnOk result (self.new ≡ moves_on c self.old) }
    {
        for to in 0..self.cpus.len() {
            self.move_lane(c, to)?;
        }
        Ok(())
    }

    /// Replies to a message that a processor has taken, over a lane that has room.
    pub(crate) fn answer(
        &mut self,
        c: usize,
        msg: MsgId,
        letter: &Letter,
        error: u32,
        outcome: u64,
    ) -> Result<(), OutOfMemory>
        ensures { OnOk result (self.new ≡ replies c msg error outcome letter.now self.old) }
    {
        self.reply_letter(usize::from(msg.0), error, outcome);
        self.post(c, usize::from(letter.origin.cpu.0), letter.answer_note(msg))
    }

    // The reply that is owed to this message goes out, if the lane has room.
    fn pay_at(&mut self, c: usize, msg: MsgId, letter: &Letter) -> Result<(), OutOfMemory>
        ensures { OnOk result (self.new ≡ pays_at c self.old msg letter.now) }
    {
        let Some(error) = letter.owed_by(c) else {
            return Ok(());
        };
        if !self.has_room(c, usize::from(letter.origin.cpu.0)) {
            return Ok(());
        }
        self.answer(c, msg, letter, error, 0)
    }

    // The same of the message of a number, if there is one.
    fn pay(&mut self, c: usize, m: u8) -> Result<(), OutOfMemory>
        ensures { OnOk result (self.new ≡ pays c self.old m) }
    {
        match self.letter(usize::from(m)) {
            None => Ok(()),
            Some(letter) => self.pay_at(c, MsgId(m), &letter),
        }
    }

    // A synchronous answer: its message comes home, and its thread is ready.
    fn hear(&mut self, c: usize, note: &Note, letter: &Letter)
        ensures { self.new ≡ hears c note.now letter.now self.old }
    {
        if letter.can_be_reaped(c, note) {
            self.bring_home(usize::from(note.msg.0));
            self.hear_at(c, usize::from(note.port), note.msg, letter);
        }
    }

    // A note is queued. False if its port's queue is full.
    fn queue(&mut self, c: usize, note: &Note) -> Result<bool, OutOfMemory>
        ensures comes { IfOk result (λ came. queues c note.now self.old ≡ (if came then Some self.new else None)) }
        ensures stays { IfOk result (λ came. came ≡ false → self.new ≡ self.old) }
    {
        let k = usize::from(note.port);
        if !self.has_space(c, k, note) {
            return Ok(false);
        }
        self.enqueue(c, k, *note)?;
        Ok(true)
    }

    // A note that came over a lane. False if its port's queue is full.
    fn come_in(&mut self, c: usize, note: &Note) -> Result<bool, OutOfMemory>
        ensures comes { IfOk result (λ came. comes_in c note.now self.old ≡ (if came then Some self.new else None)) }
        ensures stays { IfOk result (λ came. came ≡ false → self.new ≡ self.old) }
    {
        let Some(letter) = self.letter(usize::from(note.msg.0)) else {
            return Ok(true);
        };
        if note.is_sync_answer(&letter) {
            self.hear(c, note, &letter);
            return Ok(true);
        }
        self.queue(c, note)
    }

    // The replies that are owed go out, where the lanes have room.
    #[tactic(auto, using(crate::proofs::Folds::fold_more, crate::proofs::Folds::fold_none), unfolding(crate::specs::Intakes::pays_all))]
    fn pay_all(&mut self, c: usize) -> Result<(), OutOfMemory>
        requires { length self.old.letters ≤ MESSAGE_LIMIT }
        ensures { OnOk result (self.new ≡ pays_all c self.old) }
    {
        for m in 0..self.letters.len() {
            self.pay(c, m as u8)?;
        }
        Ok(())
    }

    // Receives at most so many notes of a lane. Says how many more may be received.
    fn receive(&mut self, c: usize, sender: usize, left: usize) -> Result<usize, OutOfMemory>
        ensures { IfOk result (λ more. receives c sender left self.old ≡ intake more self.new) }
    {
        for received in 0..left {
            let Some(note) = self.take_first(sender, c) else {
                return Ok(left - received);
            };
            if !self.come_in(c, &note)? {
                self.keep(Some(note), sender, c);
                return Ok(left - received - 1);
            }
        }
        Ok(0)
    }

    // The same, after the note that is kept.
    fn receive_from(&mut self, c: usize, sender: usize, left: usize) -> Result<usize, OutOfMemory>
        ensures { IfOk result (λ more. receives_from c (intake left self.old) sender ≡ intake more self.new) }
    {
        if let Some(note) = self.kept(sender, c) {
            if !self.come_in(c, &note)? {
                return Ok(left);
            }
            self.keep(None, sender, c);
        }
        self.receive(c, sender, left)
    }

    #[tactic(auto, using(crate::proofs::Folds::fold_more, crate::proofs::Folds::fold_none), unfolding(crate::specs::Intakes::receives_all))]
    fn receive_all(&mut self, c: usize) -> Result<(), OutOfMemory>
        ensures { OnOk result (self.new ≡ receives_all c self.old) }
    {
        let mut left = TURN_NOTES;
        for sender in 0..self.cpus.len() {
            left = self.receive_from(c, sender, left)?;
        }
        Ok(())
    }

    // Whether the port of a number is closed: its thread isn't there, or has ended.
    fn is_closed(&self, c: usize, k: usize) -> bool
        ensures { result ≡ is_closed c k self.now }
    {
        match self.phase(c, k) {
            Some(phase) => phase.has_ended(),
            None => true,
        }
    }

    // Clears a port of at most so many notes. Says how many more may be cleared.
    fn clear(&mut self, c: usize, k: usize, left: usize) -> usize
        ensures { clears_port c k left self.old ≡ intake result self.new }
    {
        for cleared in 0..left {
            let Some(note) = self.take_note(c, k) else {
                return left - cleared;
            };
            self.handle_letter(c, None, &note);
        }
        0
    }

    // The same, if it is closed.
    fn clear_closed(&mut self, c: usize, k: usize, left: usize) -> usize
        ensures { clears c (intake left self.old) k ≡ intake result self.new }
    {
        if self.is_closed(c, k) {
            self.clear(c, k, left)
        } else {
            left
        }
    }

    #[tactic(auto, using(crate::proofs::Folds::fold_more, crate::proofs::Folds::fold_none), unfolding(crate::specs::Intakes::clears_all))]
    fn clear_all(&mut self, c: usize)
        ensures { self.new ≡ clears_all c self.old }
    {
        let mut left = CLEARED_AT_ONCE;
        for k in 0..PORTS {
            left = self.clear_closed(c, k, left);
        }
    }

    // What a note shows a thread, and what it makes of its message.
    fn serve(&mut self, c: usize, k: u8, note: &Note) -> Option<Item>
        ensures shown { result ≡ shown_by c note.now self.old }
        ensures handled { self.new ≡ with_letter (handled c (Some k) note.now) note.now.msg.0 self.old }
    {
        let item = match self.letter(usize::from(note.msg.0)) {
            Some(letter) => letter.item(c, note),
            None => None,
        };
        self.handle_letter(c, Some(k), note);
        item
    }

    /// A thread looks at its port.
    pub(crate) fn look(&mut self, c: usize, k: u8) -> Option<Item>
        ensures { looks c k self.old ≡ looked self.new result }
    {
        while let Some(note) = self.take_note(c, usize::from(k)) {
            match self.serve(c, k, &note) {
                Some(item) => return Some(item),
                None => {}
            }
        }
        None
    }

    // A thread that waits for its port looks at it.
    fn wake_up(&mut self, c: usize, k: u8, phase: Phase)
        ensures { self.new ≡ wakes c k self.old phase }
    {
        if !matches!(phase, Phase::AwaitsItem) {
            return;
        }
        if let Some(item) = self.look(c, k) {
            self.get_item(c, usize::from(k), item);
        }
    }

    fn wake(&mut self, c: usize, k: u8)
        ensures { self.new ≡ wakes_at c self.old k }
    {
        if let Some(phase) = self.phase(c, usize::from(k)) {
            self.wake_up(c, k, phase);
        }
    }

    #[tactic(auto, using(crate::proofs::Folds::fold_more, crate::proofs::Folds::fold_none), unfolding(crate::specs::Intakes::wakes_all))]
    fn wake_all(&mut self, c: usize)
        requires { length (cpu_at self.old c).threads ≤ THREAD_LIMIT }
        ensures { self.new ≡ wakes_all c self.old }
    {
        for k in 0..self.threads_of(c) {
            self.wake(c, k as u8);
        }
    }

    /// All of it.
    pub(crate) fn take_mail(&mut self, c: usize) -> Result<(), OutOfMemory>
        requires { IsSound self.old }
        ensures exact { OnOk result (self.new ≡ takes_mail c self.old) }
        ensures sound { OnOk result (IsSound self.new) }
    {
        self.move_on(c)?;
        self.pay_all(c)?;
        self.receive_all(c)?;
        self.clear_all(c);
        self.wake_all(c);
        Ok(())
    }
}
