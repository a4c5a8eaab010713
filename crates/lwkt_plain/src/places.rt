//! The parts of a state by number.
ghost use Rattle.std.specs.Prelude.{◌≡◌, ◌<◌, ◌+◌, drop, length, IfOk, OnOk, Option, Some, None, option_map, slice_get, slice_index_or};
ghost use Rattle.std.specs.Option.{option_copied, option_map_or};
ghost use Rattle.lwkt_core.specs.Machine.{changed};
ghost use Rattle.lwkt_plain.specs.Letters.{replied, come_home, handled, aborted, left_by};
ghost use Rattle.lwkt_plain.specs.Places.{moved, has_room, pushed, with_lane, with_letter, with_cpu, with_port, with_thread, lane_at, port_at, thread_at, cpu_at, empty_lane, empty_port};
ghost use Rattle.lwkt_plain.specs.Intakes.{posts, has_space, queued, first_note, without_note, without_first, keeps, gets, hears_from};
ghost use Rattle.lwkt_plain.specs.Turns.{ended_by, rests};

use crate::letters::{Letter, Note};
use crate::states::{BusyAt, Mail, Phase, Plain, Processor, Thread};
use lwkt_base::{Answer, Item, MsgId, OutOfMemory};

impl Thread {
    /// Makes it ready, with an item.
    pub(crate) fn get_item(&mut self, item: Item)
        ensures { self.new ≡ gets item self.old }
    {
        self.last = Answer::Got(item);
        self.phase = Phase::Live;
    }

    /// The reply to a message, for a thread that waits for it.
    pub(crate) fn hear_from(&mut self, msg: MsgId, letter: &Letter)
        ensures { self.new ≡ hears_from self.old.phase msg letter.now self.old }
    {
        if let Phase::AwaitsReply(own) = self.phase {
            if own.0 == msg.0 {
                self.get_item(letter.answer(msg));
            }
        }
    }
}

#[tactic(auto, using(crate::proofs::Changes::changed_in, crate::proofs::Changes::changed_out))]
impl Mail {
    fn move_lane(&mut self, from: usize) -> Result<(), OutOfMemory>
        ensures { OnOk result (self.new ≡ record self.old { lanes = changed moved self.old.lanes from }) }
    {
        if from >= self.lanes.len() {
            return Ok(());
        }
        let lane = self.lanes.at(from);
        lane.move_on()
    }

    fn send(&mut self, from: usize, note: Note) -> Result<(), OutOfMemory>
        ensures { OnOk result (self.new ≡ record self.old { lanes = changed (λ lane. pushed note (moved lane)) self.old.lanes from }) }
    {
        if from >= self.lanes.len() {
            return Ok(());
        }
        let lane = self.lanes.at(from);
        lane.send(note)
    }

    fn has_room(&self, from: usize) -> bool
        ensures { result ≡ has_room (slice_index_or self.now.lanes from empty_lane) }
    {
        match self.lanes.as_slice().get(from) {
            Some(lane) => lane.has_room(),
            None => true,
        }
    }

    #[tactic(auto, using(crate::proofs::Changes::changed_in, crate::proofs::Changes::changed_out, crate::proofs::Changes::set_back))]
    fn take_first(&mut self, sender: usize) -> Option<Note>
        ensures first { result ≡ slice_get (slice_index_or self.old.lanes sender empty_lane).queue 0 }
        ensures rest { self.new ≡ record self.old { lanes = changed (λ lane. record lane { queue = drop 1 lane.queue }) self.old.lanes sender } }
        ensures stays { result ≡ None → self.new ≡ self.old }
    {
        if sender >= self.lanes.len() {
            return None;
        }
        let lane = self.lanes.at(sender);
        lane.take_first()
    }

    fn kept(&self, sender: usize) -> Option<Note>
        ensures { result ≡ (slice_index_or self.now.lanes sender empty_lane).kept }
    {
        match self.lanes.as_slice().get(sender) {
            Some(lane) => lane.kept,
            None => None,
        }
    }

    fn keep(&mut self, sender: usize, note: Option<Note>)
        ensures { self.new ≡ record self.old { lanes = changed (λ lane. record lane { kept = note }) self.old.lanes sender } }
    {
        if sender < self.lanes.len() {
            let lane = self.lanes.at(sender);
            lane.keep(note);
        }
    }

    fn has_space(&self, k: usize, note: &Note) -> bool
        ensures { result ≡ has_space note.now (slice_index_or self.now.ports k empty_port) }
    {
        match self.ports.as_slice().get(k) {
            Some(port) => port.has_space(note),
            None => true,
        }
    }

    fn enqueue(&mut self, k: usize, note: Note) -> Result<(), OutOfMemory>
        ensures { OnOk result (self.new ≡ record self.old { ports = changed (queued note) self.old.ports k }) }
    {
        if k >= self.ports.len() {
            return Ok(());
        }
        let port = self.ports.at(k);
        port.enqueue(note)
    }

    #[tactic(auto, using(crate::proofs::Changes::changed_in, crate::proofs::Changes::changed_out, crate::proofs::Changes::set_back))]
    fn take_note(&mut self, k: usize) -> Option<Note>
        ensures first { result ≡ first_note (slice_index_or self.old.ports k empty_port) }
        ensures rest { self.new ≡ record self.old { ports = changed without_note self.old.ports k } }
        ensures stays { result ≡ None → self.new ≡ self.old }
    {
        if k >= self.ports.len() {
            return None;
        }
        let port = self.ports.at(k);
        port.take_first()
    }
}

#[tactic(auto, using(crate::proofs::Changes::changed_in, crate::proofs::Changes::changed_out))]
impl Processor {
    fn hear(&mut self, k: usize, msg: MsgId, letter: &Letter)
        ensures { self.new ≡ record self.old { threads = changed (λ t. hears_from t.phase msg letter.now t) self.old.threads k } }
    {
        if k < self.threads.len() {
            let thread = self.threads.at(k);
            thread.hear_from(msg, letter);
        }
    }

    fn end_thread(&mut self, k: usize, phase: Phase)
        ensures { self.new ≡ record self.old { threads = changed (ended_by phase) self.old.threads k } }
    {
        if k < self.threads.len() {
            let thread = self.threads.at(k);
            thread.end(phase);
        }
    }

    fn keep_busy(&mut self, k: usize, busy: BusyAt)
        ensures { self.new ≡ record self.old { threads = changed (λ t. record t { busy = Some busy }) self.old.threads k } }
    {
        if k < self.threads.len() {
            let thread = self.threads.at(k);
            thread.busy = Some(busy);
        }
    }

    fn put_phase(&mut self, k: usize, phase: Phase)
        ensures { self.new ≡ record self.old { threads = changed (λ t. record t { phase = phase; last = Answer.Done }) self.old.threads k } }
    {
        if k < self.threads.len() {
            let thread = self.threads.at(k);
            thread.phase = phase;
            thread.last = Answer::Done;
        }
    }

    fn put_answer(&mut self, k: usize, answer: Answer)
        ensures { self.new ≡ record self.old { threads = changed (λ t. record t { last = answer }) self.old.threads k } }
    {
        if k < self.threads.len() {
            let thread = self.threads.at(k);
            thread.last = answer;
        }
    }

    fn get_item(&mut self, k: usize, item: Item)
        ensures { self.new ≡ record self.old { threads = changed (gets item) self.old.threads k } }
    {
        if k < self.threads.len() {
            let thread = self.threads.at(k);
            thread.get_item(item);
        }
    }
}

#[tactic(auto, using(crate::proofs::Changes::changed_in, crate::proofs::Changes::changed_out))]
impl Plain {
    /// Moves the note in hand from a processor to another into the queue, if that has room.
    pub(crate) fn move_lane(&mut self, from: usize, to: usize) -> Result<(), OutOfMemory>
        ensures { OnOk result (self.new ≡ with_lane moved from to self.old) }
    {
        if to >= self.mails.len() {
            return Ok(());
        }
        let mail = self.mails.at(to);
        mail.move_lane(from)
    }

    /// Sends a note over a lane that has room.
    pub(crate) fn post(&mut self, from: usize, to: usize, note: Note) -> Result<(), OutOfMemory>
        ensures { OnOk result (self.new ≡ posts from to note self.old) }
    {
        if to >= self.mails.len() {
            return Ok(());
        }
        let mail = self.mails.at(to);
        mail.send(from, note)
    }

    /// Whether a note can be sent over a lane.
    pub(crate) fn has_room(&self, from: usize, to: usize) -> bool
        ensures { result ≡ has_room (lane_at self.now from to) }
    {
        match self.mails.as_slice().get(to) {
            Some(mail) => mail.has_room(from),
            None => true,
        }
    }

    /// Takes the first note off that came over a lane.
    #[tactic(auto, using(crate::proofs::Changes::changed_in, crate::proofs::Changes::changed_out, crate::proofs::Changes::set_back))]
    pub(crate) fn take_first(&mut self, sender: usize, c: usize) -> Option<Note>
        ensures first { result ≡ slice_get (lane_at self.old sender c).queue 0 }
        ensures rest { self.new ≡ without_first sender c self.old }
        ensures stays { result ≡ None → self.new ≡ self.old }
    {
        if c >= self.mails.len() {
            return None;
        }
        let mail = self.mails.at(c);
        mail.take_first(sender)
    }

    /// The note of a lane that is kept.
    pub(crate) fn kept(&self, sender: usize, c: usize) -> Option<Note>
        ensures { result ≡ (lane_at self.now sender c).kept }
    {
        match self.mails.as_slice().get(c) {
            Some(mail) => mail.kept(sender),
            None => None,
        }
    }

    /// Keeps a note of a lane, or none.
    pub(crate) fn keep(&mut self, note: Option<Note>, sender: usize, c: usize)
        ensures { self.new ≡ keeps note sender c self.old }
    {
        if c < self.mails.len() {
            let mail = self.mails.at(c);
            mail.keep(sender, note);
        }
    }

    /// Whether the queue of a note's class has room at a port.
    pub(crate) fn has_space(&self, c: usize, k: usize, note: &Note) -> bool
        ensures { result ≡ has_space note.now (port_at self.now c k) }
    {
        match self.mails.as_slice().get(c) {
            Some(mail) => mail.has_space(k, note),
            None => true,
        }
    }

    /// Puts a note behind the others of its class at a port.
    pub(crate) fn enqueue(&mut self, c: usize, k: usize, note: Note) -> Result<(), OutOfMemory>
        ensures { OnOk result (self.new ≡ with_port (queued note) c k self.old) }
    {
        if c >= self.mails.len() {
            return Ok(());
        }
        let mail = self.mails.at(c);
        mail.enqueue(k, note)
    }

    /// Takes the note of a port off that is served first.
    #[tactic(auto, using(crate::proofs::Changes::changed_in, crate::proofs::Changes::changed_out, crate::proofs::Changes::set_back))]
    pub(crate) fn take_note(&mut self, c: usize, k: usize) -> Option<Note>
        ensures first { result ≡ first_note (port_at self.old c k) }
        ensures rest { self.new ≡ with_port without_note c k self.old }
        ensures stays { result ≡ None → self.new ≡ self.old }
    {
        if c >= self.mails.len() {
            return None;
        }
        let mail = self.mails.at(c);
        mail.take_note(k)
    }

    /// The reply to a message, for a thread that waits for it.
    pub(crate) fn hear_at(&mut self, c: usize, k: usize, msg: MsgId, letter: &Letter)
        ensures { self.new ≡ with_thread (λ t. hears_from t.phase msg letter.now t) c k self.old }
    {
        if c < self.cpus.len() {
            let cpu = self.cpus.at(c);
            cpu.hear(k, msg, letter);
        }
    }

    /// Makes a thread ready, with an item.
    pub(crate) fn get_item(&mut self, c: usize, k: usize, item: Item)
        ensures { self.new ≡ with_thread (gets item) c k self.old }
    {
        if c < self.cpus.len() {
            let cpu = self.cpus.at(c);
            cpu.get_item(k, item);
        }
    }

    /// Ends a thread.
    pub(crate) fn end_thread(&mut self, c: usize, k: usize, phase: Phase)
        ensures { self.new ≡ with_thread (ended_by phase) c k self.old }
    {
        if c < self.cpus.len() {
            let cpu = self.cpus.at(c);
            cpu.end_thread(k, phase);
        }
    }

    /// Keeps the word that refused a thread's list.
    pub(crate) fn keep_busy(&mut self, c: usize, k: usize, busy: BusyAt)
        ensures { self.new ≡ with_thread (λ t. record t { busy = Some busy }) c k self.old }
    {
        if c < self.cpus.len() {
            let cpu = self.cpus.at(c);
            cpu.keep_busy(k, busy);
        }
    }

    /// Puts a thread into a phase.
    pub(crate) fn put_phase(&mut self, c: usize, k: usize, phase: Phase)
        ensures { self.new ≡ with_thread (λ t. record t { phase = phase; last = Answer.Done }) c k self.old }
    {
        if c < self.cpus.len() {
            let cpu = self.cpus.at(c);
            cpu.put_phase(k, phase);
        }
    }

    /// Keeps an answer for a thread.
    pub(crate) fn put_answer(&mut self, c: usize, k: usize, answer: Answer)
        ensures { self.new ≡ with_thread (λ t. record t { last = answer }) c k self.old }
    {
        if c < self.cpus.len() {
            let cpu = self.cpus.at(c);
            cpu.put_answer(k, answer);
        }
    }

    /// No thread of a processor runs.
    pub(crate) fn rest(&mut self, c: usize)
        ensures { self.new ≡ rests c self.old }
    {
        if c < self.cpus.len() {
            let cpu = self.cpus.at(c);
            cpu.running = None;
        }
    }

    /// A thread of a processor runs, and the next search begins behind it.
    pub(crate) fn run_on(&mut self, c: usize, k: usize)
        requires { k < usize.MAX }
        ensures { self.new ≡ with_cpu (λ cpu. record cpu { running = Some k; cursor = k + 1 }) c self.old }
    {
        if c < self.cpus.len() {
            let cpu = self.cpus.at(c);
            cpu.running = Some(k);
            cpu.cursor = k + 1;
        }
    }

    /// What a thread is doing, if it is there.
    pub(crate) fn phase(&self, c: usize, k: usize) -> Option<Phase>
        ensures { result ≡ option_map (λ t. t.phase) (thread_at self.now c k) }
    {
        let cpu = self.cpus.as_slice().get(c)?;
        let thread = cpu.threads.as_slice().get(k)?;
        Some(thread.phase)
    }

    /// How many threads a processor has.
    pub(crate) fn threads_of(&self, c: usize) -> usize
        ensures { result ≡ length (cpu_at self.now c).threads }
    {
        match self.cpus.as_slice().get(c) {
            Some(cpu) => cpu.threads.len(),
            None => 0,
        }
    }

    /// The message of a number.
    pub(crate) fn letter(&self, m: usize) -> Option<Letter>
        ensures { result ≡ slice_get self.now.letters m }
    {
        self.letters.as_slice().get(m).copied()
    }

    /// A message of a number goes out so.
    pub(crate) fn put_letter(&mut self, m: usize, letter: Letter)
        ensures { self.new ≡ with_letter (λ old. letter) m self.old }
    {
        if m < self.letters.len() {
            *self.letters.at(m) = letter;
        }
    }

    pub(crate) fn reply_letter(&mut self, m: usize, error: u32, outcome: u64)
        ensures { self.new ≡ with_letter (replied error outcome) m self.old }
    {
        if m < self.letters.len() {
            let own = self.letters.at(m);
            *own = own.replied(error, outcome);
        }
    }

    pub(crate) fn bring_home(&mut self, m: usize)
        ensures { self.new ≡ with_letter come_home m self.old }
    {
        if m < self.letters.len() {
            let own = self.letters.at(m);
            *own = own.come_home();
        }
    }

    pub(crate) fn abort_letter(&mut self, m: usize)
        ensures { self.new ≡ with_letter aborted m self.old }
    {
        if m < self.letters.len() {
            let own = self.letters.at(m);
            *own = own.aborted();
        }
    }

    /// What a message becomes as a thread ends.
    pub(crate) fn leave_letter(&mut self, c: usize, k: usize, m: usize)
        ensures { self.new ≡ with_letter (left_by c k) m self.old }
    {
        if m < self.letters.len() {
            let own = self.letters.at(m);
            *own = own.left_by(c, k);
        }
    }

    /// What a note makes of its message.
    pub(crate) fn handle_letter(&mut self, c: usize, thread: Option<u8>, note: &Note)
        ensures { self.new ≡ with_letter (handled c thread note.now) note.now.msg.0 self.old }
    {
        let m = usize::from(note.msg.0);
        if m < self.letters.len() {
            let own = self.letters.at(m);
            *own = own.handled(c, thread, note);
        }
    }
}
