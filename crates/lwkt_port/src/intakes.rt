//! The notes that came over the lanes are taken in.
ghost use Rattle.std.specs.Prelude.{◌≡◌, ◌⊎◌, ℕ, ◌+◌, ◌-◌, ◌<◌, ◌≤◌, false, List, All, None, IsTrue, IfSome, vec_len, vec_capacity};
ghost use Rattle.lwkt_msg.specs.Desks.{desk_cpu};
ghost use Rattle.lwkt_port.specs.declared.lines.Lane.{Lane};
ghost use Rattle.lwkt_port.specs.declared.queues.Port.{Port};
ghost use Rattle.lwkt_port.specs.Chains.{Chain};
ghost use Rattle.lwkt_port.specs.Hints.{OwesNone};
ghost use Rattle.lwkt_port.specs.Lines.{IsRoomed, HasNoneInHand};
ghost use Rattle.lwkt_port.specs.Posts.{ChangesOne, AreStillLines, IsSamePost};
ghost use Rattle.lwkt_port.specs.Works.{Work, work, Grew, away_count, CanStep, MailroomGrew, work_state, KeepsWorkState};
ghost use Rattle.lwkt_port.specs.Intakes.{PaysFirst, Intake, intake, EmptiesFrom, untaken, IsFronted, hall, TakesIn, PostTakesIn};
ghost use Rattle.lwkt_port.specs.Closings.{PostPays};
ghost use Rattle.lwkt_port.specs.Traced.{TracesDeeds};

use crate::lines::{Lane, has_none_in_hand, has_note, has_room};
use crate::mails::{Mail, mail_of};
use crate::offices::Office;
use crate::posts::Ports;
use lwkt_base::MsgId;
use lwkt_core::Event;
use lwkt_core::events::CALL_EVENTS;
use lwkt_msg::MsgBook;

// Moves the note in hand of each sending end on.
fn make_room(lanes: &mut Vec<Lane>)
    ensures rooms { Chain (List Lane) (λ i x y. ChangesOne IsRoomed i x y) (vec_len lanes.old) lanes.old.items lanes.new.items }
    ensures lines { AreStillLines lanes.old lanes.new }
{
    let count = lanes.len();
    for at in 0..count {
        let _ = has_room(&mut lanes[at]);
    }
}

// Whether no note is in hand at any sending end.
fn have_none_in_hand(lanes: &Vec<Lane>) -> bool
    ensures { IsTrue result → All HasNoneInHand lanes.now.items }
{
    lanes.iter().all(has_none_in_hand)
}

impl Office {
    // Makes the replies that are owed, as lanes have room, if there may be one.
    fn pay_owed(&mut self, book: &MsgBook, trace: &mut Vec<Event>)
        requires ready { CanStep 64 self.old.counters.room book.now trace.old }
        ensures { PaysFirst (vec_len self.old.counters.room.mails) 64 self.old trace.old self.new trace.new }
    {
        if !self.owing {
            return;
        }
        let count = self.counters.room.seat.messages() as u8;
        for m in 0..count {
            let mail = mail_of(&self.counters.room.mails, usize::from(m));
            let Some(error) = mail.owed else {
                continue;
            };
            let _ = self.answer(book, MsgId(m), error, 0, trace);
        }
    }
}

// Whether a reply may be owed now: only where one was before, or where closed ports were cleared.
fn may_owe(owing: bool, cleared: bool, mails: &Vec<Mail>) -> bool
    requires hint { owing ≡ false → cleared ≡ false → OwesNone mails.now.items }
    ensures { result ≡ false → OwesNone mails.now.items }
{
    (owing || cleared) && !mails.iter().all(|mail| mail.owed.is_none())
}

impl Office {
    // Empties the lanes from a sender on, one after another, as far as the limit allows. `taken` notes were popped before. Answers
    // how many were popped, those too.
    fn empty_all(
        &mut self,
        book: &MsgBook,
        first: usize,
        taken: usize,
        limit: usize,
        trace: &mut Vec<Event>,
    ) -> usize
        requires ready { CanStep (away_count self.old.counters.room.mails.items + 1) self.old.counters.room book.now trace.old }
        requires first { first ≤ vec_len self.old.lanes }
        requires taken { taken ≤ limit }
        ensures notes { (z : Intake) → Chain Intake (EmptiesFrom limit) first z (intake self.old trace.old taken) → Chain Intake (EmptiesFrom limit) (vec_len self.old.lanes) z (intake self.new trace.new result) }
        ensures keeps { KeepsWorkState (work_state self.old.counters trace.old) (work_state self.new.counters trace.new) }
    {
        let mut count = taken;
        let senders = self.lanes.len();
        for sender in first..senders {
            let most = limit - count;
            count += self
                .counters
                .empty(book, &mut self.lanes[sender], most, trace);
        }
        count
    }
}

// Passes over the lanes that have no note, and gives the sender of the first that has. None if none has one.
#[inline(always)]
fn pass_empty(lanes: &mut Vec<Lane>) -> Option<usize>
    ensures none { result ≡ None → (limit : ℕ) (w : Work) (ports : List Port) → Chain Intake (EmptiesFrom limit) (vec_len lanes.old) (untaken w ports lanes.old.items) (untaken w ports lanes.new.items) }
    ensures some { IfSome result (λ first. (limit : ℕ) (w : Work) (ports : List Port) → IsFronted limit first w ports lanes.old.items lanes.new.items) }
    ensures lines { AreStillLines lanes.old lanes.new }
{
    let senders = lanes.len();
    for sender in 0..senders {
        if has_note(&mut lanes[sender]) {
            return Some(sender);
        }
    }
    None
}

impl Office {
    // Takes the notes in from the first lane with a note on, where nothing was to be done before.
    #[inline(never)]
    fn take_rest(
        &mut self,
        book: &MsgBook,
        first: usize,
        limit: usize,
        trace: &mut Vec<Event>,
    ) -> usize
        requires ready { CanStep CALL_EVENTS self.old.counters.room book.now trace.old }
        requires owing { OwesNone self.old.counters.room.mails.items }
        requires front { (before : List Lane) × IsFronted limit first (work self.old.counters.room trace.old) self.old.counters.ports.items before self.old.lanes.items }
        ensures takes { (before : List Lane) → IsFronted limit first (work self.old.counters.room trace.old) self.old.counters.ports.items before self.old.lanes.items → All HasNoneInHand before → TakesIn limit (record { work = work self.old.counters.room trace.old; lanes = before; ports = self.old.counters.ports.items }) (hall self.new trace.new) result }
        ensures grew_so { MailroomGrew CALL_EVENTS self.old.counters.room trace.old self.new.counters.room trace.new }
    {
        let taken = self
            .counters
            .empty(book, &mut self.lanes[first], limit, trace);
        let count = self.empty_all(book, first + 1, taken, limit, trace);
        let cleared = self.counters.uncleared;
        self.counters.clear_all(book, trace);
        self.owing = may_owe(false, cleared, &self.counters.room.mails);
        count
    }
}

impl Office {
    // Takes the notes in that came over the lanes, after all that comes before.
    #[cold]
    #[inline(never)]
    fn take_all(&mut self, book: &MsgBook, limit: usize, trace: &mut Vec<Event>) -> usize
        requires ready { CanStep CALL_EVENTS self.old.counters.room book.now trace.old }
        ensures takes { TakesIn limit (hall self.old trace.old) (hall self.new trace.new) result }
        ensures grew_so { MailroomGrew CALL_EVENTS self.old.counters.room trace.old self.new.counters.room trace.new }
    {
        make_room(&mut self.lanes);
        self.pay_owed(book, trace);
        let count = self.empty_all(book, 0, 0, limit, trace);
        let cleared = self.counters.uncleared;
        self.counters.clear_all(book, trace);
        self.owing = may_owe(self.owing, cleared, &self.counters.room.mails);
        self.holding = !have_none_in_hand(&self.lanes);
        count
    }
}

impl Office {
    // Takes the notes in that came over the lanes.
    #[inline(always)]
    fn take_in(&mut self, book: &MsgBook, limit: usize, trace: &mut Vec<Event>) -> usize
        requires ready { CanStep CALL_EVENTS self.old.counters.room book.now trace.old }
        ensures takes { TakesIn limit (hall self.old trace.old) (hall self.new trace.new) result }
        ensures grew_so { MailroomGrew CALL_EVENTS self.old.counters.room trace.old self.new.counters.room trace.new }
    {
        if self.owing || self.counters.uncleared || self.holding {
            return self.take_all(book, limit, trace);
        }
        let Some(first) = pass_empty(&mut self.lanes) else {
            return 0;
        };
        self.take_rest(book, first, limit, trace)
    }
}

impl Ports {
    /// Takes notes in that came over the lanes, and answers how many, at most `limit`: each is put into its thread's port,
    /// into the queue of urgent notes or that of the others, and a synchronous answer is taken back and kept for `done`. A
    /// note that finds its queue full is kept, and holds up its own lane and no other. Before that the notes in hand of the
    /// sending ends move on and owed replies go out, as lanes have room; after it the ports of ended threads are cleared, of
    /// at most 16 notes, the urgent ones of each first. In msgport(9) an inter-processor message puts each note into its
    /// port; here a processor asks for them.
    ///
    /// That the trace has room for 256 events is the caller's condition.
    #[inline(always)]
    pub fn take_in(&mut self, book: &MsgBook, limit: usize, trace: &mut Vec<Event>) -> usize
        requires table { self.old.seat.table ≡ book.now.table }
        requires room { vec_len trace.old + CALL_EVENTS ≤ vec_capacity trace.old }
        ensures takes { PostTakesIn limit self.old self.new trace.old trace.new result }
        ensures within { result ≤ limit }
        ensures same { IsSamePost self.old self.new }
        ensures grew { Grew (desk_cpu self.old.seat) CALL_EVENTS trace.old trace.new }
        ensures traced { TracesDeeds self.old.seat self.new.seat trace.old.items trace.new.items }
    {
        self.office.take_in(book, limit, trace)
    }

    /// Makes the replies that are owed, by message number, as lanes have room; the notes in hand of the sending ends move
    /// on before. It takes no notes in: this is for a processor that stops.
    ///
    /// That the trace has room for 256 events is the caller's condition.
    pub fn send_owed(&mut self, book: &MsgBook, trace: &mut Vec<Event>)
        requires table { self.old.seat.table ≡ book.now.table }
        requires room { vec_len trace.old + CALL_EVENTS ≤ vec_capacity trace.old }
        ensures pays { PostPays self.old self.new trace.old trace.new }
        ensures same { IsSamePost self.old self.new }
        ensures grew { Grew (desk_cpu self.old.seat) 64 trace.old trace.new }
        ensures traced { TracesDeeds self.old.seat self.new.seat trace.old.items trace.new.items }
    {
        make_room(&mut self.office.lanes);
        self.office.pay_owed(book, trace);
        self.office.owing = may_owe(self.office.owing, false, &self.office.counters.room.mails);
        self.office.holding = !have_none_in_hand(&self.office.lanes);
    }
}
