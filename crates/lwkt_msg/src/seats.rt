ghost use Rattle.std.specs.Prelude.{◌≡◌, ◌⊎◌, ◌<◌, ◌≤◌, IfErr, MatchResult};

use crate::answers::{Reaped, Taken};
use crate::books::MsgBook;
use crate::calls;
use crate::calls::Sending;
use crate::rules::Place;
use crate::views::View;
use atomic_table::Seat;
use lwkt_base::limits::{CPU_LIMIT, MESSAGE_LIMIT};
use lwkt_base::{Call, CpuId, Fault, Flags, MsgId, Rec};
use std::marker::Model;

/// A processor's seat at a message book, with the records of its own messages at rest and of those that it has taken.
#[derive(Drop)]
pub struct MsgSeat {
    place: Place,
    cpus: usize,
    messages: usize,
    cpu: CpuId,
}

impl Model for MsgSeat {
    ghost use Rattle.lwkt_msg.specs.Desks.{Desk, desk, IsMsgSeat};

    ghost Value = { Desk };

    ghost view = { λ s. desk s.place };

    ghost invariant = { λ s. IsMsgSeat s.cpu s.cpus s.messages s.place };
}

impl MsgSeat {
    ghost use Rattle.lwkt_base.specs.declared.faults.Fault.TheVariants.{NotOwner, NotOut, NotDropable, NotTaken};
    ghost use Rattle.lwkt_base.specs.declared.names.CpuId.{CpuId};
    ghost use Rattle.lwkt_msg.specs.Desks.{desk, desk_cpu, cpus_of, messages_of, IsMsgSeat, IsSeatOf, IsSameDesk};
    ghost use Rattle.lwkt_msg.specs.Plays.{IsSat};
    ghost use Rattle.lwkt_msg.specs.Calls.{HasSent, IsUnsent, TakeMeans, HasReplied, IsUnreplied, ReapMeans, HasDropped, IsUndropped, HasLostDrop, HasRequested, IsUnrequested, ReadsRequest};

    // The seat of a processor, from its place at the table.
    pub(crate) fn new(place: Place, cpu: CpuId, cpus: usize, messages: usize) -> MsgSeat
        requires { IsMsgSeat cpu cpus messages place }
        ensures { result ≡ desk place }
    {
        MsgSeat {
            place,
            cpus,
            messages,
            cpu,
        }
    }

    // The place at the table.
    pub(crate) fn into_place(self) -> Place
        ensures place { desk result ≡ self }
        ensures sat { (cpu : CpuId) × IsSat cpu result }
    {
        let MsgSeat {
            place,
            cpus: _,
            messages: _,
            cpu: _,
        } = self;
        place
    }

    /// Whose seat it is.
    pub fn cpu(&self) -> CpuId
        ensures is { result ≡ desk_cpu self.now }
        ensures seat { IsSeatOf result self.now }
    {
        self.cpu
    }

    /// How many messages the book has, 0 to 64.
    pub fn messages(&self) -> usize
        ensures count { result ≡ messages_of self.now }
        ensures few { result ≤ MESSAGE_LIMIT }
    {
        self.messages
    }

    /// How many processors the book has seats for, 1 to 8.
    pub fn cpus(&self) -> usize
        ensures count { result ≡ cpus_of self.now }
        ensures few { result ≤ CPU_LIMIT }
    {
        self.cpus
    }

    /// Sends an own message that is at rest to a processor, and answers its round. `sync` says that the sender waits for
    /// the reply. 25: there is no such message, it belongs to another processor, or it is away. 36: it is at its last
    /// round.
    pub fn send(
        &mut self,
        book: &MsgBook,
        msg: MsgId,
        target: CpuId,
        call: Call,
        flags: Flags,
        sync: bool,
    ) -> Result<u64, Fault>
        requires table { self.old.table ≡ book.now.table }
        requires target { target.0 < cpus_of self.old }
        ensures seat { IsSameDesk self.old self.new }
        ensures answer { MatchResult result
            (λ round. (msg.0 < messages_of self.old) × HasSent (desk_cpu self.old) self.old.view self.new.view msg.0 target call flags sync round)
            (λ fault. ((messages_of self.old ≤ msg.0) × (fault ≡ NotOwner) × (self.new ≡ self.old)) ⊎ ((msg.0 < messages_of self.old) × IsUnsent (desk_cpu self.old) self.old.view self.new.view msg.0 fault)) }
    {
        let m = usize::from(msg.0);
        if m >= self.messages {
            return Err(Fault::NotOwner);
        }
        let top = book.top();
        let sending = Sending {
            target,
            call,
            flags,
            sync,
        };
        calls::send(top, &mut self.place, self.cpu, m, &sending)
    }

    /// Takes a message that was sent to this processor in this round. That the message exists is the caller's condition.
    pub fn take(&mut self, book: &MsgBook, msg: MsgId, round: u64) -> Taken
        requires table { self.old.table ≡ book.now.table }
        requires exists { msg.0 < messages_of self.old }
        ensures seat { IsSameDesk self.old self.new }
        ensures answer { TakeMeans (desk_cpu self.old) self.old.view self.new.view msg.0 round result }
    {
        let top = book.top();
        calls::take(top, &mut self.place, self.cpu, usize::from(msg.0), round)
    }

    /// Replies to a message that this processor has taken. 31: it has not, or there is no such message.
    pub fn reply(
        &mut self,
        book: &MsgBook,
        msg: MsgId,
        error: u32,
        outcome: u64,
    ) -> Result<(), Fault>
        requires { self.old.table ≡ book.now.table }
        ensures seat { IsSameDesk self.old self.new }
        ensures answer { MatchResult result
            (λ _. (msg.0 < messages_of self.old) × HasReplied self.old.view self.new.view msg.0 error outcome)
            (λ fault. ((messages_of self.old ≤ msg.0) × (fault ≡ NotTaken) × (self.new ≡ self.old)) ⊎ ((msg.0 < messages_of self.old) × IsUnreplied self.old.view self.new.view msg.0 fault)) }
    {
        let m = usize::from(msg.0);
        if m >= self.messages {
            return Err(Fault::NotTaken);
        }
        let top = book.top();
        calls::reply(top, &mut self.place, self.cpu, m, error, outcome)
    }

    /// Takes an own message back that was replied to in this round. That the message exists is the caller's condition.
    pub fn reap(&mut self, book: &MsgBook, msg: MsgId, round: u64) -> Reaped
        requires table { self.old.table ≡ book.now.table }
        requires exists { msg.0 < messages_of self.old }
        ensures seat { IsSameDesk self.old self.new }
        ensures answer { ReapMeans (desk_cpu self.old) self.old.view self.new.view msg.0 round result }
    {
        let top = book.top();
        calls::reap(top, &mut self.place, self.cpu, usize::from(msg.0), round)
    }

    /// Drops an own message that is on its way: takes it back before its target has taken it, with its record as it was
    /// sent. The message is at rest then, in the round that it had, and no request to abort is noted in it. 25: there is
    /// no such message, or it belongs to another processor. 26: it is not on its way, or its target took it just before
    /// the exchange of this call. 28: its last send didn't allow it.
    ///
    /// It never answers 34: while a message is on its way, only its target and its origin change its word, and the origin
    /// is making this call. So an exchange that finds another word has found the message taken, and a second try would
    /// be refused too.
    pub fn drop_msg(&mut self, book: &MsgBook, msg: MsgId) -> Result<Rec, Fault>
        requires table { self.old.table ≡ book.now.table }
        ensures seat { IsSameDesk self.old self.new }
        ensures never_again { IfErr result (λ fault. (fault ≡ NotOwner) ⊎ (fault ≡ NotOut) ⊎ (fault ≡ NotDropable)) }
        ensures answer { MatchResult result
            (λ rec. (msg.0 < messages_of self.old) × HasDropped (desk_cpu self.old) self.old.view self.new.view msg.0 rec)
            (λ fault. ((messages_of self.old ≤ msg.0) × (fault ≡ NotOwner) × (self.new ≡ self.old)) ⊎ ((msg.0 < messages_of self.old) × (IsUndropped (desk_cpu self.old) self.old.view self.new.view msg.0 fault ⊎ HasLostDrop (desk_cpu self.old) self.old.view self.new.view msg.0 fault))) }
    {
        let m = usize::from(msg.0);
        if m >= self.messages {
            return Err(Fault::NotOwner);
        }
        let top = book.top();
        calls::drop_msg(top, &mut self.place, self.cpu, m)
    }

    /// Asks for an own message to be aborted that is on its way or taken: sets the bit of the request in its word. Its
    /// target sees it when it takes the message, or by `is_aborted` until it replies. The reply may come before the bit
    /// is set; then the request has no effect, and the reap clears it. 25: there is no such message, or it belongs to
    /// another processor. 26: it is at rest or was replied to. 27: its last send didn't allow it.
    pub fn abort(&mut self, book: &MsgBook, msg: MsgId) -> Result<(), Fault>
        requires table { self.old.table ≡ book.now.table }
        ensures seat { IsSameDesk self.old self.new }
        ensures answer { MatchResult result
            (λ _. (msg.0 < messages_of self.old) × HasRequested (desk_cpu self.old) self.old.view self.new.view msg.0)
            (λ fault. ((messages_of self.old ≤ msg.0) × (fault ≡ NotOwner) × (self.new ≡ self.old)) ⊎ ((msg.0 < messages_of self.old) × IsUnrequested (desk_cpu self.old) self.old.view self.new.view msg.0 fault)) }
    {
        let m = usize::from(msg.0);
        if m >= self.messages {
            return Err(Fault::NotOwner);
        }
        let top = book.top();
        calls::abort(top, &mut self.place, self.cpu, m)
    }

    /// Whether the origin of a message that this processor has taken has asked, since it sent the message, for it to be
    /// aborted. 31: this processor hasn't taken it, or there is no such message.
    pub fn is_aborted(&mut self, book: &MsgBook, msg: MsgId) -> Result<bool, Fault>
        requires table { self.old.table ≡ book.now.table }
        ensures seat { IsSameDesk self.old self.new }
        ensures answer { MatchResult result
            (λ aborted. (msg.0 < messages_of self.old) × ReadsRequest self.old.view self.new.view msg.0 aborted)
            (λ fault. ((messages_of self.old ≤ msg.0) × (fault ≡ NotTaken) × (self.new ≡ self.old)) ⊎ ((msg.0 < messages_of self.old) × IsUnreplied self.old.view self.new.view msg.0 fault)) }
    {
        let m = usize::from(msg.0);
        if m >= self.messages {
            return Err(Fault::NotTaken);
        }
        let top = book.top();
        calls::is_aborted(top, &mut self.place, self.cpu, m)
    }
}

impl MsgSeat {
    ghost use Rattle.lwkt_table.specs.declared.seats.SeatKind.TheVariants.{Of};
    ghost use Rattle.lwkt_msg.specs.Desks.{desk, desk_cpu};
    ghost use Rattle.lwkt_msg.specs.Hands.{AreHands};

    /// The seat at the book's table that the calls step with.
    pub fn seat(&self) -> &Seat<Rec, View>
        ensures is { desk result.now ≡ self.now }
        ensures kind { result.now.me.0.kind ≡ Of (desk_cpu self.now) }
        ensures hands { AreHands result.now.me.0 (desk_cpu self.now).0 result.now.me.1 }
    {
        &self.place
    }

    /// Gives up the calls, and keeps the seat at the book's table. The book can't be closed then.
    pub fn into_seat(self) -> Seat<Rec, View>
        ensures is { desk result ≡ self }
        ensures kind { result.me.0.kind ≡ Of (desk_cpu self) }
        ensures hands { AreHands result.me.0 (desk_cpu self).0 result.me.1 }
    {
        self.into_place()
    }
}
