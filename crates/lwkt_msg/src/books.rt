ghost use Rattle.std.specs.Prelude.{◌≡◌, ◌⊎◌, ℕ, ◌+◌, ◌*◌, ◌<◌, [], length, All, MatchResult, IfOk};

use crate::closings::{read_and_free, take_all};
use crate::first_tables::{blank_records, known_specs, opening_words, seat_all};
use crate::rules::{BookRule, BookTable, Place, Top};
use crate::seats::MsgSeat;
use crate::views::{Key, View};
use atomic_table::Shared;
use lwkt_base::memory::{table as open_table, with_capacity};
use lwkt_base::{Fault, MsgEnd, MsgSpec, OutOfMemory, Rec};
use lwkt_core::are_within;
use lwkt_table::Resting;
use std::alloc::Global;
use std::marker::Model;

/// A message book: the words of its messages, and the records that no seat has in hand.
#[derive(Drop)]
pub struct MsgBook {
    table: BookTable,
    // The clerk rests until the close, so that threads may share the book.
    clerk: Resting<Rec, View>,
    cpus: usize,
    messages: usize,
}

impl Model for MsgBook {
    ghost use Rattle.lwkt_msg.specs.Desks.{Shelf, IsMsgBook};

    ghost Value = { Shelf };

    ghost view = { λ b. let z : Shelf = record { table = b.table.shared.table_id; cpus = b.cpus; specs = b.table.shared.key.specs.items } in z };

    ghost invariant = { λ b. IsMsgBook b.cpus b.messages b.table.shared.table_id b.table.shared.key b.clerk.seat };
}

impl MsgBook {
    ghost use Rattle.lwkt_base.specs.declared.faults.Fault.TheVariants.{Limits};
    ghost use Rattle.lwkt_core.specs.Opening.{AreWithin};
    ghost use Rattle.lwkt_msg.specs.Desks.{AreOpened, AreClosed, IsBookRoom};
    ghost use Rattle.lwkt_base.specs.Fault.{no_memory};

    /// Opens a book of at most 64 messages, with a seat for each of 1 to 8 processors. Each message is at rest, and its
    /// origin has its record. 39 exactly if a limit is passed, a round is past the last, or the processor of an origin
    /// isn't there; that is looked at before any memory is asked for. 32: an allocation was refused.
    pub fn open(
        alloc: Global,
        specs: &[MsgSpec],
        cpus: usize,
    ) -> Result<(MsgBook, Vec<MsgSeat>), Fault>
        ensures { MatchResult result
            (λ r. AreWithin cpus [] specs.now × AreOpened cpus specs.now r.0 r.1.items)
            (λ fault. ((fault ≡ no_memory) × AreWithin cpus [] specs.now) ⊎ ((fault ≡ Limits) × ¬ AreWithin cpus [] specs.now)) }
    {
        if !are_within(cpus, &[], specs) {
            return Err(Fault::Limits);
        }
        let seats = with_capacity(alloc, 8)?;
        let known = known_specs(alloc, specs)?;
        let layout = Key { specs: known, cpus };
        Ok(MsgBook::open_within(alloc, specs, layout, seats)?)
    }

    // Opens a book that keeps the limits.
    fn open_within(
        alloc: Global,
        specs: &[MsgSpec],
        layout: Key,
        mut seats: Vec<MsgSeat>,
    ) -> Result<(MsgBook, Vec<MsgSeat>), OutOfMemory>
        requires within { AreWithin layout.cpus [] specs.now }
        requires known { layout.specs.items ≡ specs.now }
        requires none { seats.items ≡ [] }
        ensures { IfOk result (λ r. AreOpened layout.cpus specs.now r.0 r.1.items) }
    {
        let cpus = layout.cpus;
        let words = opening_words(alloc, specs, cpus)?;
        let records = blank_records(alloc, specs.len())?;
        let (table, mut clerk): (BookTable, Place) = open_table(alloc, &words, records, &layout)?;
        seat_all(&table.shared, &mut clerk, cpus, specs, &mut seats)?;
        let book = MsgBook {
            table,
            clerk: Resting::of(clerk),
            cpus,
            messages: specs.len(),
        };
        Ok((book, seats))
    }

    /// Room for the close of this book: all that `close_in` takes.
    pub fn room(&self, alloc: Global) -> Result<Vec<MsgEnd>, OutOfMemory>
        ensures { IfOk result (λ room. IsBookRoom self.now room) }
    {
        with_capacity(alloc, self.messages)
    }

    /// Closes the book as `close` does, in room that was made before. It takes no memory, so it can't fail.
    pub fn close_in(self, room: Vec<MsgEnd>, seats: Vec<MsgSeat>) -> Vec<MsgEnd>
        requires as_many { length seats.items ≡ self.cpus }
        requires of_book { All (λ d. d.table ≡ self.table) seats.items }
        requires room { IsBookRoom self room }
        ensures { AreClosed self seats.items result.items }
    {
        let MsgBook {
            table,
            clerk,
            cpus,
            messages,
        } = self;
        let mut clerk = clerk.wake();
        take_all(&table.shared, &mut clerk, cpus, seats);
        let closed = table.close_with(clerk);
        read_and_free(closed, messages, room)
    }

    /// Closes the book, and answers each message's owner state and round. That the seats are as many as the processors,
    /// and all of this book, is the caller's condition. All memory is taken before the first seat is taken back. 32: an
    /// allocation was refused, and the book is given up.
    pub fn close(self, alloc: Global, seats: Vec<MsgSeat>) -> Result<Vec<MsgEnd>, Fault>
        requires as_many { length seats.items ≡ self.cpus }
        requires of_book { All (λ d. d.table ≡ self.table) seats.items }
        ensures { MatchResult result (λ v. AreClosed self seats.items v.items) (λ fault. fault ≡ no_memory) }
    {
        let room = self.room(alloc)?;
        Ok(self.close_in(room, seats))
    }

    /// The table that the book's seats step on. Its type names the rule that the kit keeps between any two steps of any
    /// number of seats. Whoever steps on it has to keep that rule.
    pub fn shared(&self) -> &Shared<Rec, View, Key, BookRule>
        ensures table { result.now.table_id ≡ self.now.table }
        ensures specs { result.now.key.specs.items ≡ self.now.specs }
        ensures processors { result.now.key.cpus ≡ self.now.cpus }
        ensures wide { result.now.table_id.words ≡ 16 * length self.now.specs + 1 }
        ensures deep { result.now.table_id.slots ≡ 4 * length self.now.specs }
    {
        &self.table.shared
    }

    // The part of the table that seats step on.
    pub(crate) fn top(&self) -> &Top
        ensures { result.now.table_id ≡ self.now.table }
    {
        &self.table.shared
    }
}
