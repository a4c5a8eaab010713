//! The seats are taken back, and the closing values are read.
ghost use Rattle.std.specs.Prelude.{◌≡◌, ℕ, ◌+◌, ◌*◌, ◌<◌, ◌≤◌, [], length, vec_capacity, All};
ghost use Rattle.std.specs.Slots.{slots_items, slots_len, IsFull};
ghost use Rattle.lwkt_msg.specs.Desks.{shown_owner, shown_end, AreShown, HasTakenBack};
ghost use Rattle.lwkt_msg.specs.Views.{joined};
ghost use Rattle.lwkt_base.specs.declared.message_words.MsgWord.{MsgWord};
ghost use Rattle.lwkt_base.specs.MessageWord.{message_word, MessageFits};
ghost use Rattle.lwkt_table.specs.declared.seats.SeatKind.TheVariants.{Clerk};

use crate::places::word_of_message;
use crate::plays::{CutOff, TakeBack};
use crate::rules::{Place, Top};
use crate::seats::MsgSeat;
use atomic_table::Closed;
use lwkt_base::limits::MESSAGE_LIMIT;
use lwkt_base::{MsgEnd, MsgState, MsgWord, Owner, Rec};
use std::alloc::Global;

// Whom a word shows the message with.
fn owner_of(word: &MsgWord) -> Owner
    ensures { result ≡ shown_owner word.now }
{
    let origin = word.origin;
    let target = word.target;
    match word.state {
        MsgState::Rest => Owner::Rest { origin },
        MsgState::Out => Owner::Out { origin, target },
        MsgState::With => Owner::With { origin, target },
        MsgState::Back => Owner::Back { origin, target },
    }
}

// What a word shows of its message.
fn end_shown(word: u64) -> MsgEnd
    ensures { (w : MsgWord) → MessageFits w → message_word w ≡ word → result ≡ shown_end w }
{
    let word = MsgWord::parts(word);
    MsgEnd {
        round: word.round,
        state: owner_of(&word),
    }
}

// Takes one seat back.
fn take_back(top: &Top, clerk: &mut Place, seat: MsgSeat)
    requires table { (clerk.old.table_id ≡ top.now.table_id) × (seat.table ≡ top.now.table_id) × (0 < top.now.table_id.words) }
    requires clerk { (made : ℕ) × (back : ℕ) × (clerk.old.me.0.kind ≡ Clerk made back) }
    ensures seat { (clerk.new.table_id ≡ clerk.old.table_id) × (clerk.new.id ≡ clerk.old.id) }
    ensures view { clerk.new.me.0 ≡ joined clerk.old.me.0 seat.view }
{
    let mut place = seat.into_place();
    let whole = top.split_seat::<CutOff>(&mut place);
    top.join_seat::<TakeBack>(clerk, whole);
}

// Takes all seats back.
pub(crate) fn take_all(top: &Top, clerk: &mut Place, cpus: usize, seats: Vec<MsgSeat>)
    requires table { (clerk.old.table_id ≡ top.now.table_id) × (0 < top.now.table_id.words) }
    requires seats { (length seats.items ≡ cpus) × All (λ d. d.table ≡ top.now.table_id) seats.items }
    requires clerk { (clerk.old.me.0.kind ≡ Clerk cpus 0) × (clerk.old.me.0.chapters ≡ []) }
    ensures seat { (clerk.new.table_id ≡ clerk.old.table_id) × (clerk.new.id ≡ clerk.old.id) }
    ensures view { HasTakenBack cpus clerk.old.me.0 seats.items clerk.new.me.0 }
{
    let mut seats = seats;
    while let Some(seat) = seats.pop() {
        take_back(top, clerk, seat);
    }
}

// What the closing words show, in this room.
fn read_ends(closed: &Closed<Rec, Global>, messages: usize, room: Vec<MsgEnd>) -> Vec<MsgEnd>
    requires words { IsFull closed.now.words × (slots_len closed.now.words ≡ 16 * messages + 1) }
    requires few { messages ≤ MESSAGE_LIMIT }
    requires none { room.items ≡ [] }
    requires room { messages ≤ vec_capacity room }
    ensures { AreShown messages (slots_items closed.now.words) result.items }
{
    let mut ends = room;
    for m in 0..messages {
        ends.push_reserved(end_shown(closed.word(word_of_message(m))));
    }
    ends
}

// Frees a closed table.
fn free(closed: Closed<Rec, Global>)
    requires { IsFull closed.slots }
{
    let mut closed = closed;
    for slot in 0..closed.slot_count() {
        let _record = closed.take(slot);
    }
    closed.free();
}

// The closing values of a table, in this room.
pub(crate) fn read_and_free(
    closed: Closed<Rec, Global>,
    messages: usize,
    room: Vec<MsgEnd>,
) -> Vec<MsgEnd>
    requires words { IsFull closed.words × (slots_len closed.words ≡ 16 * messages + 1) }
    requires slots { IsFull closed.slots }
    requires few { messages ≤ MESSAGE_LIMIT }
    requires none { room.items ≡ [] }
    requires room { messages ≤ vec_capacity room }
    ensures { AreShown messages (slots_items closed.words) result.items }
{
    let shown = read_ends(&closed, messages, room);
    free(closed);
    shown
}
