//! The steps of a seat at the book's table, over the bare seat.
ghost use Rattle.std.specs.Prelude.{◌≡◌, ℕ, ◌+◌, ◌<◌, ◌≤◌, true, false, length, MatchOption};
ghost use Rattle.lwkt_base.specs.declared.names.CpuId.{CpuId};
ghost use Rattle.lwkt_base.specs.declared.records.Rec.{Rec};
ghost use Rattle.lwkt_base.specs.declared.message_words.MsgState.TheVariants as state;
ghost use Rattle.lwkt_base.specs.MessageWord.{message_word, MessageFits};
ghost use Rattle.lwkt_msg.specs.Views.{call_of, at, who, flags_of, sent, answered};
ghost use Rattle.lwkt_msg.specs.Deeds.{sends, replies};
ghost use Rattle.lwkt_msg.specs.Calls.{answered_rec};
ghost use Rattle.lwkt_msg.specs.Hands.{IsOwn, IsInHand};
ghost use Rattle.lwkt_base.specs.declared.limits.TheConstants.{LAST_ROUND};
ghost use Rattle.lwkt_msg.specs.Steps.{sent_word, rest_word};
ghost use Rattle.lwkt_msg.specs.Plays.{IsAfter, Looked, HasWon, HasLost, HasFetched, HasRecalled, HasMissed, HasAsked, IsSat, IsSameSeat, IsInFront};

use crate::places::{slot_of_message, word_of_message};
use crate::plays::{Abort, DropMsg, Look, Reap, Reply, Send, Take};
use crate::rules::{Place, Top};
use lwkt_base::limits::MESSAGE_LIMIT;
use lwkt_base::{CpuId, MsgWord, Rec};

// The bit of the request to abort in a message's word.
const ABORT_REQUEST: u64 = 4;

// Loads the word of a message. If the seat has its record in hand, that lies in front then.
pub(crate) fn look(top: &Top, place: &mut Place, m: usize) -> u64
    requires table { place.old.table_id ≡ top.now.table_id }
    requires sat { (cpu : CpuId) × IsSat cpu place.old }
    requires exists { m < length place.old.me.0.specs }
    ensures seat { IsSameSeat place.old place.new }
    ensures looked { Looked m place.old.me result place.new.me }
    ensures sat { (cpu : CpuId) → IsSat cpu place.old → IsSat cpu place.new }
{
    top.load::<Look>(place, word_of_message(m))
}

// The record of a message, which lies in front.
fn front(top: &Top, place: &mut Place, m: usize) -> Rec
    requires table { place.old.table_id ≡ top.now.table_id }
    requires few { m < MESSAGE_LIMIT }
    requires held { (rec : Rec) × IsInFront place.old m rec }
    ensures seat { IsSameSeat place.old place.new × (place.new.me ≡ place.old.me) }
    ensures value { IsInFront place.old m result }
{
    *place.slot_mut(top, slot_of_message(m))
}

// Gives the record of a message away, by the store of a send. The word is that of the message after the send.
pub(crate) fn put(top: &Top, place: &mut Place, m: usize, rec: Rec, word: MsgWord)
    requires table { place.old.table_id ≡ top.now.table_id }
    requires sat { IsSat word.origin place.old }
    requires exists { m < length place.old.me.0.specs }
    requires home { IsOwn place.old.me.0 word.origin.0 m × ((at place.old.me.0 m).had ≡ true) × ((at place.old.me.0 m).away ≡ false) × ((at place.old.me.0 m).taken ≡ false) }
    requires word { word ≡ sent_word word.origin word.target ((at place.old.me.0 m).round + 1) word.sync (flags_of word) }
    requires fits { (word.target.0 < place.old.me.0.cpus) × ((at place.old.me.0 m).round < LAST_ROUND) }
    requires clean { (rec.error ≡ 0) × (rec.result ≡ 0) }
    requires held { (old : Rec) × IsInFront place.old m old }
    ensures seat { IsSameSeat place.old place.new }
    ensures view { IsAfter place.old.me.0 m (sent word (call_of rec) (at place.old.me.0 m)) (sends (who place.old.me.0) m word.target word.round (message_word word) rec) place.new.me.0 }
    ensures sat { IsSat word.origin place.new }
{
    top.exchange(place, slot_of_message(m), rec);
    top.store::<Send>(place, word_of_message(m), word.make());
}

// Takes a message, by an exchange of its word. The word found before is that of a message on its way to this processor.
pub(crate) fn win(top: &Top, place: &mut Place, m: usize, found: u64, word: MsgWord) -> Option<Rec>
    requires table { place.old.table_id ≡ top.now.table_id }
    requires sat { IsSat word.target place.old }
    requires exists { m < length place.old.me.0.specs }
    requires word { (found ≡ message_word word) × MessageFits word × (word.state ≡ state.Out) }
    requires new { IsInHand place.old.me.0 word.target.0 m → ⊥ }
    ensures seat { IsSameSeat place.old place.new }
    ensures sat { IsSat word.target place.new }
    ensures view { MatchOption result (HasLost m found place.old.me.0 place.new.me.0) (λ rec. HasWon m word place.old.me.0 rec place.new.me.0) }
{
    let seen = top.compare_exchange::<Take>(place, word_of_message(m), found, found + 1);
    if seen == found {
        Some(front(top, place, m))
    } else {
        None
    }
}

// Gives the record of a message back, with the error and result of the reply, by the addition of a reply.
pub(crate) fn answer(top: &Top, place: &mut Place, m: usize, cpu: CpuId, error: u32, outcome: u64)
    requires table { place.old.table_id ≡ top.now.table_id }
    requires sat { IsSat cpu place.old }
    requires exists { m < length place.old.me.0.specs }
    requires taken { ((at place.old.me.0 m).taken ≡ true) × (IsOwn place.old.me.0 cpu.0 m → (at place.old.me.0 m).away ≡ true) }
    requires held { (rec : Rec) × IsInFront place.old m rec × (call_of rec ≡ (at place.old.me.0 m).got) }
    ensures seat { IsSameSeat place.old place.new }
    ensures sat { IsSat cpu place.new }
    ensures view { (found : ℕ) × IsAfter place.old.me.0 m (answered error outcome (at place.old.me.0 m)) (replies (who place.old.me.0) m found (answered_rec (at place.old.me.0 m).got error outcome)) place.new.me.0 }
{
    let mut rec = front(top, place, m);
    rec.error = error;
    rec.result = outcome;
    top.exchange(place, slot_of_message(m), rec);
    top.fetch_add::<Reply>(place, word_of_message(m), 1);
}

// Takes the record of a message back that came back, by the store of a reap. The word is that of the message at rest.
pub(crate) fn fetch(top: &Top, place: &mut Place, m: usize, word: MsgWord) -> Rec
    requires table { place.old.table_id ≡ top.now.table_id }
    requires sat { IsSat word.origin place.old }
    requires exists { m < length place.old.me.0.specs }
    requires back { IsOwn place.old.me.0 word.origin.0 m × ((at place.old.me.0 m).had ≡ true) × ((at place.old.me.0 m).back ≡ true) × ((at place.old.me.0 m).away ≡ true) × ((at place.old.me.0 m).taken ≡ false) }
    requires word { word ≡ rest_word word.origin (at place.old.me.0 m).round }
    requires fits { (at place.old.me.0 m).round ≤ LAST_ROUND }
    ensures seat { IsSameSeat place.old place.new }
    ensures sat { IsSat word.origin place.new }
    ensures view { HasFetched m (message_word word) place.old.me.0 result place.new.me.0 }
{
    top.store::<Reap>(place, word_of_message(m), word.make());
    front(top, place, m)
}

// Takes the record of a message back that nobody has taken, by an exchange of its word for that of the message at rest. The word found
// before is that of an own message on its way.
pub(crate) fn recall(
    top: &Top,
    place: &mut Place,
    m: usize,
    found: u64,
    word: MsgWord,
    home: MsgWord,
) -> Option<Rec>
    requires table { place.old.table_id ≡ top.now.table_id }
    requires sat { IsSat word.origin place.old }
    requires exists { m < length place.old.me.0.specs }
    requires word { (found ≡ message_word word) × MessageFits word × (word.state ≡ state.Out) }
    requires home { home ≡ rest_word word.origin word.round }
    requires own { IsOwn place.old.me.0 word.origin.0 m × ((at place.old.me.0 m).had ≡ true) × ((at place.old.me.0 m).away ≡ true) × ((at place.old.me.0 m).taken ≡ false) × (word.round ≡ (at place.old.me.0 m).round) }
    ensures seat { IsSameSeat place.old place.new }
    ensures sat { IsSat word.origin place.new }
    ensures view { MatchOption result (HasMissed m (message_word word) (message_word home) place.old.me.0 place.new.me.0) (λ rec. HasRecalled m word (message_word home) place.old.me.0 rec place.new.me.0) }
{
    let at_rest = home.make();
    let seen = top.compare_exchange::<DropMsg>(place, word_of_message(m), found, at_rest);
    if seen == found {
        Some(front(top, place, m))
    } else {
        None
    }
}

// Asks for a message to be aborted, by setting the bit of its word. Its origin is this processor.
pub(crate) fn request(top: &Top, place: &mut Place, m: usize, cpu: CpuId)
    requires table { place.old.table_id ≡ top.now.table_id }
    requires sat { IsSat cpu place.old }
    requires exists { m < length place.old.me.0.specs }
    requires own { IsOwn place.old.me.0 cpu.0 m × ((at place.old.me.0 m).away ≡ true) }
    ensures seat { IsSameSeat place.old place.new }
    ensures sat { IsSat cpu place.new }
    ensures view { HasAsked m place.old.me.0 place.new.me.0 }
{
    top.fetch_or::<Abort>(place, word_of_message(m), ABORT_REQUEST);
}
