//! Looks at an open book's table.
ghost use Rattle.std.specs.Prelude.{◌≡◌, ◌+◌, ◌*◌, ◌<◌, length};
ghost use Rattle.lwkt_msg.specs.Views.{word_at};
ghost use Rattle.lwkt_tie.specs.Mails.{IsMailNow, IsMailBeside, IsMailFound, IsMailFoundBeside};

use crate::plays::{Declared, FindsMail, FindsMailBeside};
use atomic_table::{Seat, Shared};
use lwkt_base::{MsgId, Rec};
use lwkt_msg::rules::BookRule;
use lwkt_msg::views::{Key, View};
use lwkt_msg::{MsgBook, MsgSeat, laws as book_laws};
use std::marker::Brand;

// Where the word of a message lies.
fn place_of(msg: MsgId) -> usize
    ensures { result ≡ word_at msg.0 }
{
    16 * usize::from(msg.0) + 1
}

// Loads a word with a seat that is made for it.
fn mail_found<D: Declared>(table: &Shared<Rec, View, Key, BookRule>, word: usize) -> u64
    requires declared { (table.now.key.specs.items ≡ D.specs) × (table.now.key.cpus ≡ D.cpus) }
    requires there { word < table.now.table_id.words }
    ensures { IsMailNow D.specs D.cpus word result }
{
    book_laws::looks_from_outside_are_no_deeds();
    let (found, _seat) = table.load_new_seat::<FindsMail<D>>(word);
    found
}

// Loads a word with a seat of the book, which stays as it is.
fn mail_found_beside<D: Declared>(
    table: &Shared<Rec, View, Key, BookRule>,
    seat: &mut Seat<Rec, View>,
    word: usize,
) -> u64
    requires declared { (table.now.key.specs.items ≡ D.specs) × (table.now.key.cpus ≡ D.cpus) }
    requires of { seat.old.table_id ≡ table.now.table_id }
    requires there { word < table.now.table_id.words }
    ensures { IsMailBeside D.specs D.cpus seat.old.me.0 word result }
{
    table.load::<FindsMailBeside<D>>(seat, word)
}

/// The word of a message, loaded from outside. It is that of a state that the book's table was in just then, in which the
/// headline holds.
pub fn mail_now(book: &MsgBook, msg: MsgId) -> u64
    requires { msg.0 < length book.now.specs }
    ensures { IsMailFound book.now msg.0 result }
{
    book_laws::rule_shows_safety();
    book_laws::states_are_reached();
    mail_found::<Brand>(book.shared(), place_of(msg))
}

/// The word of a message, loaded beside a seat of the book, which is given up. It is that of a state in which the headline
/// holds, and in which what the seat knows is so, and its processor has done what the seat says.
pub fn mail_beside(book: &MsgBook, seat: MsgSeat, msg: MsgId) -> u64
    requires of { seat.table ≡ book.now.table }
    requires there { msg.0 < length book.now.specs }
    ensures { IsMailFoundBeside book.now seat msg.0 result }
{
    book_laws::rule_shows_safety();
    book_laws::states_are_reached();
    let mut place = seat.into_seat();
    mail_found_beside::<Brand>(book.shared(), &mut place, place_of(msg))
}
