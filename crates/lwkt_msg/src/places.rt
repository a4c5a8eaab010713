//! Where the word and the record of a message lie in a book's table: no two words, nor two records, on one line of a cache.
ghost use Rattle.std.specs.Prelude.{◌≡◌, ℕ, ◌+◌, ◌*◌, ◌≤◌};
ghost use Rattle.lwkt_msg.specs.Views.{word_at, slot_at};

use lwkt_base::limits::MESSAGE_LIMIT;

// How far apart the words of two messages lie, and their records.
const WORD_STRIDE: usize = 16;

const SLOT_STRIDE: usize = 4;

// The place of a message's word.
pub(crate) fn word_of_message(m: usize) -> usize
    requires { m ≤ MESSAGE_LIMIT }
    ensures { result ≡ word_at m }
{
    WORD_STRIDE * m + 1
}

// The slot of a message's record.
pub(crate) fn slot_of_message(m: usize) -> usize
    requires { m ≤ MESSAGE_LIMIT }
    ensures { result ≡ slot_at m }
{
    SLOT_STRIDE * m
}

// How many words, and how many slots, the table of so many messages has.
pub(crate) fn words_of(messages: usize) -> usize
    requires { messages ≤ MESSAGE_LIMIT }
    ensures { result ≡ 16 * messages + 1 }
{
    word_of_message(messages)
}

pub(crate) fn slots_of(messages: usize) -> usize
    requires { messages ≤ MESSAGE_LIMIT }
    ensures { result ≡ 4 * messages }
{
    slot_of_message(messages)
}
