//! Looks at an open bank's table.
ghost use Rattle.std.specs.Prelude.{◌≡◌, ◌+◌, ◌*◌, ◌<◌};
ghost use Rattle.lwkt_bank.specs.Rule.{token_word};
ghost use Rattle.lwkt_bank.specs.Seats.{id_of, bank_of, cpus_of, tokens_of};
ghost use Rattle.lwkt_tie.specs.Looks.{IsWordNow, IsWordBeside};
ghost use Rattle.lwkt_tie.specs.Sound.{IsFoundWord, IsFoundBeside};

use crate::plays::{Finds, FindsBeside, Processors};
use atomic_table::{Seat, Shared};
use lwkt_bank::rules::{BankRule, Key};
use lwkt_bank::views::View;
use lwkt_bank::{Bank, CpuSeat, laws as bank_laws};
use lwkt_base::{Blob, TokId};
use lwkt_core::headline;
use std::marker::Brand;

// Where the word of a token lies.
fn place_of(tok: TokId) -> usize
    ensures { result ≡ token_word tok.0 }
{
    16 * usize::from(tok.0) + 1
}

// Loads a word with a seat that is made for it.
fn word_found<K: Processors>(table: &Shared<Blob, View, Key, BankRule>, word: usize) -> u64
    requires processors { table.now.key.cpus ≡ K.cpus }
    requires there { word < table.now.table_id.words }
    ensures { IsWordNow table.now.key.plans.items K.cpus word result }
{
    bank_laws::looks_from_outside_are_no_deeds();
    let (found, _seat) = table.load_new_seat::<Finds<K>>(word);
    found
}

// Loads a word with a seat of the bank, which stays as it is.
fn word_found_beside<K: Processors>(
    table: &Shared<Blob, View, Key, BankRule>,
    seat: &mut Seat<Blob, View>,
    word: usize,
) -> u64
    requires processors { table.now.key.cpus ≡ K.cpus }
    requires of { (seat.old.table_id ≡ table.now.table_id) × (seat.old.me.0.plans ≡ table.now.key.plans.items) }
    requires there { word < table.now.table_id.words }
    ensures { IsWordBeside table.now.key.plans.items K.cpus seat.old.me.0 word result }
{
    table.load::<FindsBeside<K>>(seat, word)
}

/// The word of a token, loaded from outside. It is that of a state that the bank's table was in just then, in which the
/// headline holds.
pub fn word_now(bank: &Bank, tok: TokId) -> u64
    requires { tok.0 < tokens_of (id_of bank.now) }
    ensures { IsFoundWord (id_of bank.now) (cpus_of bank.now) tok.0 result }
{
    headline::runs_are_compatible();
    headline::runs_keep_laws();
    word_found::<Brand>(bank.shared(), place_of(tok))
}

/// The word of a token, loaded beside a seat of the bank, which is given up. It is that of a state in which the headline
/// holds, and in which the seat's processor holds what the seat says, and has done what the seat says.
pub fn word_beside(bank: &Bank, seat: CpuSeat, tok: TokId) -> u64
    requires of { bank_of seat ≡ id_of bank.now }
    requires there { tok.0 < tokens_of (id_of bank.now) }
    ensures { IsFoundBeside (id_of bank.now) (cpus_of bank.now) seat tok.0 result }
{
    headline::runs_are_compatible();
    headline::runs_keep_laws();
    let mut place = seat.into_seat();
    word_found_beside::<Brand>(bank.shared(), &mut place, place_of(tok))
}
