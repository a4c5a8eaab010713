//! Keys by which parts of states are found again.
ghost use Rattle.std.specs.Prelude.{◌≡◌, ℕ, List};
ghost use Rattle.lwkt_search.specs.Codes.{mixed};
ghost use Rattle.lwkt_plain.specs.Hashes.{key_of_all, held_key, token_key, letter_key, phase_number, entry_number, entry_key, ref_key, thread_key, note_key, lane_key, port_key, mail_key, processor_key};

use crate::letters::{Lane, Letter, Note, Port};
use crate::states::{Mail, Phase, Processor, Thread};
use lwkt_base::{Entry, Held, Ref};
use lwkt_core::Token;
use lwkt_search::codes::mixed;

/// Parts with keys.
pub trait Keyed {
    ghost key_of: { ℕ → Self → ℕ };

    /// The key of this part behind others.
    fn key(&self, key: u64) -> u64
        ensures { result ≡ key_of key self.now };
}

// The key of parts, each with its own.
fn key_of_all<T: Keyed>(key: u64, parts: &[T]) -> u64
    ensures { result ≡ key_of_all T.key_of key parts.now }
{
    let mut key = key;
    for part in parts {
        key = part.key(key);
    }
    key
}

impl Keyed for u64 {
    ghost key_of = { mixed };

    fn key(&self, key: u64) -> u64 {
        mixed(key, *self)
    }
}

impl Keyed for Held {
    ghost key_of = { held_key };

    fn key(&self, key: u64) -> u64 {
        mixed(key, self.references() as u64)
    }
}

impl Keyed for Ref {
    ghost key_of = { ref_key };

    fn key(&self, key: u64) -> u64 {
        mixed(key, u64::from(self.tok.0))
    }
}

// A number that an entry of a log has.
fn entry_number(entry: &Entry) -> u64
    ensures { result ≡ entry_number entry.now }
{
    match entry {
        Entry::Value(n) => *n,
        Entry::Bytes(blob) => u64::from(blob.len()),
        Entry::Aborted(yes) => { if *yes { 1 } else { 2 } }
        Entry::Request(msg, _) => u64::from(msg.0),
        Entry::Reply(_, _, result) => *result,
        Entry::NoMessage => 3,
        Entry::Dropped(..) => 4,
        Entry::Refused(number) => u64::from(*number),
        Entry::Failed(number) => u64::from(*number),
    }
}

impl Keyed for Entry {
    ghost key_of = { entry_key };

    fn key(&self, key: u64) -> u64 {
        mixed(key, entry_number(self))
    }
}

impl Keyed for Note {
    ghost key_of = { note_key };

    fn key(&self, key: u64) -> u64 {
        mixed(key, u64::from(self.msg.0))
    }
}

impl Keyed for Lane {
    ghost key_of = { lane_key };

    fn key(&self, key: u64) -> u64 {
        let key = mixed(key, self.queue.len() as u64);
        key_of_all(key, self.queue.as_slice())
    }
}

impl Keyed for Port {
    ghost key_of = { port_key };

    fn key(&self, key: u64) -> u64 {
        let key = mixed(key, self.urgent.len() as u64);
        let key = key_of_all(key, self.urgent.as_slice());
        let key = mixed(key, self.ordinary.len() as u64);
        key_of_all(key, self.ordinary.as_slice())
    }
}

// The number of what a thread is doing.
fn phase_number(phase: Phase) -> u64
    ensures { result ≡ phase_number phase }
{
    match phase {
        Phase::Live => 0,
        Phase::AwaitsItem => 1,
        Phase::AwaitsReply(_) => 2,
        Phase::Exited => 3,
        Phase::Faulted(_) => 4,
    }
}

impl Keyed for Thread {
    ghost key_of = { thread_key };

    fn key(&self, key: u64) -> u64 {
        let key = mixed(key, phase_number(self.phase));
        let key = mixed(key, self.local.at as u64);
        let key = mixed(key, u64::from(self.local.left));
        let key = key_of_all(key, &self.local.vars);
        let key = key_of_all(key, self.list.refs());
        key_of_all(key, self.log.as_slice())
    }
}

/// The key of a token.
pub(crate) fn token_key(token: &Token) -> u64
    ensures { result ≡ token_key token.now }
{
    let key = mixed(0, token.generation);
    let key = mixed(key, u64::from(token.mark));
    let key = key_of_all(key, token.row.as_slice());
    key_of_all(key, &token.holders)
}

/// The key of a message.
pub(crate) fn letter_key(letter: &Letter) -> u64
    ensures { result ≡ letter_key letter.now }
{
    let key = mixed(0, letter.word.round);
    let key = mixed(key, letter.word.state.number());
    let key = mixed(key, letter.rec.arg);
    mixed(key, letter.rec.result)
}

/// The key of a processor's mail.
pub(crate) fn mail_key(mail: &Mail) -> u64
    ensures { result ≡ mail_key mail.now }
{
    let key = key_of_all(0, mail.lanes.as_slice());
    key_of_all(key, mail.ports.as_slice())
}

/// The key of a processor.
pub(crate) fn processor_key(cpu: &Processor) -> u64
    ensures { result ≡ processor_key cpu.now }
{
    let running = match cpu.running {
        None => 0,
        Some(k) => mixed(1, k as u64),
    };
    let key = mixed(mixed(0, cpu.cursor as u64), running);
    key_of_all(key, cpu.threads.as_slice())
}
