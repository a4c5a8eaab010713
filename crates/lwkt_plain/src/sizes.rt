//! How many bytes kept states take: by how many there are, and how many lists and parts of each kind they have. Notes in queues and
//! entries of logs aren't counted.
ghost use Rattle.std.specs.Prelude.{◌≡◌};
ghost use Rattle.lwkt_plain.specs.Sizes.{bytes_of, coded, mail_bytes, processor_bytes, shelf_bytes};

use crate::letters::{Lane, Letter, PORTS, Port};
use crate::parts::Part;
use crate::shelves::Shelf;
use crate::states::{Mail, Processor, Thread};
use crate::stores::Store;
use lwkt_core::Token;
use lwkt_script::Script;
use std::mem::size_of;

const TOKEN: u64 = size_of::<Token>() as u64;

const LETTER: u64 = size_of::<Letter>() as u64;

const LANE: u64 = size_of::<Lane>() as u64;

const PORTS_AND_MAIL: u64 = (size_of::<Mail>() + PORTS * size_of::<Port>()) as u64;

const THREAD: u64 = size_of::<Thread>() as u64;

const PROCESSOR: u64 = size_of::<Processor>() as u64;

// The bytes of so many codes of this length: of their numbers, and of an index of them.
fn coded(count: u64, length: u64) -> u64
    ensures { result ≡ coded count length }
{
    count.saturating_mul(length.saturating_add(3).saturating_mul(4))
}

// The bytes of the mail of a processor.
fn mail_bytes(script: &Script) -> u64
    ensures { result ≡ mail_bytes script.now }
{
    PORTS_AND_MAIL.saturating_add(LANE.saturating_mul(u64::from(script.cpus)))
}

// The bytes of a processor with a thread more than there are on average.
fn processor_bytes(script: &Script) -> u64
    ensures { result ≡ processor_bytes script.now }
{
    let threads = script.threads.as_slice().len() as u64;
    let more = threads / u64::from(script.cpus.max(1)) + 1;
    PROCESSOR.saturating_add(THREAD.saturating_mul(more))
}

impl<P: Part> Shelf<P> {
    // The bytes of its lists and of its parts, if each part takes so many.
    fn bytes(&self, part: u64) -> u64
        ensures { result ≡ shelf_bytes self.now part }
    {
        let lists = coded(self.codes.len() as u64, self.numbers.len() as u64);
        let parts = self.table.parts.len() as u64;
        lists.saturating_add(parts.saturating_mul(part.saturating_add(12)))
    }
}

impl Store {
    /// How many bytes the states of a script take that are kept.
    pub fn bytes(&self, script: &Script) -> u64
        ensures { result ≡ bytes_of script.now self.now }
    {
        let states = coded(self.codes.len() as u64, 4);
        let tokens = self.tokens.bytes(TOKEN);
        let letters = self.letters.bytes(LETTER);
        let mails = self.mails.bytes(mail_bytes(script));
        let cpus = self.cpus.bytes(processor_bytes(script));
        states
            .saturating_add(tokens)
            .saturating_add(letters)
            .saturating_add(mails)
            .saturating_add(cpus)
    }
}
