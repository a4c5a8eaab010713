ghost use Rattle.std.specs.Prelude.{◌≡◌, ◌≤◌, ◌<◌, OnOk, IfOk};
ghost use Rattle.lwkt_text.specs.Listing.{no_names, no_listing, new_name, names_read, token_added, message_added, next_thread, thread_added, var_added, cpu_named, cpu_used, thread_used, HasCpus, token_listed, message_listed, thread_listed, cpus_listed, sentence_listed, all_listed};
ghost use Rattle.lwkt_text.specs.Expanding.{names_of};
ghost use Rattle.lwkt_text.specs.Looking.{number_at};
ghost use Rattle.lwkt_text.specs.Parting.{cells_in};

use crate::declarations::cells_in;
use crate::expansions::spread_of;
use crate::looks::{demand_at, name_at, number_at, text_at};
use crate::many::Many;
use crate::names::Name;
use crate::scans::sentences_of;
use crate::tables::{Names, Variable, position};
use crate::words::{Sentence, Word};
use crate::wrongs::{Slip, What, Wrong};
use lwkt_base::limits::MOST_CPUS;
use lwkt_base::{CpuId, OutOfMemory, ThreadId};
use std::alloc::Global;

/// The names of a text so far, and what is wrong with them.
#[derive(Drop)]
pub struct Listing {
    /// The names so far.
    pub names: Names,
    /// Whether a sentence says how many processors there are.
    pub is_said: bool,
    /// What is wrong with them.
    pub faults: Many<Wrong>,
}

/// Word 1 is a name that none of these is.
pub fn new_name(names: &[Name], words: &[Word]) -> Result<(), Wrong>
    ensures { result ≡ new_name names.now words.now }
{
    name_at(words, 1)?;
    let is_new = position(names, text_at(words, 1)).is_none();
    demand_at(words, 1, What::Twice, is_new)
}

// The names of the cells of a token's sentence, none where they are wrong.
fn names_read(alloc: Global, words: &[Word]) -> Result<Many<Name>, OutOfMemory>
    ensures { IfOk result (λ names. names ≡ names_read (cells_in words.now)) }
{
    match cells_in(alloc, words) {
        Ok(cells) => Ok(cells.names),
        Err(Slip::Memory(refused)) => Err(refused),
        Err(Slip::Wrong(_)) => Ok(Many::new(alloc)),
    }
}

// The number of the next thread of a processor.
fn next_thread(cpu: u8, ids: &[ThreadId]) -> u8
    ensures { result ≡ next_thread cpu ids.now }
{
    let count = ids.iter().filter(|id| id.cpu.0 == cpu).count();
    if count <= 255 { count as u8 } else { 255 }
}

// The processor that a thread's sentence names, 0 where it names none.
fn cpu_named(words: &[Word]) -> u8
    ensures exact { result ≡ cpu_named words.now }
    ensures most { result ≤ 7 }
{
    match number_at(words, 3, 0, 7) {
        Ok(cpu) => cpu as u8,
        Err(_) => 0,
    }
}

impl Names {
    fn new(alloc: Global) -> Self
        ensures { result ≡ no_names }
    {
        Names {
            tokens: Many::new(alloc),
            cells: Many::new(alloc),
            messages: Many::new(alloc),
            threads: Many::new(alloc),
            ids: Many::new(alloc),
            vars: Many::new(alloc),
            cpus: 1,
        }
    }

    fn add_token(&mut self, alloc: Global, words: &[Word]) -> Result<(), OutOfMemory>
        ensures { OnOk result (self.new ≡ token_added words.now self.old) }
    {
        let cells = names_read(alloc, words)?;
        self.tokens.push(Name::of(alloc, text_at(words, 1))?)?;
        self.cells.push(cells)
    }

    fn add_message(&mut self, alloc: Global, words: &[Word]) -> Result<(), OutOfMemory>
        ensures { OnOk result (self.new ≡ message_added words.now self.old) }
    {
        self.messages.push(Name::of(alloc, text_at(words, 1))?)
    }

    fn add_thread(&mut self, alloc: Global, words: &[Word], cpu: u8) -> Result<(), OutOfMemory>
        ensures { OnOk result (self.new ≡ thread_added words.now cpu self.old) }
    {
        let thread = next_thread(cpu, self.ids.as_slice());
        self.threads.push(Name::of(alloc, text_at(words, 1))?)?;
        self.ids.push(ThreadId {
            cpu: CpuId(cpu),
            thread,
        })
    }

    fn add_var(&mut self, alloc: Global, words: &[Word]) -> Result<(), OutOfMemory>
        ensures { OnOk result (self.new ≡ var_added words.now self.old) }
    {
        let thread = self.threads.len().saturating_sub(1);
        let name = Name::of(alloc, text_at(words, 1))?;
        self.vars.push(Variable { thread, name })
    }
}

impl Listing {
    fn new(alloc: Global, faults: Many<Wrong>) -> Self
        ensures { result ≡ record no_listing { faults = faults } }
    {
        Listing {
            names: Names::new(alloc),
            is_said: false,
            faults,
        }
    }

    fn list_token(&mut self, alloc: Global, words: &[Word]) -> Result<(), OutOfMemory>
        ensures ok { OnOk result (self.new ≡ token_listed (new_name self.old.names.tokens words.now) words.now self.old) }
        ensures cpus { OnOk result (HasCpus self.old → HasCpus self.new) }
    {
        match new_name(self.names.tokens.as_slice(), words) {
            Ok(()) => self.names.add_token(alloc, words),
            Err(wrong) => self.faults.push(wrong),
        }
    }

    fn list_message(&mut self, alloc: Global, words: &[Word]) -> Result<(), OutOfMemory>
        ensures ok { OnOk result (self.new ≡ message_listed (new_name self.old.names.messages words.now) words.now self.old) }
        ensures cpus { OnOk result (HasCpus self.old → HasCpus self.new) }
    {
        match new_name(self.names.messages.as_slice(), words) {
            Ok(()) => self.names.add_message(alloc, words),
            Err(wrong) => self.faults.push(wrong),
        }
    }

    // A thread is on this processor.
    fn use_cpu(&mut self, cpu: u8)
        requires { cpu ≤ 7 }
        ensures exact { self.new ≡ cpu_used cpu self.old }
        ensures cpus { HasCpus self.old → HasCpus self.new }
    {
        if !self.is_said && cpu + 1 > self.names.cpus {
            self.names.cpus = cpu + 1;
        }
    }

    // A thread of this processor is named.
    fn use_thread(&mut self, alloc: Global, words: &[Word], cpu: u8) -> Result<(), OutOfMemory>
        requires { cpu ≤ 7 }
        ensures ok { OnOk result (self.new ≡ thread_used words.now cpu self.old) }
        ensures cpus { OnOk result (HasCpus self.old → HasCpus self.new) }
    {
        self.names.add_thread(alloc, words, cpu)?;
        self.use_cpu(cpu);
        Ok(())
    }

    fn list_thread(&mut self, alloc: Global, words: &[Word]) -> Result<(), OutOfMemory>
        ensures ok { OnOk result (self.new ≡ thread_listed (new_name self.old.names.threads words.now) words.now self.old) }
        ensures cpus { OnOk result (HasCpus self.old → HasCpus self.new) }
    {
        match new_name(self.names.threads.as_slice(), words) {
            Ok(()) => self.use_thread(alloc, words, cpu_named(words)),
            Err(wrong) => self.faults.push(wrong),
        }
    }

    fn list_cpus(&mut self, words: &[Word])
        ensures exact { self.new ≡ cpus_listed (number_at words.now 1 1 MOST_CPUS) self.old }
        ensures cpus { HasCpus self.old → HasCpus self.new }
    {
        if let Ok(cpus) = number_at(words, 1, 1, 8) {
            self.names.cpus = cpus as u8;
            self.is_said = true;
        }
    }

    // What a sentence adds.
    #[tactic(auto, unfolding(crate::specs::Listing::sentence_listed))]
    fn list(&mut self, alloc: Global, words: &[Word]) -> Result<(), OutOfMemory>
        ensures ok { OnOk result (self.new ≡ sentence_listed words.now self.old) }
        ensures cpus { OnOk result (HasCpus self.old → HasCpus self.new) }
    {
        match text_at(words, 0) {
            "token" => self.list_token(alloc, words),
            "message" => self.list_message(alloc, words),
            "thread" => self.list_thread(alloc, words),
            "cpus" => {
                self.list_cpus(words);
                Ok(())
            }
            "var" => self.names.add_var(alloc, words),
            _ => Ok(()),
        }
    }
}

/// The names that sentences give, behind what is wrong before.
pub fn listing_of(
    alloc: Global,
    sentences: &[Sentence],
    faults: Many<Wrong>,
) -> Result<Listing, OutOfMemory>
    ensures ok { IfOk result (λ listing. listing ≡ all_listed sentences.now (record no_listing { faults = faults })) }
    ensures cpus { IfOk result HasCpus }
{
    let mut listing = Listing::new(alloc, faults);
    for sentence in sentences {
        listing.list(alloc, sentence.words.as_slice())?;
    }
    Ok(listing)
}

/// The names that a text gives, whatever else is wrong with it.
pub fn names_of(alloc: Global, bytes: &[u8]) -> Result<Names, OutOfMemory>
    ensures { IfOk result (λ names. names ≡ names_of bytes.now) }
{
    let sentences = sentences_of(alloc, bytes)?;
    let spread = spread_of(alloc, sentences.as_slice())?;
    let listing = listing_of(alloc, spread.sentences.as_slice(), Many::new(alloc))?;
    Ok(listing.names)
}
