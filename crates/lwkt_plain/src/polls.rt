//! A poll of a thread: it logs its last answer, and asks what is next.
ghost use Rattle.std.specs.Prelude.{◌≡◌, Option, IfOk, OnOk, option_and_then};
ghost use Rattle.std.specs.Option.{option_copied};
ghost use Rattle.lwkt_base.specs.declared.asks.Ask.{Ask};
ghost use Rattle.lwkt_base.specs.declared.entries.Entry.{Entry};
ghost use Rattle.lwkt_script.specs.Logs.{failure_of};
ghost use Rattle.lwkt_plain.specs.Turns.{logged, entry_heard, next_of, heard, asks, polled, ended_by, spec_at};

use crate::items::Items;
use crate::states::{Phase, Thread};
use lwkt_base::limits::LOG_LIMIT;
use lwkt_base::{Answer, Ask, Entry, OutOfMemory, TokList};
use lwkt_code::Code;
use lwkt_script::{Script, ThreadSpec, entry_of, failure_of};

// Puts an entry in a log, if there is one and the log has room.
fn note(log: &mut Items<Entry>, entry: Option<Entry>) -> Result<(), OutOfMemory>
    ensures { OnOk result (log.new ≡ logged log.old entry) }
{
    let Some(entry) = entry else {
        return Ok(());
    };
    if log.len() < LOG_LIMIT {
        log.push(entry)?;
    }
    Ok(())
}

/// The plan of the thread of a number.
pub(crate) fn spec_at<'a>(script: &'a Script, c: usize, k: usize) -> Option<&'a ThreadSpec>
    ensures { option_copied result ≡ spec_at script.now c k }
{
    let mut left = k;
    for spec in script.threads.as_slice() {
        if usize::from(spec.cpu.0) == c {
            if left == 0 {
                return Some(spec);
            }
            left -= 1;
        }
    }
    None
}

impl Thread {
    // What its last answer puts in its log.
    fn entry(&self, code: &Code) -> Option<Entry>
        ensures { result ≡ entry_heard code.now self.now }
    {
        let ask = self.asked?;
        if code.logs(&self.local, &self.last) {
            entry_of(ask, self.last)
        } else {
            None
        }
    }

    // It hears its last answer.
    fn hear(&mut self, code: &Code) -> Result<(), OutOfMemory>
        ensures { OnOk result (self.new ≡ heard code.now self.old) }
    {
        let entry = self.entry(code);
        note(&mut self.log, entry)
    }

    // It asks what is next.
    fn ask(&mut self, code: &Code) -> Result<Ask, OutOfMemory>
        ensures ask { IfOk result (λ ask. ask ≡ (next_of code.now self.old).0) }
        ensures goes { OnOk result (self.new ≡ asks code.now self.old) }
    {
        let last = self.last;
        let ask = code.next(&mut self.local, &last);
        note(&mut self.log, failure_of(&ask))?;
        self.busy = None;
        self.asked = Some(ask);
        Ok(ask)
    }

    /// Polls it.
    pub(crate) fn poll(&mut self, code: &Code) -> Result<Ask, OutOfMemory>
        ensures ask { IfOk result (λ ask. ask ≡ (next_of code.now self.old).0) }
        ensures goes { OnOk result (self.new ≡ polled code.now self.old) }
    {
        self.hear(code)?;
        self.ask(code)
    }

    /// Ends it.
    pub(crate) fn end(&mut self, phase: Phase)
        ensures { self.new ≡ ended_by phase self.old }
    {
        self.phase = phase;
        self.list = TokList::new();
        self.last = Answer::Done;
        self.busy = None;
    }
}
