//! Streams that fail, at each call in turn: whole runs, and traces in lines.

use lwkt_checker::{Lines, check_lines};
use lwkt_report::{Page, ReaderSource, RunFault, Sink, Source, WriterSink, write_whole};
use lwkt_run::{finish, run_turns};
use std::alloc::Global;
use std::io;
use std::io::{Read, Write};

// One token of 10 under Tally, to which one thread adds 5.
const TALLY_ADD: &[u8] =
    b"{\"version\":1,\"turns\":50,\"idle\":5,\"cpus\":1,\"tokens\":[{\"cells\":[10],\"law\":\"tally\",\"param\":10,\"gen\":0}],\"messages\":[],\"threads\":[{\"cpu\":0,\"repeat\":1,\"steps\":[[\"get\",0],[\"add\",0,5],[\"rel\",0]]}]}";

const TALLY_REPORT: &[u8] =
    b"token 0 gen 1 cells 15\ntally 0 5\nthread 0.0 exited list - log -\nlawful\n";

const STREAM: &[u8] = b"lwkt_run: stream\n";

const AT_ITS_BEGINNING: &[u8] = b"lwkt_run: fault 33 at 0\n";

// A trace in lines.
const LINES: &[u8] =
    b"{\"version\":1,\"cpus\":1,\"tokens\":[{\"cells\":[5],\"law\":\"any\",\"param\":0,\"gen\":0}],\"messages\":[]}\n[\"take\",0,0]\n[\"give_clean\",0,0]\n";

// Gives one byte a call, and fails at the call `bad`, the first being call 1.
#[derive(Drop)]
struct OneByte {
    rest: &'static [u8],
    calls: usize,
    bad: usize,
}

impl OneByte {
    fn new(rest: &'static [u8], bad: usize) -> Self {
        OneByte {
            rest,
            calls: 0,
            bad,
        }
    }
}

impl Read for OneByte {
    fn read(&mut self, buf: &mut [u8]) -> io::Result<usize> {
        self.calls = self.calls.saturating_add(1);
        if self.calls == self.bad {
            return Err(io::Error::from(io::ErrorKind::BrokenPipe));
        }
        let most = buf.len().min(1);
        self.rest.read(&mut buf[..most])
    }
}

// Takes at most `takes` bytes a call, and fails at the calls `bad` to `last_bad`, the first being call 1.
#[derive(Drop)]
struct Frail {
    got: Vec<u8>,
    calls: usize,
    bad: usize,
    last_bad: usize,
    takes: usize,
}

impl Frail {
    fn new(alloc: Global, bad: usize, last_bad: usize, takes: usize) -> Frail {
        Frail {
            got: Vec::new(alloc),
            calls: 0,
            bad,
            last_bad,
            takes,
        }
    }

    fn call(&mut self) -> io::Result<()> {
        self.calls = self.calls.saturating_add(1);
        if self.bad <= self.calls && self.calls <= self.last_bad {
            return Err(io::Error::from(io::ErrorKind::Interrupted));
        }
        Ok(())
    }
}

impl Write for Frail {
    fn write(&mut self, buf: &[u8]) -> io::Result<usize> {
        self.call()?;
        let most = buf.len().min(self.takes);
        self.got.extend_from_slice(&buf[..most])?;
        Ok(most)
    }

    fn flush(&mut self) -> io::Result<()> {
        self.call()
    }
}

// The status of the program after a run in rounds.
fn run_of(alloc: Global, source: &mut impl Source, sink: &mut impl Sink) -> u8 {
    let outcome = run_turns(alloc, source, sink);
    finish(sink, &outcome)
}

// Whether a run from a reader that fails at this call is right; call 0 is none. The failed call is not made again.
fn fails_from(alloc: Global, bad: usize) -> bool {
    let last = TALLY_ADD.len() + 1;
    let mut source = ReaderSource::new(OneByte::new(TALLY_ADD, bad));
    let Ok(mut page) = Page::with_room(alloc, 0) else {
        return false;
    };
    let status = run_of(alloc, &mut source, &mut page);
    let calls = source.reader.calls;
    if bad > 0 && bad <= last {
        return status == 3 && calls == bad && page.text.as_slice() == STREAM;
    }
    status == 0 && calls == last && page.text.as_slice() == TALLY_REPORT
}

// A reader of one byte a call, which fails at each call in turn.
#[test]
fn failing_reads(rt: HostRuntime) {
    for bad in 0..TALLY_ADD.len() + 3 {
        assert!(rt; fails_from(rt.alloc(), bad), "at call {bad}");
    }
}

// The status and the output of a run to a writer of one byte a call, which fails at the calls `bad` to `last_bad`.
fn ran_to_frail(alloc: Global, script: &[u8], bad: usize, last_bad: usize) -> (u8, Vec<u8>) {
    let mut source = script;
    let mut writer = Frail::new(alloc, bad, last_bad, 1);
    let mut sink = WriterSink::new(&mut writer);
    let status = run_of(alloc, &mut source, &mut sink);
    (status, writer.got)
}

// Whether the text is a front of the report of this length, and then this line.
fn is_front_and_line(text: &[u8], length: usize, line: &[u8]) -> bool {
    text.len() >= length && TALLY_REPORT.starts_with(&text[..length]) && &text[length..] == line
}

// Whether a run to a writer that fails at this call alone is right.
fn fails_once(alloc: Global, bad: usize) -> bool {
    let (status, text) = ran_to_frail(alloc, TALLY_ADD, bad, bad);
    if bad > 0 && bad <= TALLY_REPORT.len() + 1 {
        return status == 3 && is_front_and_line(&text, bad - 1, STREAM);
    }
    status == 0 && text.as_slice() == TALLY_REPORT
}

// Whether a run to a writer that fails from this call on is right.
fn fails_for_good(alloc: Global, bad: usize) -> bool {
    let (status, text) = ran_to_frail(alloc, TALLY_ADD, bad, usize::MAX);
    let wanted = if bad > TALLY_REPORT.len() + 1 { 0 } else { 3 };
    status == wanted && TALLY_REPORT.starts_with(text.as_slice())
}

// A writer that fails at each call in turn, and then works again, or not; call 0 is none, the last is the flush.
#[test]
fn failing_writes(rt: HostRuntime) {
    for bad in 0..TALLY_REPORT.len() + 3 {
        assert!(rt; fails_once(rt.alloc(), bad), "at call {bad}");
        assert!(rt; fails_for_good(rt.alloc(), bad), "from call {bad} on");
    }
}

// Whether the status stays where the line in place of a report can't be written from this call on.
fn fails_in_line(alloc: Global, bad: usize) -> bool {
    let (status, text) = ran_to_frail(alloc, b"{", bad, usize::MAX);
    status == 1
        && text.len() == bad.saturating_sub(1)
        && AT_ITS_BEGINNING.starts_with(text.as_slice())
}

#[test]
fn failing_lines(rt: HostRuntime) {
    for bad in 1..AT_ITS_BEGINNING.len() + 2 {
        assert!(rt; fails_in_line(rt.alloc(), bad), "from call {bad} on");
    }
}

#[test]
fn a_write_of_no_byte_is_a_failed_stream(rt: HostRuntime) {
    let mut writer = Frail::new(rt.alloc(), 0, 0, 0);
    let outcome = write_whole(&mut WriterSink::new(&mut writer), b"lawful\n");
    assert!(rt; outcome.is_err() && writer.calls == 1);
}

// Whether a check of a trace in lines from a reader that fails at this call is right.
fn fails_in_lines(alloc: Global, bad: usize) -> bool {
    let mut source = ReaderSource::new(OneByte::new(LINES, bad));
    let Ok(mut page) = Page::with_room(alloc, 0) else {
        return false;
    };
    let found = check_lines(alloc, &mut Lines::new(alloc), &mut source, &mut page);
    if bad > 0 && bad <= LINES.len() + 1 {
        return found == Err(RunFault::Stream) && source.failed && page.text.is_empty();
    }
    found == Ok(true) && !source.failed && page.text.as_slice() == b"lawful\n".as_slice()
}

#[test]
fn failing_reads_of_lines(rt: HostRuntime) {
    for bad in 0..LINES.len() + 3 {
        assert!(rt; fails_in_lines(rt.alloc(), bad), "at call {bad}");
    }
}
