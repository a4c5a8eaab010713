ghost use Rattle.std.specs.Prelude.{is_some, ◌≡◌, ◌+◌, ◌≤◌, ◌<◌, ℕ, Bool, List, [], Option, Some, false, true, IfOk, IsOk, IsTrue, OnOk, OnErr, length, vec_len, vec_capacity};
ghost use Rattle.std.specs.Io.{WritesAtMost};
ghost use Rattle.std.specs.Io.KnownBytes.{Appends, Keeps, WriteAppends};
ghost use Rattle.lwkt_report.specs.Stream.{AppendsFront};

use crate::streams::StreamError;
use lwkt_base::OutOfMemory;
use lwkt_base::memory::{MOST_ROOM, extend_from_slice, with_capacity};
use std::alloc::Global;
use std::io::Write;

/// What takes bytes in turn.
pub trait Sink {
    // the bytes that it has taken, where they are known
    ghost contents: { Self → Option (List ℕ) };

    // whether a call of it has failed
    ghost has_failed: { Self → Bool };

    // whether it keeps back nothing of what it has taken, as far as it knows
    ghost is_flushed: { Self → Type 0 };

    // whether it is known to take so many bytes more
    ghost has_room: { Self → ℕ → Type 0 } = { λ _ _. ⊥ };

    /// Takes bytes from the front of these and says how many: at least one where there is one.
    ///
    /// An `Err` says that the sink failed, and took nothing.
    fn put(&mut self, bytes: &[u8]) -> Result<usize, StreamError>
        ensures bound { WritesAtMost result bytes.now }
        ensures some { IfOk result (λ count. 0 < length bytes.now → 0 < count) }
        ensures bytes { WriteAppends (contents self.old) (contents self.new) result bytes.now }
        ensures ok { OnOk result (has_failed self.new ≡ has_failed self.old) }
        ensures err { OnErr result (IsTrue (has_failed self.new)) }
        ensures fits { has_room self.old (length bytes.now) → IsOk result }
        ensures room { IfOk result (λ count. (more : ℕ) → has_room self.old (count + more) → has_room self.new more) };

    /// Hands on what it keeps back.
    ///
    /// An `Err` says that the sink failed.
    fn flush(&mut self) -> Result<(), StreamError>
        ensures bytes { Keeps (contents self.old) (contents self.new) }
        ensures flushed { OnOk result (is_flushed self.new) }
        ensures ok { OnOk result (has_failed self.new ≡ has_failed self.old) }
        ensures err { OnErr result (IsTrue (has_failed self.new)) }
        ensures fits { has_room self.old 0 → IsOk result };
}

/// Any writer. A write that was interrupted, or that takes no byte of some, has failed; it is not made again.
#[derive(Drop)]
pub struct WriterSink<W> {
    /// The writer.
    pub writer: W,
    /// Whether a call of the writer has failed.
    pub failed: bool,
    /// Whether a flush of the writer came after its last write, and didn't fail.
    pub flushed: bool,
}

impl<W: Write> WriterSink<W> {
    /// A sink that writes to the writer, and has made no call of it yet.
    pub fn new(writer: W) -> Self
        ensures { result ≡ record { writer = writer; failed = false; flushed = false } }
    {
        WriterSink {
            writer,
            failed: false,
            flushed: false,
        }
    }
}

impl<W: Write> Sink for WriterSink<W> {
    ghost contents = { λ sink. W.contents sink.writer };

    ghost has_failed = { λ sink. sink.failed };

    ghost is_flushed = { λ sink. IsTrue sink.flushed };

    fn put(&mut self, bytes: &[u8]) -> Result<usize, StreamError> {
        self.flushed = false;
        match self.writer.write(bytes) {
            Ok(count) if count > 0 || bytes.is_empty() => Ok(count),
            _ => {
                self.failed = true;
                Err(StreamError)
            }
        }
    }

    fn flush(&mut self) -> Result<(), StreamError> {
        self.flushed = self.writer.flush().is_ok();
        if !self.flushed {
            self.failed = true;
            return Err(StreamError);
        }
        Ok(())
    }
}

/// Text in memory. It takes all that fits the room that it has, and more where memory is there.
#[derive(Drop)]
pub struct Page {
    /// The bytes that were put, in order.
    pub text: Vec<u8>,
    /// That memory for more was refused, where it was.
    pub refused: Option<OutOfMemory>,
}

impl Page {
    /// An empty page with room for so many bytes.
    ///
    /// Refused if memory for them is.
    pub fn with_room(alloc: Global, room: usize) -> Result<Self, OutOfMemory>
        requires { room ≤ MOST_ROOM }
        ensures text { IfOk result (λ page. page.text.items ≡ []) }
        ensures room { IfOk result (λ page. room ≤ vec_capacity page.text) }
        ensures refused { IfOk result (λ page. page.refused ≡ None) }
    {
        Ok(Page {
            text: with_capacity(alloc, room)?,
            refused: None,
        })
    }
}

impl Sink for Page {
    ghost contents = { λ page. Some page.text.items };

    ghost has_failed = { λ page. is_some page.refused };

    // memory keeps nothing back
    ghost is_flushed = { λ _. Unit {0} };

    ghost has_room = { λ page more. vec_len page.text + more ≤ vec_capacity page.text };

    fn put(&mut self, bytes: &[u8]) -> Result<usize, StreamError> {
        match extend_from_slice(&mut self.text, bytes) {
            Ok(()) => Ok(bytes.len()),
            Err(refused) => {
                self.refused = Some(refused);
                Err(StreamError)
            }
        }
    }

    fn flush(&mut self) -> Result<(), StreamError> {
        Ok(())
    }
}

/// Writes all the bytes, in as many writes as it takes, and then flushes.
///
/// An `Err` says that the sink failed; the failed call is not made again, and a front of the bytes stands, or all of
/// them where the flush failed.
pub fn write_whole<K: Sink>(sink: &mut K, bytes: &[u8]) -> Result<(), StreamError>
    ensures whole { OnOk result (Appends (K.contents sink.old) (K.contents sink.new) bytes.now) }
    ensures flushed { OnOk result (K.is_flushed sink.new) }
    ensures front { AppendsFront (K.contents sink.old) (K.contents sink.new) bytes.now }
    ensures ok { OnOk result (K.has_failed sink.new ≡ K.has_failed sink.old) }
    ensures err { OnErr result (IsTrue (K.has_failed sink.new)) }
    ensures fits { K.has_room sink.old (length bytes.now) → IsOk result }
{
    let mut done = 0;
    for _turn in 0..bytes.len() {
        if done == bytes.len() {
            break;
        }
        done += sink.put(&bytes[done..])?;
    }
    sink.flush()
}
