ghost use Rattle.std.specs.Prelude.{◌≡◌, ◌↔◌, ◌≤◌, ◌<◌, ◌⊎◌, ℕ, Bool, List, Option, Some, false, true, IfOk, IfSome, IsTrue, OnOk, OnErr, take, length, vec_len};
ghost use Rattle.std.specs.Io.{ReadsAtMost};
ghost use Rattle.std.specs.Io.KnownBytes.{Consumes, IsAtEnd, ReadConsumes};
ghost use Rattle.lwkt_report.specs.Stream.{Gains};
ghost use Rattle.lwkt_base.specs.Fault.{no_memory};

use crate::streams::{RunFault, StreamError};
use lwkt_base::memory::reserve_for;
use std::alloc::Global;
use std::io::Read;

/// What gives bytes in turn.
pub trait Source {
    // the bytes that it still has, where they are known
    ghost left: { Self → Option (List ℕ) };

    // whether a pull of it has failed
    ghost has_failed: { Self → Bool };

    /// Moves the next bytes to the front of the buffer and says how many these are: 0 only at the end, or where the
    /// buffer is empty.
    ///
    /// An `Err` says that the source failed; no byte is lost by it.
    fn pull(&mut self, buffer: &mut [u8]) -> Result<usize, StreamError>
        ensures bound { ReadsAtMost result buffer.new }
        ensures bytes { ReadConsumes (left self.old) (left self.new) result buffer.new }
        ensures ok { OnOk result (has_failed self.new ≡ has_failed self.old) }
        ensures err { OnErr result (IsTrue (has_failed self.new)) };
}

/// Bytes in memory: they never fail.
impl Source for &[u8] {
    ghost left = { λ bytes. Some bytes.now };

    ghost has_failed = { λ _. false };

    fn pull(&mut self, buffer: &mut [u8]) -> Result<usize, StreamError> {
        match self.read(buffer) {
            Ok(count) => Ok(count),
            Err(_) => unreachable!(),
        }
    }
}

/// Any reader, which is not called again once a call of it has failed. A call that was interrupted has failed.
#[derive(Drop)]
pub struct ReaderSource<R> {
    /// The reader.
    pub reader: R,
    /// Whether a call of the reader has failed.
    pub failed: bool,
}

impl<R: Read> ReaderSource<R> {
    /// A source that reads from the reader, and has made no call of it yet.
    pub fn new(reader: R) -> Self
        ensures { result ≡ record { reader = reader; failed = false } }
    {
        ReaderSource {
            reader,
            failed: false,
        }
    }
}

impl<R: Read> Source for ReaderSource<R> {
    ghost left = { λ source. R.remaining source.reader };

    ghost has_failed = { λ source. source.failed };

    fn pull(&mut self, buffer: &mut [u8]) -> Result<usize, StreamError> {
        if self.failed {
            return Err(StreamError);
        }
        match self.reader.read(buffer) {
            Ok(count) => Ok(count),
            Err(_) => {
                self.failed = true;
                Err(StreamError)
            }
        }
    }
}

/// The most bytes that are read: one more than the longest script has.
pub const READ_LIMIT: usize = 1_048_577;

// How many bytes are asked for at once.
const CHUNK: usize = 4096;

// One pull, of at most as many bytes as `room` has. Memory for them is reserved first, so that no byte is lost.
fn pull_into<S: Source>(
    source: &mut S,
    room: &mut [u8],
    bytes: &mut Vec<u8>,
) -> Result<usize, RunFault>
    ensures bytes { IfOk result (λ count. Gains (S.left source.old) (S.left source.new) bytes.old.items bytes.new.items count) }
    ensures end { IfOk result (λ count. count ≡ 0 → 0 < length room.old → IsAtEnd (S.left source.new)) }
    ensures within { IfOk result (λ count. count ≤ length room.old) }
    ensures ok { OnOk result (S.has_failed source.new ≡ S.has_failed source.old) }
    ensures stream { result ≡ Err RunFault.Stream → IsTrue (S.has_failed source.new) }
    ensures memory { result ≡ Err (RunFault.Fault no_memory) → S.has_failed source.new ≡ S.has_failed source.old }
    ensures only { OnErr result ((result ≡ Err RunFault.Stream) ⊎ (result ≡ Err (RunFault.Fault no_memory))) }
{
    reserve_for(bytes, room)?;
    let count = source.pull(room)?;
    bytes.extend_from_slice(&room[..count]).unwrap();
    Ok(count)
}

/// The bytes of the source to its end, or the first `most` of them; no more are then read.
///
/// Refused with `Stream` if a pull failed, which is not made again, and with `Memory` if an allocation was refused.
pub fn read_up_to<S: Source>(
    alloc: Global,
    source: &mut S,
    most: usize,
) -> Result<Vec<u8>, RunFault>
    requires { 0 < most }
    ensures bytes { IfOk result (λ bytes. IfSome (S.left source.old) (λ left. bytes.items ≡ take most left)) }
    ensures rest { IfOk result (λ bytes. Consumes (S.left source.old) (S.left source.new) bytes.items) }
    ensures within { IfOk result (λ bytes. vec_len bytes ≤ most) }
    ensures ok { OnOk result (S.has_failed source.new ≡ S.has_failed source.old) }
    ensures stream { result ≡ Err RunFault.Stream → IsTrue (S.has_failed source.new) }
    ensures memory { result ≡ Err (RunFault.Fault no_memory) → S.has_failed source.new ≡ S.has_failed source.old }
    ensures only { OnErr result ((result ≡ Err RunFault.Stream) ⊎ (result ≡ Err (RunFault.Fault no_memory))) }
{
    let mut room = [0; CHUNK];
    let mut bytes = Vec::new(alloc);
    for _turn in 0..most {
        let size = CHUNK.min(most - bytes.len());
        let count = pull_into(source, &mut room[..size], &mut bytes)?;
        if count == 0 || bytes.len() == most {
            break;
        }
    }
    Ok(bytes)
}

/// The bytes of the source to its end, or the first 1,048,577 of them; no more are then read.
///
/// Refused with `Stream` if a pull failed, which is not made again, and with `Memory` if an allocation was refused.
pub fn read_capped<S: Source>(alloc: Global, source: &mut S) -> Result<Vec<u8>, RunFault>
    ensures bytes { IfOk result (λ bytes. IfSome (S.left source.old) (λ left. bytes.items ≡ take READ_LIMIT left)) }
    ensures rest { IfOk result (λ bytes. Consumes (S.left source.old) (S.left source.new) bytes.items) }
    ensures within { IfOk result (λ bytes. vec_len bytes ≤ READ_LIMIT) }
    ensures ok { OnOk result (S.has_failed source.new ≡ S.has_failed source.old) }
    ensures stream { result ≡ Err RunFault.Stream → IsTrue (S.has_failed source.new) }
    ensures memory { result ≡ Err (RunFault.Fault no_memory) → S.has_failed source.new ≡ S.has_failed source.old }
    ensures only { OnErr result ((result ≡ Err RunFault.Stream) ⊎ (result ≡ Err (RunFault.Fault no_memory))) }
{
    read_up_to(alloc, source, READ_LIMIT)
}
