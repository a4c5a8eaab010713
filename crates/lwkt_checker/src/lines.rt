ghost use Rattle.std.specs.Prelude.{◌≡◌, ◌+◌, ◌≤◌, ◌<◌, ◌⊎◌, [], ◌∷◌, ◌++◌, ℕ, List, Option, false, take, if◌then◌else◌, IfOk, OnOk, OnErr, Err, IsTrue, vec_len};
ghost use Rattle.std.specs.List.{list_any};
ghost use Rattle.std.specs.Io.KnownBytes.{Keeps, IsAtEnd, prepend_known};
ghost use Rattle.lwkt_base.specs.Fault.{no_memory};
ghost use Rattle.lwkt_checker.specs.Line.{is_line_feed};
ghost use Rattle.lwkt_checker.specs.LineReading.{IsLineFront, unread, left_of, IsNextLine};

use lwkt_base::OutOfMemory;
use lwkt_base::limits::LINE_BYTES;
use lwkt_base::memory::extend_from_slice;
use lwkt_report::{RunFault, Source};
use std::alloc::Global;
use std::mem::swap;

// How many bytes are asked for at once.
const CHUNK: usize = 4096;

/// The lines of a source, read one after the other.
#[derive(Drop)]
pub struct Lines {
    /// The bytes that the source gave last.
    pub room: Vec<u8>,
    /// Where those of them begin that stand in no line yet.
    pub from: usize,
    /// The line that was read last, without its line feed.
    pub line: Vec<u8>,
    /// The first line, once a further one was asked for.
    pub opening: Vec<u8>,
    /// How many lines were asked for: the number of the last, counted from 1.
    pub number: usize,
}

// How many bytes stand before the first line feed, and whether there is one.
fn front_of(bytes: &[u8]) -> (usize, bool)
    ensures { IsLineFront bytes.now result.0 result.1 }
{
    for (i, byte) in bytes.iter().enumerate() {
        if *byte == b'\n' {
            return (i, true);
        }
    }
    (bytes.len(), false)
}

// Appends to a line what stands before the first line feed, or all where there is none; says how many bytes these are, and
// whether there is one.
fn add_front(line: &mut Vec<u8>, bytes: &[u8]) -> Result<(usize, bool), OutOfMemory>
    ensures front { IfOk result (λ front. IsLineFront bytes.now front.0 front.1) }
    ensures line { IfOk result (λ front. line.new.items ≡ line.old.items ++ take front.0 bytes.now) }
{
    let (count, ended) = front_of(bytes);
    extend_from_slice(line, &bytes[..count])?;
    Ok((count, ended))
}

// Asks a source for bytes, which take the place of those that were there.
fn refill<S: Source>(room: &mut Vec<u8>, source: &mut S) -> Result<(), RunFault>
    ensures given { OnOk result (Keeps (S.left source.old) (prepend_known room.new.items (S.left source.new))) }
    ensures end { OnOk result (vec_len room.new ≡ 0 → IsAtEnd (S.left source.new)) }
    ensures ok { OnOk result (S.has_failed source.new ≡ S.has_failed source.old) }
    ensures stream { result ≡ Err RunFault.Stream → IsTrue (S.has_failed source.new) }
    ensures memory { result ≡ Err (RunFault.Fault no_memory) → S.has_failed source.new ≡ S.has_failed source.old }
    ensures only { OnErr result ((result ≡ Err RunFault.Stream) ⊎ (result ≡ Err (RunFault.Fault no_memory))) }
{
    let mut given = [0; CHUNK];
    let count = source.pull(&mut given)?;
    room.clear();
    extend_from_slice(room, &given[..count])?;
    Ok(())
}

impl Lines {
    /// No line is read yet.
    pub fn new(alloc: Global) -> Lines
        ensures left { (left : Option (List ℕ)) → left_of result left ≡ left }
        ensures number { result.number ≡ 0 }
    {
        Lines {
            room: Vec::new(alloc),
            from: 0,
            line: Vec::new(alloc),
            opening: Vec::new(alloc),
            number: 0,
        }
    }

    /// The first line, where one was read.
    pub fn opening_line(&self) -> &[u8]
        ensures only { self.now.number ≤ 1 → result.now ≡ self.now.line.items }
        ensures kept { 1 < self.now.number → result.now ≡ self.now.opening.items }
    {
        if self.number > 1 {
            self.opening.as_slice()
        } else {
            self.line.as_slice()
        }
    }

    // Begins a line. The first one is kept.
    fn begin(&mut self)
        ensures line { self.new.line.items ≡ [] }
        ensures opening { self.old.number ≡ 1 → self.new.opening.items ≡ self.old.line.items }
        ensures unread { unread self.new ≡ unread self.old }
    {
        if self.number == 1 {
            swap(&mut self.opening, &mut self.line);
        }
        self.line.clear();
        self.number = self.number.saturating_add(1);
    }

    // Asks for bytes where all that were given stand in lines; says whether there are some.
    fn fill<S: Source>(&mut self, source: &mut S) -> Result<bool, RunFault>
        ensures kept { OnOk result (Keeps (left_of self.old (S.left source.old)) (left_of self.new (S.left source.new))) }
        ensures line { self.new.line ≡ self.old.line }
        ensures some { IfOk result (λ some. IsTrue some → self.new.from < vec_len self.new.room) }
        ensures end { IfOk result (λ some. some ≡ false → IsAtEnd (left_of self.new (S.left source.new))) }
        ensures ok { OnOk result (S.has_failed source.new ≡ S.has_failed source.old) }
        ensures stream { result ≡ Err RunFault.Stream → IsTrue (S.has_failed source.new) }
        ensures memory { result ≡ Err (RunFault.Fault no_memory) → S.has_failed source.new ≡ S.has_failed source.old }
        ensures only { OnErr result ((result ≡ Err RunFault.Stream) ⊎ (result ≡ Err (RunFault.Fault no_memory))) }
    {
        if self.from < self.room.len() {
            return Ok(true);
        }
        refill(&mut self.room, source)?;
        self.from = 0;
        Ok(!self.room.is_empty())
    }

    // Moves what stands before the next line feed to the line, or all where there is none; says whether there is one.
    fn take_front(&mut self) -> Result<bool, OutOfMemory>
        requires { self.old.from < vec_len self.old.room }
        ensures moved { IfOk result (λ ended. (piece : List ℕ) × ((self.new.line.items ≡ self.old.line.items ++ piece) × ((list_any is_line_feed piece ≡ false) × (unread self.old ≡ piece ++ (if ended then 10 ∷ unread self.new else unread self.new))))) }
        ensures longer { IfOk result (λ ended. ended ≡ false → vec_len self.old.line < vec_len self.new.line) }
    {
        let unread = &self.room.as_slice()[self.from..];
        let (count, ended) = add_front(&mut self.line, unread)?;
        self.from += if ended { count + 1 } else { count };
        Ok(ended)
    }

    /// Reads the next line of a source; says whether a line feed ended it. Without one nothing more is left, and the line is
    /// empty where nothing was; or the line has more than 1,048,576 bytes, and at most 4,096 more of it were read.
    ///
    /// Refused with `Stream` if a pull failed, which is not made again, and with `Memory` if an allocation was refused.
    pub fn read_line<S: Source>(&mut self, source: &mut S) -> Result<bool, RunFault>
        ensures line { IfOk result (λ ended. IsNextLine (left_of self.old (S.left source.old)) (left_of self.new (S.left source.new)) self.new.line.items ended) }
        ensures ok { OnOk result (S.has_failed source.new ≡ S.has_failed source.old) }
        ensures stream { result ≡ Err RunFault.Stream → IsTrue (S.has_failed source.new) }
        ensures only { OnErr result ((result ≡ Err RunFault.Stream) ⊎ (result ≡ Err (RunFault.Fault no_memory))) }
    {
        self.begin();
        while self.line.len() <= LINE_BYTES {
            if !self.fill(source)? {
                return Ok(false);
            }
            if self.take_front()? {
                return Ok(true);
            }
        }
        Ok(false)
    }
}
