ghost use Rattle.std.specs.Prelude.{◌≡◌, ◌<◌, [], OnOk, IfOk};
ghost use Rattle.lwkt_text.specs.Scanning.{kind_of, shown, joins, no_scan, word_ended, sentence_ended, put, fed, sentences_of, fed_all};

use crate::many::Many;
use crate::names::Name;
use crate::words::{Sentence, Word};
use lwkt_base::OutOfMemory;
use std::alloc::Global;

/// What a byte is to a text.
#[derive(Clone, Copy, PartialEq, Eq)]
pub enum Kind {
    /// A blank, a tab, a carriage return, a comma or a colon: it parts words.
    Blank,
    /// A line feed or a semicolon: it parts sentences.
    End,
    /// `#`: what follows on the line is a comment.
    Remark,
    /// A letter, a digit or `_`. Those that follow one another are one word.
    Letter,
    /// Any other byte, as `-`, `>` or `=`. Those that follow one another are one word.
    Sign,
    /// A full stop or a bracket, a word of its own.
    Point,
}

/// What of a text was read so far.
#[derive(Drop)]
pub struct Scan {
    /// The sentences that have ended.
    pub sentences: Many<Sentence>,
    /// The words of the sentence that hasn't.
    pub words: Many<Word>,
    /// The characters of the word that hasn't ended.
    pub text: Name,
    /// Where that word begins.
    pub at: usize,
    /// Of what kind its characters are.
    pub kind: Kind,
    /// Whether the line's rest is a comment.
    pub remark: bool,
}

// What a byte is.
fn kind_of(byte: u8) -> Kind
    ensures { result ≡ kind_of byte }
{
    match byte {
        b'\n' | b';' => Kind::End,
        b' ' | b'\t' | b'\r' | b',' | b':' => Kind::Blank,
        b'#' => Kind::Remark,
        b'.' | b'(' | b')' | b'[' | b']' => Kind::Point,
        b'0'..=b'9' | b'A'..=b'Z' | b'a'..=b'z' | b'_' => Kind::Letter,
        _ => Kind::Sign,
    }
}

// The character that stands for a byte: a question mark for those that are no ASCII.
fn shown(byte: u8) -> u8
    ensures exact { result ≡ shown byte }
    ensures ascii { result < 128 }
{
    if byte < 128 { byte } else { b'?' }
}

impl Scan {
    fn new(alloc: Global) -> Self
        ensures { result ≡ no_scan }
    {
        Scan {
            sentences: Many::new(alloc),
            words: Many::new(alloc),
            text: Name::new(alloc),
            at: 0,
            kind: Kind::Blank,
            remark: false,
        }
    }

    // Whether a byte of this kind goes on with the word.
    fn joins(&self, kind: Kind) -> bool
        ensures { result ≡ joins kind self.now }
    {
        self.kind == kind && (kind == Kind::Letter || kind == Kind::Sign)
    }

    // Ends the word, if there is one, before this place.
    fn end_word(&mut self, alloc: Global, end: usize) -> Result<(), OutOfMemory>
        ensures { OnOk result (self.new ≡ word_ended end self.old) }
    {
        self.kind = Kind::Blank;
        if self.text.as_str().is_empty() {
            return Ok(());
        }
        let text = self.text.take(alloc);
        self.words.push(Word {
            at: self.at,
            end,
            text,
        })
    }

    // Ends the sentence, if there is one, before this place.
    fn end_sentence(&mut self, alloc: Global, end: usize) -> Result<(), OutOfMemory>
        ensures { OnOk result (self.new ≡ sentence_ended end self.old) }
    {
        self.end_word(alloc, end)?;
        if self.words.len() == 0 {
            return Ok(());
        }
        let words = self.words.take(alloc);
        let rounds = Many::new(alloc);
        self.sentences.push(Sentence { words, rounds })
    }

    // Puts a byte into the word, or into a new one.
    fn put(&mut self, alloc: Global, at: usize, kind: Kind, byte: u8) -> Result<(), OutOfMemory>
        ensures { OnOk result (self.new ≡ put at kind byte self.old) }
    {
        if !self.joins(kind) {
            self.end_word(alloc, at)?;
            self.at = at;
            self.kind = kind;
        }
        self.text.push(shown(byte))
    }

    // Goes on with the byte at a place.
    #[tactic(auto, unfolding(crate::specs::Scanning::fed))]
    fn feed(&mut self, alloc: Global, at: usize, byte: u8) -> Result<(), OutOfMemory>
        ensures { OnOk result (self.new ≡ fed at byte self.old) }
    {
        if self.remark {
            self.remark = byte != b'\n';
            return Ok(());
        }
        let kind = kind_of(byte);
        match kind {
            Kind::End => self.end_sentence(alloc, at),
            Kind::Blank => self.end_word(alloc, at),
            Kind::Remark => {
                self.remark = true;
                self.end_sentence(alloc, at)
            }
            Kind::Letter | Kind::Sign | Kind::Point => self.put(alloc, at, kind, byte),
        }
    }
}

// All bytes, read.
fn scanned(alloc: Global, bytes: &[u8]) -> Result<Scan, OutOfMemory>
    ensures { IfOk result (λ scan. scan ≡ fed_all 0 bytes.now no_scan) }
{
    let mut scan = Scan::new(alloc);
    for (at, byte) in bytes.iter().enumerate() {
        scan.feed(alloc, at, *byte)?;
    }
    Ok(scan)
}

/// The sentences of a text, in order.
#[tactic(auto, unfolding(crate::specs::Scanning::sentences_of))]
pub fn sentences_of(alloc: Global, bytes: &[u8]) -> Result<Many<Sentence>, OutOfMemory>
    ensures { IfOk result (λ sentences. sentences ≡ sentences_of bytes.now) }
{
    let mut scan = scanned(alloc, bytes)?;
    scan.end_sentence(alloc, bytes.len())?;
    Ok(scan.sentences)
}
