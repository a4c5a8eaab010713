//! Stretches: written sections of one token that go on from each other, of which only the beginning and the end are kept.
ghost use Rattle.std.specs.Prelude.{◌≡◌, ◌↔◌, List, [], ◌∷◌, ◌++◌, IsTrue, OnOk};
ghost use Rattle.lwkt_base.specs.declared.sections.Section.{Section};
ghost use Rattle.lwkt_core.specs.RunSections.{section_in, sections_named};
ghost use Rattle.lwkt_drive.specs.Stretches.{GoesOnFrom, longer, stretch_of, StandFor};

use lwkt_base::memory::push;
use lwkt_base::{OutOfMemory, Row, Section, TokId};
use lwkt_core::Event;
use std::alloc::Global;
use std::marker::Model;

/// Written sections of one token, at least one, each of which begins with the row and at the generation that the one before it came to.
#[derive(Clone, Copy, PartialEq, Eq)]
pub struct Stretch {
    /// The row at the beginning of the first section.
    pub before: Row,
    /// The row that the last section left.
    pub after: Row,
    /// The generation at which the first section began.
    pub first: u64,
    /// The generation at which the last section began.
    pub last: u64,
    /// The token.
    pub tok: TokId,
}

impl Stretch {
    // The stretch of one section.
    #[inline(always)]
    fn of(section: &Section) -> Stretch
        ensures { result ≡ stretch_of section.now }
    {
        Stretch {
            before: section.before,
            after: section.after,
            first: section.generation,
            last: section.generation,
            tok: section.tok,
        }
    }

    // Whether a section goes on from the stretch.
    #[inline(always)]
    fn goes_on(&self, section: &Section) -> bool
        ensures { IsTrue result → GoesOnFrom self.now section.now }
    {
        section.tok == self.tok
            && section.generation.checked_sub(1) == Some(self.last)
            && section.before.as_slice() == self.after.as_slice()
    }

    // Makes the stretch longer by a section that goes on from it.
    #[inline(always)]
    fn go_on(&mut self, section: &Section)
        ensures { self.new ≡ longer self.old section.now }
    {
        self.after = section.after;
        self.last = section.generation;
    }
}

/// The stretches of sections that are named one after another. A section that goes on from its token's last stretch makes that longer.
#[derive(Drop)]
pub struct Stretches {
    items: Vec<Stretch>,
    // Of each token, where its last stretch may be.
    lasts: [usize; 256],
}

impl Model for Stretches {
    ghost use Rattle.std.specs.Prelude.{List};
    ghost use Rattle.lwkt_drive.specs.declared.stretches.Stretch.{Stretch};

    ghost Value = { List Stretch };

    ghost view = { λ s. s.items.items };
}

impl Stretches {
    /// No stretches.
    pub fn new(alloc: Global) -> Self
        ensures { result ≡ [] }
    {
        Stretches {
            items: Vec::new(alloc),
            lasts: [0; 256],
        }
    }

    /// Adds a section that is named next.
    ///
    /// `OutOfMemory` if memory is refused.
    #[inline(always)]
    #[tactic(auto, using(crate::proofs::StretchMoves::one_more))]
    pub fn add(&mut self, section: &Section) -> Result<(), OutOfMemory>
        ensures { OnOk result ((sections : List Section) → StandFor self.old sections → StandFor self.new (sections ++ section.now ∷ [])) }
    {
        let tok = usize::from(section.tok.0);
        let at = self.lasts[tok];
        if at < self.items.len() && self.items[at].goes_on(section) {
            self.items[at].go_on(section);
            return Ok(());
        }
        self.lasts[tok] = self.items.len();
        push(&mut self.items, Stretch::of(section))
    }

    /// Adds the written sections that events name, in their order.
    ///
    /// `OutOfMemory` if memory is refused.
    pub fn add_named(&mut self, events: &[Event]) -> Result<(), OutOfMemory>
        ensures { OnOk result ((sections : List Section) → StandFor self.old sections → StandFor self.new (sections ++ sections_named events.now)) }
    {
        for event in events {
            self.add_event(event)?;
        }
        Ok(())
    }

    /// Adds the section that an event names, if it ends a written one.
    ///
    /// `OutOfMemory` if memory is refused.
    #[inline(always)]
    pub(crate) fn add_event(&mut self, event: &Event) -> Result<(), OutOfMemory>
        ensures { OnOk result ((sections : List Section) → StandFor self.old sections → StandFor self.new (sections ++ section_in event.now)) }
    {
        match event {
            Event::GiveWritten { section, .. } => self.add(section),
            _ => Ok(()),
        }
    }

    /// The stretches, without taking memory.
    pub fn into_vec(self) -> Vec<Stretch>
        ensures { result.items ≡ self }
    {
        self.items
    }
}
