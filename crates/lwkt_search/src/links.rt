//! How the states of a search were found.
ghost use Rattle.std.specs.Prelude.{◌≡◌, ◌<◌, [], ◌∷◌, ◌++◌, length, IfOk, slice_index_or};
ghost use Rattle.lwkt_search.specs.Links.{Link, link_by};

use lwkt_base::OutOfMemory;
use lwkt_base::memory::{push, reserve};
use std::alloc::Global;
use std::marker::Model;

/// Of each state that was found the turn that led to it. How many turns lead to a state is not kept: it follows from these.
#[derive(Drop)]
pub struct Links {
    parents: Vec<u32>,
    cpus: Vec<u8>,
}

impl Model for Links {
    ghost use Rattle.std.specs.Prelude.{List, [], length, ◌≡◌};
    ghost use Rattle.lwkt_search.specs.Links.{Link, links_behind};

    ghost Value = { List Link };

    ghost view = { λ l. links_behind [] l.parents.items l.cpus.items };

    ghost invariant = { λ l. length l.cpus.items ≡ length l.parents.items };
}

impl Links {
    /// Those of no states. Takes no memory.
    pub(crate) fn none(alloc: Global) -> Links
        ensures { result ≡ [] }
    {
        Links {
            parents: Vec::new(alloc),
            cpus: Vec::new(alloc),
        }
    }

    /// How many there are.
    pub fn len(&self) -> usize
        ensures { result ≡ length self.now }
    {
        self.parents.len()
    }

    /// The number of the state that the turn was made in; 0 of the first state.
    pub fn parent(&self, at: usize) -> u32
        requires { at < length self.now }
        ensures { (d : Link) → result ≡ (slice_index_or self.now at d).parent }
    {
        self.parents[at]
    }

    /// The processor that made it.
    pub fn cpu(&self, at: usize) -> u8
        requires { at < length self.now }
        ensures { (d : Link) → result ≡ (slice_index_or self.now at d).cpu }
    {
        self.cpus[at]
    }

    /// Notes the turn that led to the next state. Where memory is refused nothing is noted.
    pub(crate) fn push(&mut self, parent: u32, cpu: u8) -> Result<(), OutOfMemory>
        ensures { IfOk result (λ done. self.new ≡ self.old ++ link_by self.old parent cpu ∷ []) }
    {
        reserve(&mut self.cpus, 1)?;
        push(&mut self.parents, parent)?;
        push(&mut self.cpus, cpu)?;
        Ok(())
    }
}
