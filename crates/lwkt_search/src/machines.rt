//! Machines: states that are kept by number, where turns lead from them, and which of them are tried; and who looks on at a search.
ghost use Rattle.std.specs.Prelude.{◌≡◌, ◌↔◌, ℕ, ◌<◌, List, length, slice_index_or, IsTrue, IfOk};
ghost use Rattle.lwkt_search.specs.Graphs.{IsTurned};

use crate::refusals::Refusal;

/// A machine of which states are kept, each once, by the numbers 0, 1, .. in the order in which they came.
pub trait Machine: Drop {
    /// What a state is. The machine need not have one in memory as a whole.
    type State;

    /// What keeps the states.
    type Store: Drop;

    ghost start_of: { Self → Self.State };

    ghost turn_of: { Self → Self.State → ℕ → Self.State };

    ghost ended_of: { Self → Self.State → Type 0 };

    ghost kept: { Self.Store → List Self.State };

    ghost is_sound: { Self → Self.Store → Type 0 };

    ghost bytes_of: { Self → Self.Store → ℕ };

    /// The number of the state that the turn of a processor leads to from the one of a number; a new state gets the next number.
    ///
    /// Refused if memory is, or if there is no number left.
    fn turn(&self, store: &mut Self::Store, at: usize, cpu: u8) -> Result<usize, Refusal>
        requires sound { is_sound self.now store.old }
        requires there { at < length (kept store.old) }
        ensures sound { IfOk result (λ next. is_sound self.now store.new) }
        ensures turned { IfOk result (λ next. IsTurned (turn_of self.now) (kept store.old) (kept store.new) at cpu next) }
        ensures few { IfOk result (λ next. next < 4294967295) };

    /// Whether everything has ended in the state of a number.
    fn has_ended(&self, store: &Self::Store, at: usize) -> bool
        requires sound { is_sound self.now store.now }
        requires there { at < length (kept store.now) }
        ensures { IsTrue result ↔ ended_of self.now (slice_index_or (kept store.now) at (start_of self.now)) };

    /// How many bytes the states take that are kept.
    fn bytes(&self, store: &Self::Store) -> u64
        ensures { result ≡ bytes_of self.now store.now };

    /// Which turns are tried from the state of a number: those of the first set of processors, and those of the next one only if none
    /// of these leads to a state that the search has still to go on from. A set has a bit for each processor, 1 for the first one.
    ///
    /// Whatever the sets are, what the search tells of all orders it tells only where each turn was tried.
    fn sets(&self, store: &Self::Store, at: usize) -> [u8; 8]
        requires sound { is_sound self.now store.now }
        requires there { at < length (kept store.now) };
}

/// How far a search is.
#[derive(Clone, Copy, PartialEq, Eq)]
pub struct Seen {
    /// How many states were kept so far.
    pub states: usize,
    /// How many of the states weren't gone on from yet.
    pub frontier: usize,
    /// How many turns were tried.
    pub turns: u64,
    /// How many bytes the states take that were kept, apart from what is noted of them.
    pub bytes: u64,
}

/// Who looks on at a search.
pub trait Watch {
    /// Whether the search goes on. It asks before it goes on from a state, and ends at the first no.
    fn goes_on(&mut self, seen: Seen) -> bool;
}
