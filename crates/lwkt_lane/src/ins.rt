ghost use Rattle.std.specs.Prelude.{◌≡◌, ◌≤◌, ◌↔◌, [], ◌∷◌, ◌++◌, true, length, None, IsTrue, MatchOption};
ghost use mathlib.Core.List.{IsPrefix};

use crate::notes::Note;
use crate::outs::LaneOut;
use rtrb::Consumer;

/// The receiving end of a lane.
#[derive(Drop)]
pub struct LaneIn {
    pub(crate) ring: Consumer<Note>,
}

impl LaneIn {
    ghost use Rattle.lwkt_lane.specs.Lane.{received, seen_notes, queued, IsSeenGone, IsLane, IsBeside, in_lane};

    /// The oldest note of the queue, or None if the queue was empty at one moment of the call. It is never None while a
    /// note is left that this end has seen there. Of notes that it hasn't seen yet no clause says when they are found,
    /// since the sending end may push at any moment.
    #[inline]
    pub fn pop(&mut self) -> Option<Note>
        ensures received { MatchOption result (received self.new ≡ received self.old)
            (λ note. received self.new ≡ received self.old ++ note ∷ []) }
        ensures none { result ≡ None → (seen_notes self.old ≡ []) × (seen_notes self.new ≡ []) }
        ensures some { IsSeenGone result (seen_notes self.old) (seen_notes self.new) }
        ensures lane { in_lane self.new ≡ in_lane self.old }
    {
        if self.ring.is_empty() {
            return None;
        }
        Some(self.ring.pop_known())
    }

    /// Whether the queue was empty at one moment of the call. As with `pop`, no clause says when notes that weren't seen yet are
    /// found.
    #[inline(always)]
    pub fn is_empty(&mut self) -> bool
        ensures value { IsTrue result ↔ (length (seen_notes self.new) ≡ 0) }
        ensures none { result ≡ true → seen_notes self.new ≡ [] }
        ensures keeps { IsPrefix (seen_notes self.old) (seen_notes self.new) }
        ensures received { received self.new ≡ received self.old }
        ensures lane { in_lane self.new ≡ in_lane self.old }
    {
        self.ring.slots() == 0
    }

    /// Sees every note that is left in the queue, beside the lane's sending end, and says how many there are. What was received and
    /// what is seen is then all that went into the queue: all that was sent, up to the note in hand.
    ///
    /// That `out` is the sending end of this lane is the caller's condition.
    pub fn see_all(&mut self, out: &mut LaneOut) -> usize
        requires { IsLane out.old self.old }
        ensures left { received self.new ++ seen_notes self.new ≡ queued out.old }
        ensures keeps { IsPrefix (seen_notes self.old) (seen_notes self.new) }
        ensures beside { IsBeside out.old out.new }
        ensures lane { in_lane self.new ≡ in_lane self.old }
        ensures count { result ≡ length (seen_notes self.new) }
        ensures most { result ≤ (in_lane self.old).room }
        ensures received { received self.new ≡ received self.old }
    {
        self.ring.slots_beside(&mut out.ring)
    }
}
