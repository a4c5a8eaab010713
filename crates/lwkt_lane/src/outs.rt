ghost use Rattle.std.specs.Prelude.{◌≡◌, ◌+◌, ◌<◌, ◌≤◌, ◌↔◌, [], ◌∷◌, ◌++◌, Some, None, IsTrue, IsSome, IsOk, IfSome, IfErr, OnOk, OnErr};
ghost use Rattle.rtrb.specs.Ring.{producer_capacity};

use crate::notes::Note;
use lwkt_base::Fault;
use rtrb::Producer;

/// The sending end of a lane. It keeps at most one note in hand, which waits for room in the queue.
#[derive(Drop)]
pub struct LaneOut {
    pub(crate) ring: Producer<Note>,
    pub(crate) hand: Option<Note>,
    ghost within: { producer_capacity ring ≤ 31 },
}

impl LaneOut {
    ghost use Rattle.lwkt_lane.specs.Lane.{sent_notes, in_hand, waiting, free, out_lane};

    /// Moves the note in hand into the queue if that has room, and says whether none is in hand. If so the next `push`
    /// succeeds. The note stays in hand only if the queue was full at one moment of the call.
    #[inline]
    pub fn room(&mut self) -> bool
        ensures sent { sent_notes self.new ≡ sent_notes self.old }
        ensures value { IsTrue result ↔ (in_hand self.new ≡ None) }
        ensures full { IsSome (in_hand self.new) → free self.new ≡ 0 }
        ensures kept { IfSome (in_hand self.new) (λ note. in_hand self.old ≡ Some note) }
        ensures moves { 0 < free self.old → in_hand self.new ≡ None }
        ensures places { free self.old ≤ free self.new + waiting self.old }
        ensures lane { out_lane self.new ≡ out_lane self.old }
    {
        if let Some(note) = self.hand
            && self.ring.push(note).is_ok()
        {
            self.hand = None;
        }
        self.hand.is_none()
    }

    /// Whether no note is in hand.
    #[inline]
    pub fn has_none_in_hand(&self) -> bool
        ensures { IsTrue result ↔ (in_hand self.now ≡ None) }
    {
        let hand = self.hand;
        hand.is_none()
    }

    /// Sends a note, after the one in hand. It goes into the queue at once if that has room, and else stays in hand.
    ///
    /// Refused with `LaneFull` exactly if a note is in hand and finds no room in the queue.
    #[inline(always)]
    pub fn push(&mut self, note: Note) -> Result<(), Fault>
        ensures ok { OnOk result (sent_notes self.new ≡ sent_notes self.old ++ note ∷ []) }
        ensures full { OnErr result ((sent_notes self.new ≡ sent_notes self.old) × IsSome (in_hand self.old)
            × (in_hand self.new ≡ in_hand self.old)) }
        ensures only { IfErr result (λ fault. fault ≡ Fault.LaneFull) }
        ensures hand { IsSome (in_hand self.new) → free self.new ≡ 0 }
        ensures moves { waiting self.old < free self.old → in_hand self.new ≡ None }
        ensures succeeds { in_hand self.old ≡ None → IsOk result }
        ensures lane { out_lane self.new ≡ out_lane self.old }
    {
        if !self.room() {
            return Err(Fault::LaneFull);
        }
        self.put(note);
        Ok(())
    }

    /// Sends a note where none is in hand: as `push`, without looking for one.
    #[inline(always)]
    pub fn put(&mut self, note: Note)
        requires { in_hand self.old ≡ None }
        ensures sent { sent_notes self.new ≡ sent_notes self.old ++ note ∷ [] }
        ensures hand { IsSome (in_hand self.new) → free self.new ≡ 0 }
        ensures moves { 0 < free self.old → in_hand self.new ≡ None }
        ensures lane { out_lane self.new ≡ out_lane self.old }
    {
        if self.ring.push(note).is_err() {
            self.hand = Some(note);
        }
    }
}
