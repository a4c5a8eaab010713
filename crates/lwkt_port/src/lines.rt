//! The two lanes that join a processor with another one, or with itself.
ghost use Rattle.std.specs.Prelude.{◌≡◌, ◌++◌, ◌∷◌, [], ◌↔◌, None, IsTrue, Some, true, false, MatchOption};
ghost use Rattle.lwkt_lane.specs.Lane.{in_hand};
ghost use Rattle.lwkt_port.specs.Lines.{HasNoneInHand, IsRoomed, HasPosted, IsDrained, HasPopped, HasNone, HasFoundNote};

use lwkt_lane::{LaneIn, LaneOut, Note};

/// The lane to a processor, the lane from it, and a note of the latter whose port's queue was full.
#[derive(Drop)]
pub struct Lane {
    pub(crate) out: LaneOut,
    pub(crate) into: LaneIn,
    pub(crate) kept: Option<Note>,
}

/// Moves a note in hand on if there is room, and says whether the next one can be sent.
#[inline(always)]
pub(crate) fn has_room(line: &mut Lane) -> bool
    ensures roomed { IsRoomed line.old line.new }
    ensures value { IsTrue result ↔ (in_hand line.new.out ≡ None) }
{
    line.out.room()
}

/// Whether no note is in hand at the line's sending end.
#[inline(always)]
pub(crate) fn has_none_in_hand(line: &Lane) -> bool
    ensures { IsTrue result ↔ (in_hand line.now.out ≡ None) }
{
    line.out.has_none_in_hand()
}

/// Whether a note may be in hand at a sending end: only where one might be before, or where this line has one now.
#[inline(always)]
pub(crate) fn may_hold(holding: bool, line: &Lane) -> bool
    ensures before { result ≡ false → holding ≡ false }
    ensures now { result ≡ false → HasNoneInHand line.now }
{
    holding || !has_none_in_hand(line)
}

/// Sends a note over a lane that has room for it.
#[inline(always)]
#[tactic(auto, using(crate::proofs::Posting::moves_alone))]
pub(crate) fn post(line: &mut Lane, note: Note)
    requires { in_hand line.old.out ≡ None }
    ensures { HasPosted note line.old line.new }
{
    line.out.put(note);
}

/// Receives the next note.
#[inline(always)]
pub(crate) fn pop(line: &mut Lane) -> Option<Note>
    ensures { MatchOption result (IsDrained line.old line.new) (λ note. HasPopped note line.old line.new) }
{
    line.into.pop()
}

/// Whether a line has a note that isn't handled yet: one that it keeps, or one in the queue of its lane.
#[inline(always)]
pub(crate) fn has_note(line: &mut Lane) -> bool
    ensures none { result ≡ false → HasNone line.old line.new }
    ensures found { result ≡ true → HasFoundNote line.old line.new }
{
    if line.kept.is_some() {
        return true;
    }
    !line.into.is_empty()
}
