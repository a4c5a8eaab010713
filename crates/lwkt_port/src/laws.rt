//! What the ports are for. The functions do nothing: their contracts are the theorems.
ghost use Rattle.lwkt_port.specs.Sights.{SentAreDelivered, OwnAreDelivered, StayJoined, OpenedAreJoined};
ghost use Rattle.lwkt_port.specs.Laws.{LanesLoseNone, NotesLeaveServed, UrgentLeaveFirst, LeavingChains, NotesComeLast, RequestsAreShownOnce, OwedIsMadeOnce, UnowedIsNotMade, EintrIfAborted, NothingIsTraced, TracesChain, HandsWaitForRoom, PaidHandsWaitForRoom, SeenAreTakenIn};

/// What left a lane is what was reaped, queued, found stale or foreign, in order, and at last what is kept for it.
pub fn lanes_lose_none()
    ensures { LanesLoseNone }
{}

/// A note leaves a queue, from its front, only as stale, taken or reaped.
pub fn notes_leave_served()
    ensures { NotesLeaveServed }
{}

/// An urgent note that is in a port is served before any other, and of each class the oldest first, over any number of calls; a
/// note that comes is the last of its class.
pub fn urgent_notes_go_first()
    ensures first { UrgentLeaveFirst }
    ensures chain { LeavingChains }
    ensures come { NotesComeLast }
{}

/// A request is shown to one thread, the one of its port, and only once for each time that it is taken.
pub fn requests_are_shown_once()
    ensures { RequestsAreShownOnce }
{}

/// What calls trace goes together: nothing where nothing is done, and one call after another. A layer above puts its own
/// calls' traces together by it.
pub fn traces_go_together()
    ensures nothing { NothingIsTraced }
    ensures chain { TracesChain }
{}

/// A reply that the ports owe is made once, as its lane has room, and none is made that isn't owed.
pub fn owed_replies_are_made_once()
    ensures once { OwedIsMadeOnce }
    ensures only { UnowedIsNotMade }
{}

/// A request that is taken for a thread is owed EINTR exactly if its origin has asked for it to be aborted, and is never
/// shown then; any other is shown.
pub fn aborted_requests_are_owed()
    ensures { EintrIfAborted }
{}

/// Where notes were taken in, or the replies that are owed went out alone, a note is in hand at a sending end only if no place
/// of its queue is known to be free.
pub fn hands_wait_for_room()
    ensures taken { HandsWaitForRoom }
    ensures paid { PaidHandsWaitForRoom }
{}

/// Where notes are taken in, those that a lane's receiving end had seen are received, in order, unless its line keeps a note
/// that found its port's queue full, or as many notes were taken in as are allowed.
pub fn seen_notes_are_taken_in()
    ensures { SeenAreTakenIn }
{}

/// What a processor's ports have put into the queue of the lane to another one's is received by a `take_in` of that one that
/// follows a `see`, in order, unless a note is kept that found its port's queue full, or as many were taken in as are allowed.
/// So it is with what they have put into the queue of the lane to themselves, after a `see_own`.
pub fn sent_notes_are_delivered()
    ensures others { SentAreDelivered }
    ensures own { OwnAreDelivered }
{}

/// Two processors' ports that are opened over the two ends of a lane have it between them, and keep it whatever calls they
/// make.
pub fn lanes_stay_joined()
    ensures opened { OpenedAreJoined }
    ensures stay { StayJoined }
{}
