//! What threads wait for where no turn changes anything.
ghost use Rattle.lwkt_plain.specs.Deadlocks.{StandstillsAreWaits};

/// Where no turn changes anything, each ready thread of a processor whose turn polls none waits for a token that a thread of another
/// processor holds as it runs, or is a lone reader at a mark. Where no turn polls a thread nobody holds a token, and each ready thread
/// is a lone reader at a mark; if there is one, fault 19 or 20 has ended a thread. So tokens deadlock in one way.
pub fn standstills_are_waits()
    ensures { StandstillsAreWaits }
{}
