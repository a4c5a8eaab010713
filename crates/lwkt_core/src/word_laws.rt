ghost use Rattle.lwkt_core.specs.WordEvents.{StepsAreEvents};

/// The theorem that steps on the word of a token of a safe machine are its events: where an event can happen, the step on the
/// token's word is made, and gives the word of the token after the event; and the token is taken only where its event can
/// happen. That the mark stops a lone shared request is the one exception.
pub fn steps_are_events()
    ensures { StepsAreEvents }
{}
