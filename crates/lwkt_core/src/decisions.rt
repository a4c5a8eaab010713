ghost use Rattle.lwkt_core.specs.Picture.{DecisionsAreEvents, PicturesFit};

/// The theorem that a processor that holds nothing of a token and decides by the token's word takes it exactly where the
/// event of that taking can happen (and no mark stops a lone shared request), with the word of the token after the event.
pub fn decisions_are_events()
    ensures { DecisionsAreEvents }
{}

/// The theorem that the word of each token of a safe machine has room for its parts, and for one reference more.
pub fn pictures_fit()
    ensures { PicturesFit }
{}
