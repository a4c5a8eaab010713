//! What holds of programs, as theorems.
ghost use Rattle.lwkt_code.specs.Accepted.{NoneEndless, CirclesAreEndless};
ghost use Rattle.lwkt_code.specs.Next.{FirstAsk};
ghost use Rattle.lwkt_code.specs.Programs.{ListsAreSound, AsksAsListed};

/// The theorem that in a program that is accepted no way without an ask goes on for ever.
pub fn none_endless()
    ensures { NoneEndless }
{}

/// The theorem that a loop without an ask goes on for ever.
pub fn circles_are_endless()
    ensures { CirclesAreEndless }
{}

/// The theorem that says what a thread asks first without a bound on the steps before it.
pub fn first_ask()
    ensures { FirstAsk }
{}

/// The theorem that a list of asks is a program.
pub fn lists_are_sound()
    ensures { ListsAreSound }
{}

/// The theorem that a list of asks is made in order, so many times over, and then `Exit` is asked.
pub fn asks_as_listed()
    ensures { AsksAsListed }
{}
