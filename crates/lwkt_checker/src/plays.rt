ghost use Rattle.std.specs.Prelude.{◌≡◌, ◌≤◌, length};
ghost use Rattle.lwkt_core.specs.Tokens.{section_at};
ghost use Rattle.lwkt_checker.specs.Stated.{section_due, event_stated, StatedIsOnly};

use lwkt_base::limits::CELL_LIMIT;
use lwkt_base::{Row, Section, TokId};
use lwkt_core::{Event, State, Token};
use lwkt_trace::Stated;

// The section of a token of this number that would end now.
fn section_at(tok: TokId, token: &Token) -> Section
    requires before { length token.now.first ≤ CELL_LIMIT }
    requires after { length token.now.row ≤ CELL_LIMIT }
    ensures { result ≡ section_at tok token.now }
{
    Section {
        before: Row::of(token.first.as_slice()),
        after: Row::of(token.row.as_slice()),
        generation: token.generation,
        tok,
    }
}

// The section of the token of a number that would end now; one without cells where there is no such token.
fn section_now(state: &State, tok: TokId) -> Section
    ensures { result ≡ section_due state.now tok }
{
    // A state is safe, as this call says: the rows of its tokens have at most four cells.
    let _cpus = state.cpus();
    match state.token(tok) {
        Some(token) => section_at(tok, token),
        None => Section {
            before: Row::of(&[]),
            after: Row::of(&[]),
            generation: 0,
            tok,
        },
    }
}

/// The event that is stated in a state: a written give whose section isn't stated has the one that would end now.
pub fn event_stated(state: &State, stated: &Stated) -> Event
    ensures { result ≡ event_stated state.now stated.now }
{
    match *stated {
        Stated::Whole(event) => event,
        Stated::Given { cpu, tok } => Event::GiveWritten {
            cpu,
            tok,
            section: section_now(state, tok),
        },
    }
}

/// The theorem that of all events that are stated, whatever the sections that aren't, only those with the tokens' own sections
/// can happen.
pub fn stated_is_only()
    ensures { StatedIsOnly }
{}
