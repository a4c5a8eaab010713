//! References as C names them, and the lists that they are.
ghost use Rattle.std.specs.Prelude.{◌≡◌, ◌≢◌, ◌<◌, ◌≤◌, [], ◌∷◌, ◌++◌, length, OnOk, IfOk, IfErr};
ghost use Rattle.lwkt_bank.specs.Seats.{id_of};
ghost use Rattle.lwkt_seats.specs.Lists.{ref_of, refs_of, IsReference, IsList, IsUpgrade, Unlists, IsUnlisted};

use crate::list_answers::Unlisted;
use lwkt_bank::Bank;
use lwkt_base::limits::{LIST_LIMIT, TOKEN_LIMIT};
use lwkt_base::{Fault, Mode, Ref, TokId, TokList};

/// A reference as C names it.
#[repr(C)]
#[derive(Clone, Copy)]
pub struct LwktReference {
    /// The number of its token.
    pub token: u32,
    /// Its mode: 0 shared, 1 exclusive.
    pub mode: u32,
}

impl LwktReference {
    fn reference(self) -> Ref
        requires { self.token < TOKEN_LIMIT }
        ensures { result ≡ ref_of self }
    {
        let mode = match self.mode {
            0 => Mode::Shared,
            _ => Mode::Exclusive,
        };
        Ref {
            tok: TokId(self.token as u8),
            mode,
        }
    }
}

// Puts a reference on a list.
fn add_to(list: &mut TokList, bank: &Bank, new: LwktReference) -> Result<(), Unlisted>
    ensures ok { OnOk result (IsReference (id_of bank.now) new × (list.new ≡ list.old ++ ref_of new ∷ [])) }
    ensures room { OnOk result (length list.old ≢ LIST_LIMIT) }
    ensures follows { OnOk result (length list.old < LIST_LIMIT → ¬ IsUpgrade list.old new) }
    ensures err { IfErr result (λ why. Unlists (id_of bank.now) list.old new why) }
{
    if new.token as usize >= bank.tokens() {
        return Err(Unlisted::NoToken);
    }
    if new.mode > 1 {
        return Err(Unlisted::NoMode);
    }
    match list.push(new.reference()) {
        Ok(()) => Ok(()),
        Err(Fault::ListFull) => Err(Unlisted::ListFull),
        Err(_) => Err(Unlisted::Upgrade),
    }
}

/// The list of these references, or the first place at which they are none, and why.
pub(crate) fn list_of(bank: &Bank, refs: &[LwktReference]) -> Result<TokList, (usize, Unlisted)>
    ensures ok { IfOk result (λ list. (list ≡ refs_of refs.now) × IsList (id_of bank.now) refs.now) }
    ensures err { IfErr result (λ no. IsUnlisted (id_of bank.now) refs.now no.0 no.1) }
{
    let mut list = TokList::new();
    for at in 0..refs.len() {
        if let Err(why) = add_to(&mut list, bank, refs[at]) {
            return Err((at, why));
        }
    }
    Ok(list)
}
