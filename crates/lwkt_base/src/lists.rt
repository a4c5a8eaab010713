ghost use Rattle.std.specs.Prelude.{◌≡◌, ◌≢◌, ◌⊎◌, ℕ, ◌-◌, ◌<◌, ◌≤◌, ◌↔◌, List, [], ◌∷◌, ◌++◌, Option, Some, None, Ok, Err, IsTrue, OnOk, OnErr, IfOk, take, length, slice_get};

use crate::faults::Fault;
use crate::limits::LIST_LIMIT;
use crate::names::{Mode, Ref, TokId};
use std::marker::Model;

/// A thread's references, in the order in which they were acquired. It is always a lawful list: a token whose first
/// reference is shared has only shared references on it.
#[derive(Debug, Drop)]
pub struct TokList {
    items: [Ref; 32],
    count: usize,
}

impl Model for TokList {
    ghost use Rattle.std.specs.Prelude.{List, take, ◌≤◌};
    ghost use Rattle.lwkt_base.specs.declared.limits.TheConstants.{LIST_LIMIT};
    ghost use Rattle.lwkt_base.specs.declared.names.Ref.{Ref};
    ghost use Rattle.lwkt_base.specs.Refs.{IsLawfulList};

    ghost Value = { List Ref };

    ghost view = { λ l. take l.count l.items };

    ghost invariant = { λ l. (l.count ≤ LIST_LIMIT) × IsLawfulList (take l.count l.items) };
}

const UNUSED: Ref = Ref {
    tok: TokId(0),
    mode: Mode::Shared,
};

impl TokList {
    ghost use Rattle.lwkt_base.specs.Refs.{first_mode, IsLastTo, IsLawfulList, EndsInOneToken, AreExchanged};
    ghost use Rattle.lwkt_base.specs.Holding.{holding_of};

    /// The empty list.
    pub fn new() -> Self
        ensures { result ≡ [] }
    {
        TokList {
            items: [UNUSED; 32],
            count: 0,
        }
    }

    /// The same list once more.
    pub fn copied(&self) -> TokList
        ensures { result ≡ self.now }
    {
        TokList {
            items: self.items,
            count: self.count,
        }
    }

    /// The references, the first acquired first.
    pub fn refs(&self) -> &[Ref]
        ensures value { result.now ≡ self.now }
        ensures within { length self.now ≤ LIST_LIMIT }
        ensures lawful { IsLawfulList self.now }
    {
        &self.items[..self.count]
    }

    /// How many references there are, 0 to 32.
    pub fn len(&self) -> usize
        ensures value { result ≡ length self.now }
        ensures within { result ≤ LIST_LIMIT }
    {
        self.refs().len()
    }

    /// Whether there is no reference.
    pub fn is_empty(&self) -> bool
        ensures { IsTrue result ↔ (self.now ≡ []) }
    {
        self.refs().is_empty()
    }

    /// The mode of the first reference to the token, if there is one.
    pub fn mode(&self, tok: TokId) -> Option<Mode>
        ensures { result ≡ first_mode self.now tok.0 }
    {
        self.refs()
            .iter()
            .find(|r| r.tok.0 == tok.0)
            .map(|r| r.mode)
    }

    /// Reference `i`, the first acquired being reference 0.
    pub fn get(&self, i: usize) -> Option<Ref>
        ensures { result ≡ slice_get self.now i }
    {
        self.refs().get(i).copied()
    }

    // Whether the reference is exclusive and the first one to its token is shared.
    fn would_upgrade(&self, new: Ref) -> bool
        ensures { IsTrue result ↔ ((new.mode ≡ Mode.Exclusive) × (first_mode self.now new.tok.0 ≡ Some Mode.Shared)) }
    {
        new.mode == Mode::Exclusive && self.mode(new.tok) == Some(Mode::Shared)
    }

    /// Adds a reference.
    ///
    /// Refused with `ListFull` exactly if there are 32, else with `Upgrade` exactly if it is exclusive and the first
    /// reference to its token is shared.
    pub fn push(&mut self, new: Ref) -> Result<(), Fault>
        ensures ok { OnOk result (self.new ≡ self.old ++ new ∷ []) }
        ensures err { OnErr result (self.new ≡ self.old) }
        ensures full { (result ≡ Err Fault.ListFull) ↔ (length self.old ≡ LIST_LIMIT) }
        ensures upgrade { (result ≡ Err Fault.Upgrade)
            ↔ ((length self.old < LIST_LIMIT) × (new.mode ≡ Mode.Exclusive) × (first_mode self.old new.tok.0 ≡ Some Mode.Shared)) }
        ensures only { OnErr result ((result ≡ Err Fault.ListFull) ⊎ (result ≡ Err Fault.Upgrade)) }
    {
        if self.count == LIST_LIMIT {
            return Err(Fault::ListFull);
        }
        if self.would_upgrade(new) {
            return Err(Fault::Upgrade);
        }
        self.items[self.count] = new;
        self.count += 1;
        Ok(())
    }

    /// Removes the last reference, which has to be to this token, and returns it.
    ///
    /// Refused with `NotHeld` exactly if the token is not on the list, else with `NotLast` exactly if the last
    /// reference is to another token.
    pub fn pop(&mut self, tok: TokId) -> Result<Ref, Fault>
        ensures ok { IfOk result (λ r. (self.old ≡ self.new ++ r ∷ []) × (r.tok.0 ≡ tok.0)) }
        ensures err { OnErr result (self.new ≡ self.old) }
        ensures not_held { (result ≡ Err Fault.NotHeld) ↔ (first_mode self.old tok.0 ≡ None) }
        ensures not_last { (result ≡ Err Fault.NotLast)
            ↔ ((first_mode self.old tok.0 ≢ None) × ¬ IsLastTo self.old tok.0) }
        ensures only { OnErr result ((result ≡ Err Fault.NotHeld) ⊎ (result ≡ Err Fault.NotLast)) }
    {
        if self.mode(tok).is_none() {
            return Err(Fault::NotHeld);
        }
        let last = self.items[self.count - 1];
        if last.tok.0 != tok.0 {
            return Err(Fault::NotLast);
        }
        self.count -= 1;
        Ok(last)
    }

    /// Exchanges the two most recent references, which have to be to two tokens. What the list holds stays the same.
    ///
    /// Refused with `SwapShort` exactly if there are fewer than two references, else with `SwapSame` exactly if they
    /// are to one token.
    pub fn swap(&mut self) -> Result<(), Fault>
        ensures ok { OnOk result (AreExchanged self.old self.new) }
        ensures holding { OnOk result (holding_of self.new ≡ holding_of self.old) }
        ensures err { OnErr result (self.new ≡ self.old) }
        ensures short { (result ≡ Err Fault.SwapShort) ↔ (length self.old < 2) }
        ensures same { (result ≡ Err Fault.SwapSame) ↔ EndsInOneToken self.old }
        ensures only { OnErr result ((result ≡ Err Fault.SwapShort) ⊎ (result ≡ Err Fault.SwapSame)) }
    {
        if self.count < 2 {
            return Err(Fault::SwapShort);
        }
        let last = self.items[self.count - 1];
        let before = self.items[self.count - 2];
        if last.tok.0 == before.tok.0 {
            return Err(Fault::SwapSame);
        }
        self.items[self.count - 2] = last;
        self.items[self.count - 1] = before;
        Ok(())
    }
}
