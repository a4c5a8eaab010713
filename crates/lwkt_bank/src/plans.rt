ghost use Rattle.std.specs.Prelude.{◌≡◌, ◌+◌, ◌<◌, ◌≤◌, is_some};

use crate::banks::Bank;
use crate::views::Plan;
use lwkt_base::limits::{CELL_LIMIT, TOKEN_LIMIT};
use lwkt_base::{Law, TokId};

impl Bank {
    ghost use Rattle.lwkt_bank.specs.Seats.{id_of, tokens_of, plan_of};

    /// How many tokens there are, 0 to 64.
    pub fn tokens(&self) -> usize
        ensures is { result ≡ tokens_of (id_of self.now) }
        ensures few { result ≤ TOKEN_LIMIT }
    {
        self.key.plans.len()
    }

    /// How many cells a token has, 0 to 4, and exactly 1 under `Law::Tally`.
    pub fn cells(&self, tok: TokId) -> usize
        requires { tok.0 < tokens_of (id_of self.now) }
        ensures is { result ≡ (plan_of (id_of self.now) tok.0).cells }
        ensures short { result ≤ CELL_LIMIT }
        ensures single { (plan_of (id_of self.now) tok.0).law ≡ Law.Tally → result ≡ 1 }
    {
        self.plan(tok).cells
    }

    /// Whether a token guards a record.
    pub fn guards(&self, tok: TokId) -> bool
        requires { tok.0 < tokens_of (id_of self.now) }
        ensures { result ≡ is_some (plan_of (id_of self.now) tok.0).blob }
    {
        self.plan(tok).blob.is_some()
    }

    pub(crate) fn plan(&self, tok: TokId) -> Plan
        requires { tok.0 < tokens_of (id_of self.now) }
        ensures { result ≡ plan_of (id_of self.now) tok.0 }
    {
        self.key.plans[tok.0 as usize]
    }
}
