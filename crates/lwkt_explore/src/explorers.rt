//! The machine of a script as it is searched: its plain machine, and which turns are tried.
ghost use Rattle.lwkt_plain.specs.Endings.{HasEnded};
ghost use Rattle.lwkt_plain.specs.Openings.{opened};
ghost use Rattle.lwkt_plain.specs.Sizes.{bytes_of};
ghost use Rattle.lwkt_plain.specs.Stores.{form_turn, kept, IsStore};

use crate::choices::{all_of, sets_of};
use crate::doings::Doings;
use crate::mails::Mails;
use crate::outlooks::Outlooks;
use crate::searches::Method;
use lwkt_plain::{Plain, Store};
use lwkt_script::Script;
use lwkt_search::{Machine, Refusal};

/// The plain machine of a script, by forms of its states, and how a search goes on from a state.
#[derive(Drop)]
pub(crate) struct Explorer<'s> {
    pub script: &'s Script,
    pub method: Method,
    pub outlooks: Outlooks,
    pub mails: Mails,
}

impl<'s> Machine for Explorer<'s> {
    type State = Plain;

    type Store = Store;

    ghost start_of = { λ m. opened m.script.now };

    ghost turn_of = { λ m. form_turn m.script.now };

    ghost ended_of = { λ m. HasEnded m.script.now };

    ghost kept = { kept };

    ghost is_sound = { λ m s. IsStore s };

    ghost bytes_of = { λ m s. bytes_of m.script.now s };

    fn turn(&self, store: &mut Store, at: usize, cpu: u8) -> Result<usize, Refusal> {
        store.turn(self.script, at, cpu)
    }

    fn has_ended(&self, store: &Store, at: usize) -> bool {
        store.has_ended(self.script, at)
    }

    fn bytes(&self, store: &Store) -> u64 {
        store.bytes(self.script)
    }

    fn sets(&self, store: &Store, at: usize) -> [u8; 8] {
        match self.method {
            Method::Plain => all_of(store.cpus()),
            Method::Reduced => sets_of(
                &Doings::at(self.script, &self.outlooks, &self.mails, store, at),
                store.cpus(),
            ),
        }
    }
}
