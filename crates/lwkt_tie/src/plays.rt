//! What a look at a table tells.
ghost use Rattle.std.specs.Prelude.{ℕ, List, []};
ghost use Rattle.lwkt_base.specs.declared.opening_specs.MsgSpec.{MsgSpec};
ghost use Rattle.lwkt_tie.specs.Looks.{finds, finds_beside};
ghost use Rattle.lwkt_tie.specs.Mails.{finds_mail, finds_mail_beside};

use atomic_table::Play;
use lwkt_bank::views::View;
use lwkt_base::{Blob, Rec};
use lwkt_msg::views::View as MailView;
use std::marker::{Brand, PhantomData};

/// The number of a bank's processors, for the proof alone: a play can't read the table's key.
pub(crate) trait Processors {
    ghost cpus: { ℕ };
}

impl Processors for Brand {
    ghost cpus = { 0 };
}

/// A load by a new seat: the word is that of a state of the rule.
pub(crate) struct Finds<K: Processors> {
    of: PhantomData<K>,
}

impl<K: Processors> Play<Blob, View> for Finds<K> {
    ghost then = { finds K.cpus };
}

/// A load by a seat of the bank, which keeps its view: the view is among those of that state.
pub(crate) struct FindsBeside<K: Processors> {
    of: PhantomData<K>,
}

impl<K: Processors> Play<Blob, View> for FindsBeside<K> {
    ghost then = { finds_beside K.cpus };
}

/// What was declared of a book, for the proof alone.
pub(crate) trait Declared {
    ghost specs: { List MsgSpec };

    ghost cpus: { ℕ };
}

impl Declared for Brand {
    ghost specs = { [] };

    ghost cpus = { 0 };
}

/// A load of a message's word by a new seat: the word is that of a state of the rule.
pub(crate) struct FindsMail<D: Declared> {
    of: PhantomData<D>,
}

impl<D: Declared> Play<Rec, MailView> for FindsMail<D> {
    ghost then = { finds_mail D.specs D.cpus };
}

/// A load by a seat of the book, which keeps its view: the view is among those of that state.
pub(crate) struct FindsMailBeside<D: Declared> {
    of: PhantomData<D>,
}

impl<D: Declared> Play<Rec, MailView> for FindsMailBeside<D> {
    ghost then = { finds_mail_beside D.specs D.cpus };
}
