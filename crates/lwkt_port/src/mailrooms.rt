//! A processor's seat at the book, with what its ports keep of each message.
ghost use Rattle.lwkt_port.specs.Mails.{AreMails};

use crate::mails::Mail;
use lwkt_msg::MsgSeat;

/// A processor's seat at the book, with what its ports keep of each message, which fits what the seat knows of it.
#[derive(Drop)]
pub(crate) struct Mailroom {
    pub(crate) seat: MsgSeat,
    pub(crate) mails: Vec<Mail>,
    ghost kept: { AreMails seat mails.items },
}
