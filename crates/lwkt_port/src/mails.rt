//! What the ports of a processor keep of each message.
ghost use Rattle.std.specs.Prelude.{◌≡◌, ◌<◌, vec_len};
ghost use Rattle.lwkt_port.specs.Mails.{kept_mail_at};

use lwkt_base::{Rec, ThreadId};

/// What the ports of a processor keep of a message.
#[derive(Clone, Copy, PartialEq, Eq)]
pub struct Mail {
    /// The thread that owns the message while it is at rest.
    pub origin: ThreadId,
    /// The round in which the message was taken last.
    pub round: u64,
    /// Whether the message had priority when it was taken last.
    pub urgent: bool,
    /// The answer to a synchronous send that was not given yet.
    pub done: Option<Rec>,
    /// The error that the ports owe as a reply.
    pub owed: Option<u32>,
    /// The thread that was shown the message as a request, and hasn't replied yet.
    pub shown: Option<u8>,
    /// Whether the message is this processor's own, and at rest.
    pub home: bool,
    /// Whether this processor's last send of the message was synchronous.
    pub sync: bool,
}

/// What is kept of the message of this number.
#[inline(always)]
pub(crate) fn mail_of(mails: &Vec<Mail>, m: usize) -> Mail
    requires { m < vec_len mails.now }
    ensures { result ≡ kept_mail_at mails.now.items m }
{
    mails[m]
}
