//! The port of a thread that has ended is closed.
ghost use Rattle.std.specs.Prelude.{◌≡◌, ℕ, ◌+◌, ◌<◌, ◌≤◌, true, vec_len};
ghost use Rattle.lwkt_port.specs.Closings.{gone_mail, OwesGone, PostCloses};
ghost use Rattle.lwkt_port.specs.Posts.{IsSamePost};

use crate::mails::Mail;
use crate::posts::Ports;

/// The error of a reply to a request whose thread has ended.
pub const GONE: u32 = 41;

// What is kept of a message after a thread has ended.
fn left(mail: Mail, thread: u8) -> Mail
    ensures { result ≡ gone_mail thread mail }
{
    match mail.shown {
        Some(other) if other == thread => Mail {
            owed: Some(GONE),
            shown: None,
            ..mail
        },
        Some(_) | None => mail,
    }
}

// Each message that a thread was shown, and hasn't replied to, is owed a reply.
fn owe_all(mails: &mut Vec<Mail>, thread: u8)
    ensures { OwesGone thread (vec_len mails.old) mails.old.items mails.new.items }
{
    let count = mails.len();
    for m in 0..count {
        mails[m] = left(mails[m], thread);
    }
}

impl Ports {
    /// Closes the port of a thread that has ended. Each message that `get` has shown to the thread, and to which it
    /// hasn't replied, is owed a reply with error 41; what comes to the port from now on is owed error 30 or, an answer,
    /// reaped, when notes are taken in. In msgport(9) lwkt_initport_panic does away with a port; here its senders are
    /// answered.
    ///
    /// That there is such a thread is the caller's condition.
    pub fn close_port(&mut self, thread: u8)
        requires exists { thread < self.old.threads }
        ensures closed { PostCloses thread self.old self.new }
        ensures same { IsSamePost self.old self.new }
    {
        let office = &mut self.office;
        let counters = &mut office.counters;
        let room = &mut counters.room;
        owe_all(&mut room.mails, thread);
        counters.ports[usize::from(thread)].closed = true;
        counters.uncleared = true;
        office.owing = true;
    }
}
