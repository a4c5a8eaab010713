use lwkt_base::{Fault, MsgId};

/// What comes next for a thread whose ask was performed, with the answer that it has then, if it has one.
#[derive(Clone, Copy, PartialEq, Eq)]
pub enum Next<A> {
    /// It goes on running, with this answer.
    Runs(A),
    /// It has given up its tokens and is ready: it goes on once its whole list is held again, and has this answer then.
    Readies(A),
    /// It has given up its tokens and waits for an item at its port.
    AwaitsItem,
    /// It has given up its tokens and waits for the reply to this message of its own.
    AwaitsReply(MsgId),
    /// It has ended: it asked `Exit`, or its processor stopped.
    Exits,
    /// It was ended by this fault: 19 if what it gave up ended a section that had broken its law, else 42 if it asked `Fail`. No ask
    /// ends a thread by another one.
    Faults(Fault),
}

/// In place of an answer: it is kept already, where the caller keeps the thread's answers.
#[derive(Clone, Copy, PartialEq, Eq)]
pub struct AnswerKept;
