ghost use Rattle.std.specs.Prelude.{◌≡◌, ◌≢◌, true, false};

use lwkt_base::{Fault, MsgId};

/// What a thread is doing, whether it runs or not.
#[derive(Clone, Copy, PartialEq, Eq)]
pub enum Phase {
    /// It runs, or can run as soon as its tokens can be held.
    Live,
    /// It waits for an item at its port.
    AwaitsItem,
    /// It waits for the reply to this message of its own.
    AwaitsReply(MsgId),
    /// It has ended: it asked `Exit`, or its processor stopped.
    Exited,
    /// It was ended by this fault: 19 if a section of its had broken its law when it gave up its tokens, 20 if a token of its list
    /// was at its last generation when the list was tried, 42 if it asked `Fail`.
    Faulted(Fault),
}

impl Phase {
    ghost use Rattle.lwkt_cpu.specs.Processors.{is_over};
    ghost use Rattle.lwkt_cpu.specs.Ending.{is_worn};

    /// Whether it runs, or can run.
    #[inline]
    pub(crate) fn is_live(self) -> bool
        ensures yes { result ≡ true → self ≡ Phase.Live }
        ensures no { result ≡ false → self ≢ Phase.Live }
    {
        matches!(self, Phase::Live)
    }

    /// Whether the thread has ended, by itself or by a fault.
    #[inline]
    pub fn has_ended(self) -> bool
        ensures { result ≡ is_over self }
    {
        matches!(self, Phase::Exited | Phase::Faulted(_))
    }

    /// Whether the thread was ended by fault 20: a token of its list was at its last generation, 70368744177663.
    pub fn is_worn(self) -> bool
        ensures { result ≡ is_worn self }
    {
        matches!(self, Phase::Faulted(Fault::Worn))
    }
}

/// Which threads' ports are closed.
#[derive(Clone, Copy)]
pub(crate) enum ToClose {
    /// Those of the threads that met a last generation; those of earlier turns are closed already.
    Worn,
    /// Those of the threads that haven't ended.
    Others,
}

impl ToClose {
    ghost use Rattle.lwkt_cpu.specs.Ending.{includes};

    /// Whether these are the ports of threads that do so.
    #[inline]
    pub(crate) fn includes(self, phase: Phase) -> bool
        ensures { result ≡ includes self phase }
    {
        match self {
            ToClose::Worn => phase.is_worn(),
            ToClose::Others => !phase.has_ended(),
        }
    }
}
