ghost use Rattle.std.specs.Prelude.{◌≡◌};
ghost use Rattle.lwkt_ffi.specs.Answers.{call_answer, status_of_end, status_of_fault};

use lwkt_base::Fault;
use lwkt_run::End;

/// What came of a call, beside its status and its text.
#[repr(C)]
#[derive(Clone, Copy, PartialEq, Eq)]
pub struct LwktAnswer {
    /// The length of the whole text.
    pub length: usize,
    /// 0, or the number of the fault for which the call was refused: 30, 32, 33, 35, 39 or 40.
    pub fault: u32,
    /// The place of the first bad part of what was given, with the fault 33; else 0.
    pub place: u32,
}

impl LwktAnswer {
    /// The answer of a call with a text of this length that was refused for this fault, if it was.
    pub fn new(length: usize, fault: Option<Fault>) -> LwktAnswer
        ensures { result ≡ call_answer length fault }
    {
        let (fault, place) = match fault {
            None => (0, 0),
            Some(Fault::Script { place }) => (33, place),
            Some(fault) => (u32::from(fault.number()), 0),
        };
        LwktAnswer {
            length,
            fault,
            place,
        }
    }
}

/// The status of a run that ended so: 0 where every thread had ended, 2 where its turns were used up, 4 where it was unlawful.
pub fn status_of_end(end: End) -> u32
    ensures { result ≡ status_of_end end }
{
    match end {
        End::Ended => 0,
        End::TurnsOut => 2,
        End::Unlawful => 4,
    }
}

/// The status of a call that was refused for this fault: 3 for want of memory, else 1.
pub fn status_of_fault(fault: Fault) -> u32
    ensures { result ≡ status_of_fault fault }
{
    match fault {
        Fault::Memory(_) => 3,
        _ => 1,
    }
}
