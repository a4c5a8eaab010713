//! Events with a number that a row has no room for.
//!
//! A row has room for a number of 32 bits. Few values that are read or stored need more, and hardly ever the round of a message. An event
//! with such a number is *wide*: it lies in a list of its own.
ghost use Rattle.std.specs.Prelude.{◌≡◌, ◌+◌, ◌<◌, [], ◌∷◌, ◌++◌, vec_len, vec_capacity, IfSome, Some, None, is_some, if◌then◌else◌};
ghost use Rattle.lwkt_drive.specs.ShortEvents.{is_wide, is_wide_event, wide_event};

use lwkt_base::{CpuId, MsgId, TokId};
use lwkt_core::Event;

/// An event with a number of more than 32 bits. Each kind is that of `Event`.
#[derive(Clone, Copy)]
pub enum WideEvent {
    Read(CpuId, TokId, u8, u64),
    Write(CpuId, TokId, u8, u64),
    Send(CpuId, MsgId, CpuId, u64),
    TakeMsg(CpuId, MsgId, u64),
}

/// Whether a row has no room for the number.
#[inline(always)]
pub fn is_wide(number: u64) -> bool
    ensures { result ≡ is_wide number }
{
    number > 0xffff_ffff
}

/// The number as a row has it; None if a row has no room for it.
#[inline(always)]
pub fn short_number(number: u64) -> Option<u32>
    ensures { result ≡ (if is_wide number then None else Some number) }
{
    if is_wide(number) {
        return None;
    }
    Some(number as u32)
}

impl WideEvent {
    /// A wide event.
    pub fn of(event: &Event) -> Option<WideEvent>
        ensures same { IfSome result (λ wide. wide_event wide ≡ event.now) }
        ensures wide { is_some result ≡ is_wide_event event.now }
    {
        match *event {
            Event::Read {
                cpu,
                tok,
                cell,
                value,
            } if is_wide(value) => Some(WideEvent::Read(cpu, tok, cell, value)),
            Event::Write {
                cpu,
                tok,
                cell,
                value,
            } if is_wide(value) => Some(WideEvent::Write(cpu, tok, cell, value)),
            Event::Send {
                cpu,
                msg,
                to,
                round,
            } if is_wide(round) => Some(WideEvent::Send(cpu, msg, to, round)),
            Event::TakeMsg { cpu, msg, round } if is_wide(round) => {
                Some(WideEvent::TakeMsg(cpu, msg, round))
            }
            _ => None,
        }
    }

    /// Puts the event behind those of a room that has room for it.
    pub fn put(&self, room: &mut Vec<Event>)
        requires { vec_len room.old < vec_capacity room.old }
        ensures items { room.new.items ≡ room.old.items ++ wide_event self.now ∷ [] }
        ensures len { vec_len room.new ≡ vec_len room.old + 1 }
        ensures capacity { vec_capacity room.new ≡ vec_capacity room.old }
    {
        match *self {
            WideEvent::Read(cpu, tok, cell, value) => room.push_reserved(Event::Read {
                cpu,
                tok,
                cell,
                value,
            }),
            WideEvent::Write(cpu, tok, cell, value) => room.push_reserved(Event::Write {
                cpu,
                tok,
                cell,
                value,
            }),
            WideEvent::Send(cpu, msg, to, round) => room.push_reserved(Event::Send {
                cpu,
                msg,
                to,
                round,
            }),
            WideEvent::TakeMsg(cpu, msg, round) => {
                room.push_reserved(Event::TakeMsg { cpu, msg, round });
            }
        }
    }
}
