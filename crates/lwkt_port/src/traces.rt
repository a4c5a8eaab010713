//! Events at the end of a trace that has room.
ghost use Rattle.std.specs.Prelude.{◌<◌, vec_len, vec_capacity};
ghost use Rattle.lwkt_port.specs.Works.{HasTraced};

use lwkt_core::Event;

#[inline(always)]
pub(crate) fn note_event(trace: &mut Vec<Event>, event: Event)
    requires { vec_len trace.old < vec_capacity trace.old }
    ensures { HasTraced event trace.old trace.new }
{
    trace.push_reserved(event);
}
