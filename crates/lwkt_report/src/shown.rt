ghost use Rattle.std.specs.Prelude.{◌≡◌, ◌++◌, ℕ, List, OnOk, string_bytes};
ghost use Rattle.std.specs.Fmt.{decimal};
ghost use Rattle.lwkt_report.specs.Report.{ref_text, entry_text, record_text, state_text, owner_text, mode_text};

use lwkt_base::hexes::show_hex_or_none;
use lwkt_base::memory::{push_str, put};
use lwkt_base::{Blob, Entry, Mode, OutOfMemory, Owner, Ref, ThreadState};

/// What stands in a report as one part of a line.
pub(crate) trait Shown {
    // the text of the part
    ghost text: { Self → List ℕ };

    /// Appends the part's text.
    fn show(&self, out: &mut String) -> Result<(), OutOfMemory>
        ensures { OnOk result (string_bytes out.new ≡ string_bytes out.old ++ text self.now) };
}

impl Shown for u64 {
    ghost text = { decimal };

    fn show(&self, out: &mut String) -> Result<(), OutOfMemory> {
        put(out, *self)
    }
}

impl Shown for Blob {
    ghost text = { record_text };

    fn show(&self, out: &mut String) -> Result<(), OutOfMemory> {
        show_hex_or_none(self.as_slice(), out)
    }
}

impl Shown for Mode {
    ghost text = { mode_text };

    fn show(&self, out: &mut String) -> Result<(), OutOfMemory> {
        match self {
            Mode::Exclusive => push_str(out, "x"),
            Mode::Shared => push_str(out, "s"),
        }
    }
}

impl Shown for Ref {
    ghost text = { ref_text };

    fn show(&self, out: &mut String) -> Result<(), OutOfMemory> {
        put(out, self.tok.0)?;
        self.mode.show(out)
    }
}

impl Shown for Owner {
    ghost text = { owner_text };

    fn show(&self, out: &mut String) -> Result<(), OutOfMemory> {
        match self {
            Owner::Rest { .. } => push_str(out, "rest"),
            Owner::Out { .. } => push_str(out, "out"),
            Owner::With { .. } => push_str(out, "with"),
            Owner::Back { .. } => push_str(out, "back"),
        }
    }
}

impl Shown for ThreadState {
    ghost text = { state_text };

    fn show(&self, out: &mut String) -> Result<(), OutOfMemory> {
        match self {
            ThreadState::Ready => push_str(out, "ready"),
            ThreadState::Waiting => push_str(out, "waiting"),
            ThreadState::Running => push_str(out, "running"),
            ThreadState::Exited => push_str(out, "exited"),
            ThreadState::Faulted(fault) => put(out, ("faulted ", fault.number())),
        }
    }
}

impl Shown for Entry {
    ghost text = { entry_text };

    fn show(&self, out: &mut String) -> Result<(), OutOfMemory> {
        match self {
            Entry::Value(value) => put(out, ("v=", *value)),
            Entry::Bytes(blob) => {
                push_str(out, "b=")?;
                blob.show(out)
            }
            Entry::Aborted(asked) => push_str(out, if *asked { "a=1" } else { "a=0" }),
            Entry::Request(message, call) => {
                put(out, ("q=", message.0, ':', call.op, (':', call.arg)))
            }
            Entry::Reply(message, error, outcome) => {
                put(out, ("r=", message.0, ':', *error, (':', *outcome)))
            }
            Entry::NoMessage => push_str(out, "n"),
            Entry::Dropped(message, call) => {
                put(out, ("d=", message.0, ':', call.op, (':', call.arg)))
            }
            Entry::Refused(number) => put(out, ("f=", *number)),
            Entry::Failed(number) => put(out, ("x=", *number)),
        }
    }
}
