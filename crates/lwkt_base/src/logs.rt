ghost use Rattle.std.specs.Prelude.{◌≡◌};

use crate::entries::Entry;
use std::marker::Model;

/// What a thread's log has, the earliest entry first. Made from a vector, and given back as one, without taking memory.
#[derive(Drop)]
pub struct Log {
    entries: Vec<Entry>,
}

impl Model for Log {
    ghost use Rattle.std.specs.Prelude.{List};
    ghost use Rattle.lwkt_base.specs.declared.entries.Entry.{Entry};

    ghost Value = { List Entry };

    ghost view = { λ log. log.entries.items };
}

impl Log {
    /// The entries of the vector, in its order.
    pub fn from_vec(entries: Vec<Entry>) -> Self
        ensures { result ≡ entries.items }
    {
        Log { entries }
    }

    /// The vector that the log was made from.
    pub fn into_vec(self) -> Vec<Entry>
        ensures { result.items ≡ self }
    {
        self.entries
    }

    /// The entries, the first answer first.
    pub fn as_slice(&self) -> &[Entry]
        ensures { result.now ≡ self.now }
    {
        self.entries.as_slice()
    }
}
