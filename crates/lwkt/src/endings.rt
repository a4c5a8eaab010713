//! How the program ends.
ghost use Rattle.std.specs.Prelude.{◌≡◌};
ghost use Rattle.lwkt.specs.Ending.{status_at};

use lwkt_base::OutOfMemory;

/// How what the words ask for ended.
#[derive(Clone, Copy)]
pub enum Ending {
    /// It was done, or refused, with this exit status.
    Done(u8),
    /// Memory was refused.
    Memory(OutOfMemory),
    /// A file couldn't be opened or read, or a stream failed.
    Stream,
}

impl Ending {
    /// The exit status: 3 if memory was refused, or a file or a stream failed.
    pub fn status(self) -> u8
        ensures { result ≡ status_at self }
    {
        match self {
            Ending::Done(status) => status,
            Ending::Memory(_) | Ending::Stream => 3,
        }
    }
}
