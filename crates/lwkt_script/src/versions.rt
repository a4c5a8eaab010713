ghost use Rattle.std.specs.Prelude.{◌≡◌};
ghost use Rattle.lwkt_script.specs.Version.{version_of, is_later, has_law, token_members, thread_members};

use lwkt_base::Law;

/// The version of the format that a script, or a part of it, is written in.
#[derive(Clone, Copy, PartialEq, Eq)]
pub enum Version {
    /// No token has a record, and no message is sent with priority.
    First,
    /// Tokens may have records.
    Second,
    /// Threads may compute and decide.
    Third,
}

/// The version of a number.
pub fn version_of(n: u64) -> Version
    ensures { result ≡ version_of n }
{
    match n {
        3 => Version::Third,
        2 => Version::Second,
        _ => Version::First,
    }
}

impl Version {
    /// Whether it has records of tokens, a law of them, steps on them, and messages sent with priority.
    pub fn is_later(self) -> bool
        ensures { result ≡ is_later self }
    {
        match self {
            Version::First => false,
            Version::Second => true,
            Version::Third => true,
        }
    }

    /// Whether it has a law.
    pub fn has_law(self, law: Law) -> bool
        ensures { result ≡ has_law self law }
    {
        match law {
            Law::Len => self.is_later(),
            _ => true,
        }
    }

    /// How many members a thread has.
    pub fn thread_members(self) -> usize
        ensures { result ≡ thread_members self }
    {
        match self {
            Version::First => 3,
            Version::Second => 3,
            Version::Third => 5,
        }
    }

    /// How many members a token has.
    pub fn token_members(self) -> usize
        ensures { result ≡ token_members self }
    {
        match self {
            Version::First => 4,
            Version::Second => 5,
            Version::Third => 5,
        }
    }
}
