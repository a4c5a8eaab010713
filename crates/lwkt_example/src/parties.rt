//! What the threads do, step by step.
ghost use Rattle.std.specs.Prelude.{◌≡◌, ◌+◌};

use lwkt_base::{Answer, Ask, Fault, TokId};
use lwkt_machine::Steps;

/// The shared value: its version, and the value itself.
pub const SHARED: TokId = TokId(0);

/// How many rounds each makes.
pub const ROUNDS: u64 = 20;

/// Reads the value where its version isn't that of the copy, or writes a new one; again and again.
#[derive(Drop)]
pub struct Party {
    /// Whether it reads the value; else it writes a new one.
    pub reads: bool,
    /// How many rounds are left.
    pub left: u64,
    /// In how many rounds its copy was still good.
    pub hits: u64,
    /// In how many it wasn't.
    pub misses: u64,
    version: u64,
    copy: u64,
}

impl Party {
    /// One that reads or writes, before its first round.
    pub fn new(reads: bool) -> Party
        ensures { result.hits + result.misses + result.left ≡ 20 }
    {
        Party {
            reads,
            left: ROUNDS,
            hits: 0,
            misses: 0,
            version: 0,
            copy: 0,
        }
    }

    // One round more is over, by a copy that was still good or not.
    fn count(&mut self, hit: bool)
        ensures { self.old.hits + self.old.misses + self.old.left ≡ 20 → self.new.hits + self.new.misses + self.new.left ≡ 20 }
    {
        if self.left == 0 || self.hits > ROUNDS || self.misses > ROUNDS {
            return;
        }
        self.left -= 1;
        if hit {
            self.hits += 1;
        } else {
            self.misses += 1;
        }
    }

    // Asks for the value, if there is another round.
    fn again(&self) -> Ask {
        if self.left == 0 {
            return Ask::Exit;
        }
        if self.reads {
            Ask::GetShared(SHARED)
        } else {
            Ask::Get(SHARED)
        }
    }

    // What a reader does with the version.
    fn compare(&mut self, version: u64) -> Ask
        ensures { self.old.hits + self.old.misses + self.old.left ≡ 20 → self.new.hits + self.new.misses + self.new.left ≡ 20 }
    {
        if version == self.version {
            self.count(true);
            return Ask::Rel(SHARED);
        }
        self.version = version;
        Ask::Read(SHARED, 1)
    }
}

impl Steps for Party {
    ghost kept = { λ p. p.hits + p.misses + p.left ≡ 20 };

    fn begin(&mut self) -> Ask {
        self.again()
    }

    fn answered(&mut self, asked: Ask, answer: Answer) -> Ask {
        match (asked, answer) {
            (Ask::GetShared(_), _) => Ask::Read(SHARED, 0),
            (Ask::Get(_), _) => Ask::Read(SHARED, 0),
            (Ask::Read(_, 0), Answer::Value(version)) if self.reads => self.compare(version),
            (Ask::Read(_, 0), Answer::Value(version)) => {
                self.version = version.wrapping_add(1);
                Ask::Write(SHARED, 0, self.version)
            }
            (Ask::Read(_, _), Answer::Value(value)) => {
                self.copy = value;
                self.count(false);
                Ask::Rel(SHARED)
            }
            (Ask::Write(_, 0, _), _) => Ask::Write(SHARED, 1, self.version.wrapping_mul(2)),
            (Ask::Write(_, _, _), _) => {
                self.count(false);
                Ask::Rel(SHARED)
            }
            (Ask::Rel(_), _) => self.again(),
            _ => Ask::Exit,
        }
    }

    fn refused(&mut self, _asked: Ask, _fault: Fault) -> Ask {
        Ask::Exit
    }
}
