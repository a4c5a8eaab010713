//! What the calls on a seat answer. Each answer has a number: 0, or that of its fault.
ghost use Rattle.std.specs.Prelude.{◌≡◌, ◌^◌, ◌<◌};
ghost use Rattle.lwkt_seats.specs.Counts.{count_asked, count_furthered, count_gave};
ghost use Rattle.lwkt_seats.specs.Numbers.{asked_number, furthered_number, marked_number, gave_number, loaded_number, stored_number, added_number, judged_number, restored_number, record_read_number, record_written_number};

use lwkt_base::Blob;

/// What asking for a reference answers.
#[derive(Clone, Copy)]
pub enum Asked {
    /// A first reference was taken.
    Taken,
    /// The seat holds the token, and has one reference more.
    Further,
    NoToken,
    ListFull,
    Upgrade,
    Busy,
    Again,
    Worn,
}

impl Asked {
    /// Its number, as C is given it.
    pub fn number(self) -> u32
        ensures { result ≡ asked_number self }
    {
        match self {
            Asked::Taken | Asked::Further => 0,
            Asked::NoToken => 16,
            Asked::ListFull => 10,
            Asked::Upgrade => 11,
            Asked::Busy => 23,
            Asked::Again => 34,
            Asked::Worn => 20,
        }
    }

    /// Counts the references of the seat after it.
    #[inline(always)]
    pub fn count_in(self, count: &mut usize)
        requires { count_asked self count.old < 2 ^ 64 }
        ensures { count.new ≡ count_asked self count.old }
    {
        if let Asked::Taken | Asked::Further = self {
            *count += 1;
        }
    }
}

/// What asking for a further reference answers.
#[derive(Clone, Copy)]
pub enum Furthered {
    Further,
    NoToken,
    NotHeld,
    ListFull,
}

impl Furthered {
    /// Its number, as C is given it.
    pub fn number(self) -> u32
        ensures { result ≡ furthered_number self }
    {
        match self {
            Furthered::Further => 0,
            Furthered::NoToken => 16,
            Furthered::NotHeld => 13,
            Furthered::ListFull => 10,
        }
    }

    /// Counts the references of the seat after it.
    #[inline(always)]
    pub fn count_in(self, count: &mut usize)
        requires { count_furthered self count.old < 2 ^ 64 }
        ensures { count.new ≡ count_furthered self count.old }
    {
        if let Furthered::Further = self {
            *count += 1;
        }
    }
}

/// What marking a token answers.
#[derive(Clone, Copy)]
pub enum Marked {
    Set,
    NoToken,
}

impl Marked {
    /// Its number, as C is given it.
    pub fn number(self) -> u32
        ensures { result ≡ marked_number self }
    {
        match self {
            Marked::Set => 0,
            Marked::NoToken => 16,
        }
    }
}

/// What giving a reference back answers.
#[derive(Clone, Copy)]
pub enum GaveBack {
    Given,
    NoToken,
    NotHeld,
    Broken,
}

impl GaveBack {
    /// Its number, as C is given it.
    pub fn number(self) -> u32
        ensures { result ≡ gave_number self }
    {
        match self {
            GaveBack::Given => 0,
            GaveBack::NoToken => 16,
            GaveBack::NotHeld => 13,
            GaveBack::Broken => 19,
        }
    }

    /// Counts the references of the seat after it.
    #[inline(always)]
    pub fn count_in(self, count: &mut usize)
        requires { self ≡ GaveBack.Given → 0 < count.old }
        ensures { count.new ≡ count_gave self count.old }
    {
        if let GaveBack::Given = self {
            *count -= 1;
        }
    }
}

/// What loading a cell answers.
#[derive(Clone, Copy)]
pub enum Loaded {
    Value(u64),
    NoToken,
    NoCell,
    NotHeld,
}

impl Loaded {
    /// Its number, as C is given it.
    pub fn number(self) -> u32
        ensures { result ≡ loaded_number self }
    {
        match self {
            Loaded::Value(_) => 0,
            Loaded::NoToken => 16,
            Loaded::NoCell => 17,
            Loaded::NotHeld => 13,
        }
    }
}

/// What storing in a cell answers.
#[derive(Clone, Copy)]
pub enum Stored {
    Stored,
    NoToken,
    NoCell,
    NotHeld,
    SharedWrite,
    TallyOnly,
}

impl Stored {
    /// Its number, as C is given it.
    pub fn number(self) -> u32
        ensures { result ≡ stored_number self }
    {
        match self {
            Stored::Stored => 0,
            Stored::NoToken => 16,
            Stored::NoCell => 17,
            Stored::NotHeld => 13,
            Stored::SharedWrite => 18,
            Stored::TallyOnly => 22,
        }
    }
}

/// What adding to a cell answers.
#[derive(Clone, Copy)]
pub enum Added {
    Sum(u64),
    NoToken,
    NotHeld,
    SharedWrite,
    TallyOnly,
    Overflow,
}

impl Added {
    /// Its number, as C is given it.
    pub fn number(self) -> u32
        ensures { result ≡ added_number self }
    {
        match self {
            Added::Sum(_) => 0,
            Added::NoToken => 16,
            Added::NotHeld => 13,
            Added::SharedWrite => 18,
            Added::TallyOnly => 22,
            Added::Overflow => 21,
        }
    }
}

/// Whether row and record obey the law.
#[derive(Clone, Copy)]
pub enum Judged {
    Lawful,
    Broken,
    NoToken,
    NotHeld,
    SharedWrite,
}

impl Judged {
    /// Its number, as C is given it.
    pub fn number(self) -> u32
        ensures { result ≡ judged_number self }
    {
        match self {
            Judged::Lawful => 0,
            Judged::Broken => 19,
            Judged::NoToken => 16,
            Judged::NotHeld => 13,
            Judged::SharedWrite => 18,
        }
    }
}

/// What storing the first row and record again answers.
#[derive(Clone, Copy)]
pub enum RowRestored {
    Restored,
    NoToken,
    NotHeld,
    SharedWrite,
}

impl RowRestored {
    /// Its number, as C is given it.
    pub fn number(self) -> u32
        ensures { result ≡ restored_number self }
    {
        match self {
            RowRestored::Restored => 0,
            RowRestored::NoToken => 16,
            RowRestored::NotHeld => 13,
            RowRestored::SharedWrite => 18,
        }
    }
}

/// What reading a record answers.
#[derive(Clone, Copy)]
pub enum RecordRead {
    Bytes(Blob),
    NoToken,
    NoRecord,
    NotHeld,
    SharedRecord,
}

impl RecordRead {
    /// Its number, as C is given it.
    pub fn number(self) -> u32
        ensures { result ≡ record_read_number self }
    {
        match self {
            RecordRead::Bytes(_) => 0,
            RecordRead::NoToken => 16,
            RecordRead::NoRecord => 17,
            RecordRead::NotHeld => 13,
            RecordRead::SharedRecord => 37,
        }
    }
}

/// What writing a record answers.
#[derive(Clone, Copy)]
pub enum RecordWritten {
    Written,
    NoToken,
    NoRecord,
    NotHeld,
    SharedRecord,
    RecordLong,
}

impl RecordWritten {
    /// Its number, as C is given it.
    pub fn number(self) -> u32
        ensures { result ≡ record_written_number self }
    {
        match self {
            RecordWritten::Written => 0,
            RecordWritten::NoToken => 16,
            RecordWritten::NoRecord => 17,
            RecordWritten::NotHeld => 13,
            RecordWritten::SharedRecord => 37,
            RecordWritten::RecordLong => 38,
        }
    }
}
