use lwkt_base::{Blob, Section};

/// What a try to take a token answers.
#[derive(Clone, Copy, PartialEq, Eq)]
pub enum Try {
    /// The token was taken, at this generation.
    Got { generation: u64 },
    /// It is held in a way that excludes the request, or marked; the word that was found.
    Busy { word: u64 },
    /// Another processor's step came between.
    Again,
    /// An exclusive request at the last generation.
    Worn,
}

/// What giving a reference back answers.
#[derive(Clone, Copy, PartialEq, Eq)]
pub enum Given {
    /// A reference that doesn't end an exclusive holding.
    One,
    /// The last reference of an exclusive holding, with row and record as at the beginning of the section.
    Clean,
    /// The last reference of an exclusive holding, with another row or record; the section that it ended.
    Written(Section),
}

/// What a restore stored.
#[derive(Clone, Copy)]
pub struct Stored {
    /// The values of the cells, by their numbers.
    pub cells: [Option<u64>; 4],
    /// The record.
    pub blob: Option<Blob>,
}
