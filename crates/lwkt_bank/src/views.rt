use lwkt_base::{Blob, CpuId, Held, Law};
use lwkt_table::{Chapter, Deed, SeatKind};

/// What is declared of a token at the opening.
#[derive(Clone, Copy)]
pub struct Plan {
    /// The opening generation.
    pub generation: u64,
    /// The law's parameter.
    pub param: u64,
    /// The cells of the opening row; past the last zeros.
    pub first: [u64; 4],
    /// How many cells it has, 0 to 4.
    pub cells: usize,
    /// The law that the token declares.
    pub law: Law,
    /// The opening record, if the token guards one.
    pub blob: Option<Blob>,
}

/// A cell of a token's first row that a seat knows. Only proofs have values of it.
pub struct KnownCell {
    /// The cell's number, 0 to 3.
    pub at: u64,
    /// What the cell has in that row.
    pub value: u64,
}

/// What a processor has added to the cell of a Tally token. Only proofs have values of it.
pub struct Added {
    /// Who has added it.
    pub cpu: CpuId,
    /// The sum of what it has added.
    pub amount: u64,
}

/// What a seat knows of one token. Only proofs have values of it. A clause reads an array as a list, of any length.
pub struct TokenEntry {
    /// The token's number, 0 to 63.
    pub tok: u64,
    /// What the seat holds of it.
    pub held: Held,
    /// The generation that the seat last saw.
    pub generation: u64,
    /// The cells of that generation's first row that the seat knows.
    pub known: [KnownCell; 0],
    /// While the seat holds the token, the first row of the section.
    pub first: [u64; 0],
    /// While the seat holds the token, its row.
    pub row: [u64; 0],
    /// The records that the seat knows to be that generation's first: none, or that one.
    pub known_blob: [Blob; 0],
    /// While the seat holds the token, the first record of the section, if it has one.
    pub first_blob: Option<Blob>,
    /// While the seat holds the token, its record.
    pub blob: Option<Blob>,
    /// While the seat holds the token exclusively, the cells that it stored to since the section began.
    pub touched: [u64; 0],
    /// How many written sections the seat has ended.
    pub written: u64,
    /// What was added to the cell of a Tally token.
    pub added: [Added; 0],
}

/// What a seat at the bank knows. Only proofs have values of it.
pub struct View {
    /// Whose seat it is: a processor's, the clerk's, or one that is spent.
    pub kind: SeatKind,
    /// What is declared of the tokens, by number.
    pub plans: [Plan; 0],
    /// Of each token the first entry counts.
    pub tokens: [TokenEntry; 0],
    /// What the seat has seen of the table's history: the front of it up to the seat's own last deed.
    pub past: [Deed; 0],
    /// What the seats had seen that the clerk took back.
    pub chapters: [Chapter; 0],
}
