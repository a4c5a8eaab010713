//! Where a token's words lie, and what stands in them.
ghost use Rattle.std.specs.Prelude.{◌≡◌};
ghost use Rattle.lwkt_bank.specs.Views.{generation_in};
ghost use Rattle.lwkt_bank.specs.Rule.{token_word, cell_word};

use lwkt_base::TokId;
use lwkt_base::limits::LAST_GENERATION;

/// How much one generation is in a token word.
pub(crate) const GENERATION: u64 = 262144;

/// What the end of a written section adds to a token word: a generation, less the exclusive bit.
pub(crate) const SECTION: u64 = GENERATION - 1;

/// The first token word of the last generation.
pub(crate) const LAST_WORD: u64 = GENERATION * LAST_GENERATION;

// How many words of the table a token has.
const BLOCK: usize = 16;

// Where the count word and the first cell of token 0 lie.
const FIRST_WORD: usize = 1;

const FIRST_CELL: usize = 2;

/// Where the count word of a token lies.
#[inline]
pub(crate) fn word_of_token(tok: TokId) -> usize
    ensures { result ≡ token_word tok.0 }
{
    BLOCK * tok.0 as usize + FIRST_WORD
}

/// Where a cell of a token lies.
#[inline]
pub(crate) fn word_of_cell(tok: TokId, cell: u8) -> usize
    ensures { result ≡ cell_word tok.0 cell }
{
    BLOCK * tok.0 as usize + FIRST_CELL + cell as usize
}

/// The generation in a token word.
#[inline]
pub(crate) fn generation_in(word: u64) -> u64
    ensures { result ≡ generation_in word }
{
    word / GENERATION
}
