//! The record of a token that is held exclusively.
ghost use Rattle.std.specs.Prelude.{◌≡◌, ◌<◌, ◌≤◌, true, Some, [], ◌∷◌, length, is_some};
ghost use Rattle.lwkt_base.specs.Holding.{is_exclusive};
ghost use Rattle.lwkt_bank.specs.Views.{wrote_record};
ghost use Rattle.lwkt_bank.specs.Deeds.{reads_blob, writes_blob};
ghost use Rattle.lwkt_bank.specs.Seats.{id_of, bank_of, tokens_of, plan_of, entry, holding, Changes};

use crate::banks::Bank;
use crate::seats::CpuSeat;
use crate::steps;
use lwkt_base::limits::RECORD_LIMIT;
use lwkt_base::{Blob, TokId};

impl CpuSeat {
    /// The record of a token: what the last written section left, or what this one wrote. That the seat holds the token
    /// exclusively and that it has a record is the caller's condition.
    #[inline]
    pub fn read_blob(&mut self, bank: &Bank, tok: TokId) -> Blob
        requires of { bank_of self.old ≡ id_of bank.now }
        requires there { tok.0 < tokens_of (bank_of self.old) }
        requires held { is_exclusive (holding self.old tok.0) ≡ true }
        requires guarded { is_some (plan_of (bank_of self.old) tok.0).blob ≡ true }
        ensures value { (entry self.old tok.0).blob ≡ Some result }
        ensures changes { Changes self.old self.new tok.0 (entry self.old tok.0) (reads_blob self.old.cpu tok.0 result ∷ []) }
    {
        steps::read_record(bank, &mut self.seat, tok)
    }

    /// Writes the record of a token. That the seat holds the token exclusively, that it has a record, and that the new one
    /// has at most 64 bytes is the caller's condition.
    #[inline]
    pub fn write_blob(&mut self, bank: &Bank, tok: TokId, blob: &Blob)
        requires of { bank_of self.old ≡ id_of bank.now }
        requires there { tok.0 < tokens_of (bank_of self.old) }
        requires held { is_exclusive (holding self.old tok.0) ≡ true }
        requires guarded { is_some (plan_of (bank_of self.old) tok.0).blob ≡ true }
        requires short { length blob.now ≤ RECORD_LIMIT }
        ensures { Changes self.old self.new tok.0 (wrote_record (entry self.old tok.0) blob.now) (writes_blob self.old.cpu tok.0 blob.now ∷ []) }
    {
        let note = &mut self.notes[tok.0 as usize];
        steps::write_record(bank, &mut self.seat, tok, note, blob);
    }
}
