ghost use Rattle.std.specs.Prelude.{◌≡◌, ◌<◌, ◌≤◌, [], ◌∷◌, ◌++◌, length, vec_capacity};
ghost use Rattle.lwkt_base.specs.declared.limits.TheConstants.{TOKEN_LIMIT};

use crate::notes::TokenNote;
use lwkt_base::CpuId;
use lwkt_base::limits::TOKEN_LIMIT;

/// What a seat that was taken back had kept.
#[derive(Drop)]
pub(crate) struct Kept {
    pub(crate) notes: [TokenNote; 64],
    pub(crate) cpu: CpuId,
    ghost sized: { length notes ≡ TOKEN_LIMIT },
}

/// Appends what a seat had kept to a list that has room.
pub(crate) fn put_kept(list: &mut Vec<Kept>, notes: [TokenNote; 64], cpu: CpuId)
    requires sized { length notes ≡ TOKEN_LIMIT }
    requires room { length list.old.items < vec_capacity list.old }
    ensures items { (kept : Kept) × ((kept.notes ≡ notes) × (kept.cpu ≡ cpu) × (list.new.items ≡ list.old.items ++ kept ∷ [])) }
    ensures room { vec_capacity list.old ≤ vec_capacity list.new }
{
    let _ = list.push(Kept { notes, cpu });
}
