//! The close: the clerk takes back all seats.
ghost use Rattle.std.specs.Prelude.{◌≡◌, ℕ, ◌+◌, ◌<◌, ◌≤◌, [], ◌∷◌, length, vec_capacity};
ghost use Rattle.lwkt_base.specs.declared.holdings.Held.TheVariants.{Nothing};
ghost use Rattle.lwkt_bank.specs.Views.{at, joined};
ghost use Rattle.lwkt_bank.specs.Closing.{Gathering};

use crate::banks::Bank;
use crate::kept::{Kept, put_kept};
use crate::plays::TakeBack;
use crate::rules::{BankRule, Key};
use crate::seats::CpuSeat;
use crate::views::View;
use atomic_table::{Seat, Table};
use lwkt_base::{Blob, CpuId};
use lwkt_table::SeatKind;
use std::alloc::Global;

// The clerk takes back a seat that holds nothing.
fn join(
    table: &Table<Blob, View, Key, BankRule, Global>,
    clerk: &mut Seat<Blob, View>,
    other: Seat<Blob, View>,
    cpu: CpuId,
)
    requires same { (clerk.old.table_id ≡ table.now.shared.table_id) × (other.table_id ≡ table.now.shared.table_id) }
    requires slots { other.me.1 ≡ [] }
    requires words { 0 < table.now.shared.table_id.words }
    requires desk { (made : ℕ) × (back : ℕ) × (clerk.old.me.0.kind ≡ SeatKind.Clerk made back) }
    requires named { other.me.0.kind ≡ SeatKind.Of cpu }
    requires quiet { (tok : ℕ) → tok < length table.now.shared.key.plans.items → (at other.me.0.tokens tok).held ≡ Nothing }
    ensures { (clerk.new.table_id ≡ clerk.old.table_id) × (clerk.new.id ≡ clerk.old.id) × (clerk.new.me ≡ (joined clerk.old.me.0 other.me.0, clerk.old.me.1)) }
{
    table.shared.join_seat::<TakeBack>(clerk, other)
}

// The clerk takes back all these seats, each holding nothing.
pub(crate) fn gather(
    table: &Table<Blob, View, Key, BankRule, Global>,
    clerk: &mut Seat<Blob, View>,
    mut seats: Vec<CpuSeat>,
    kept: &mut Vec<Kept>,
)
    requires same { clerk.old.table_id ≡ table.now.shared.table_id }
    requires words { 0 < table.now.shared.table_id.words }
    requires begin { Gathering (record { table = table.now.shared.table_id; plans = table.now.shared.key.plans.items }) clerk.old.me.0 seats.items seats.items kept.old.items 0 }
    requires room { length kept.old.items + length seats.items ≤ vec_capacity kept.old }
    ensures same { (clerk.new.table_id ≡ clerk.old.table_id) × (clerk.new.id ≡ clerk.old.id) }
    ensures done { Gathering (record { table = table.now.shared.table_id; plans = table.now.shared.key.plans.items }) clerk.new.me.0 seats.items [] kept.new.items (length seats.items) }
{
    while let Some(seat) = seats.pop() {
        let CpuSeat {
            notes,
            seat: other,
            cpu,
        } = seat;
        join(table, clerk, other, cpu);
        put_kept(kept, notes, cpu);
    }
}
