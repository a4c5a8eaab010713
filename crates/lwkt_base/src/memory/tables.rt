//! Tables of atomic words, and values in places of their own.
ghost use Rattle.std.specs.Prelude.{◌≡◌, [], length, IfOk};
ghost use Rattle.std.specs.Arc.{arc_value};
ghost use Rattle.atomic_table.specs.Table.{opening};

use super::{OutOfMemory, refused};
use atomic_table::{Seat, Table, TableRule};
use std::alloc::Global;
use std::sync::Arc;

/// A table of these words and slots, and its first seat. The slots are dropped where it is refused.
pub fn table<S: Drop, V, K, P: TableRule<S, V, K>>(
    alloc: Global,
    words: &[u64],
    slots: Vec<S>,
    about: &K,
) -> Result<(Table<S, V, K, P, Global>, Seat<S, V>), OutOfMemory>
    requires { P.holds about.now (opening words.now slots.items (P.first about.now)) }
    ensures { IfOk result (λ t. (t.0.shared.table_id.words ≡ length words.now) × (t.0.shared.table_id.slots ≡ length slots.items) × (t.1.table_id ≡ t.0.shared.table_id) × (t.1.id ≡ 0) × (t.1.me ≡ (P.first about.now, [])) × (t.0.shared.key ≡ about.now)) }
{
    match Table::new(alloc, words, slots, about) {
        Ok(opened) => Ok(opened),
        Err(_) => Err(refused()),
    }
}

/// A value in a place of its own.
pub fn boxed<T: Drop>(alloc: Global, value: T) -> Result<Box<T>, OutOfMemory>
    ensures { IfOk result (λ b. b.value ≡ value) }
{
    match Box::new(alloc, value) {
        Ok(place) => Ok(place),
        Err(_) => Err(refused()),
    }
}

/// A value that several own.
pub fn shared<T: Drop>(alloc: Global, value: T) -> Result<Arc<T>, OutOfMemory>
    ensures { IfOk result (λ c. arc_value c ≡ value) }
{
    match Arc::new(alloc, value) {
        Ok(place) => Ok(place),
        Err(_) => Err(refused()),
    }
}
