//! How much room the lists beside the rows of packed events have.
//!
//! A row has the place of an element of such a list in 32 bits, so each of them takes 2^32 elements at most.
ghost use Rattle.std.specs.Prelude.{◌≡◌, ◌↔◌, ◌-◌, ◌≤◌, min, vec_len, IsTrue};
ghost use Rattle.lwkt_drive.specs.ShortEvents.{spare_places};

// How many places there are in 32 bits.
const PLACES: usize = 0x1_0000_0000;

/// How many elements more a list takes before it asks for memory, of which the places fit 32 bits.
#[inline(always)]
pub fn spare_places<T>(list: &Vec<T>) -> usize
    ensures { result ≡ spare_places list.now }
{
    list.capacity().min(PLACES).saturating_sub(list.len())
}

/// Takes a number down to that of the elements more that a list takes, if that is less. Each element of the list has a place.
#[inline(always)]
pub fn lower<T>(number: &mut usize, list: &Vec<T>)
    requires { vec_len list.now ≤ 4294967296 }
    ensures { number.new ≡ min number.old (spare_places list.now) }
{
    let left = list.capacity().min(PLACES) - list.len();
    if left < *number {
        *number = left;
    }
}

/// Whether so many elements more of a list have places that fit 32 bits.
#[inline(always)]
pub fn have_places<T>(list: &Vec<T>, count: usize) -> bool
    ensures { IsTrue result ↔ (count ≤ 4294967296 - vec_len list.now) }
{
    count <= PLACES.saturating_sub(list.len())
}
