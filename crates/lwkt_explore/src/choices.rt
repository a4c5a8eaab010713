//! Of which processors the next turns are tried at a place.
use crate::doings::Doings;
use crate::touches::{cpu_bit, has};

// How many processors a set has.
fn size_of(set: u8) -> usize {
    let mut size = 0usize;
    for cpu in 0..8usize {
        if has(set, cpu) {
            size = size.saturating_add(1);
        }
    }
    size
}

// The processors whose turns may disturb the next turn of this one.
fn disturbing(doings: &Doings, cpus: usize, cpu: usize) -> u8 {
    let mut set = 0u8;
    for other in 0..cpus {
        if doings.is_disturbed(cpu, other) {
            set |= cpu_bit(other);
        }
    }
    set
}

// A set with those that may disturb the next turn of one in it.
fn grown(set: u8, disturbing: &[u8; 8]) -> u8 {
    let mut more = set;
    for cpu in 0..8usize {
        if has(set, cpu) {
            more |= disturbing[cpu];
        }
    }
    more
}

// The smallest set that has a processor, and none that others disturb.
fn closed(cpu: usize, disturbing: &[u8; 8]) -> u8 {
    let mut set = cpu_bit(cpu);
    for _ in 0..8u32 {
        set = grown(set, disturbing);
    }
    set
}

// Whether a set is among the first ones of some.
fn is_among(sets: &[u8; 8], count: usize, set: u8) -> bool {
    for (place, one) in sets.iter().enumerate() {
        if place < count && *one == set {
            return true;
        }
    }
    false
}

// The sets of this size behind the first ones, each once; says how many there are then.
fn add_sized(sets: &mut [u8; 8], before: usize, given: &[u8; 8], size: usize) -> usize {
    let mut count = before;
    for set in given {
        if size_of(*set) == size && !is_among(sets, count, *set) {
            if let Some(place) = sets.get_mut(count) {
                *place = *set;
            }
            count = count.saturating_add(1);
        }
    }
    count
}

// Sets by their size, each once, without the empty ones.
fn by_size(given: &[u8; 8]) -> [u8; 8] {
    let mut sets = [0u8; 8];
    let mut count = 0usize;
    for size in 1..9usize {
        count = add_sized(&mut sets, count, given, size);
    }
    sets
}

/// One set, of all processors.
pub(crate) fn all_of(cpus: usize) -> [u8; 8] {
    let mut sets = [0u8; 8];
    for cpu in 0..cpus.min(8) {
        sets[0] |= cpu_bit(cpu);
    }
    sets
}

/// Sets of processors, the smallest first, then empty ones; each is such that no turn of another processor, whenever it is made,
/// disturbs the next turn of one in it. Together they have every processor. Where all threads have ended that are no services, it is one
/// set of all: what turns do to messages then a report shows.
pub(crate) fn sets_of(doings: &Doings, cpus: usize) -> [u8; 8] {
    if doings.all_done() {
        return all_of(cpus);
    }
    let mut disturbed = [0u8; 8];
    for cpu in 0..cpus.min(8) {
        disturbed[cpu] = disturbing(doings, cpus, cpu);
    }
    let mut sets = [0u8; 8];
    for cpu in 0..cpus.min(8) {
        sets[cpu] = closed(cpu, &disturbed);
    }
    by_size(&sets)
}
