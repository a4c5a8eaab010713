//! Which processor ended each written section, for whoever shows them.
use lwkt_base::memory::{push, with_capacity_for};
use lwkt_base::{CpuId, OutOfMemory};
use lwkt_core::Event;
use lwkt_drive::{EventList, Give, give_of};
use std::alloc::Global;

// A section, and the processor that ended it by giving the token back.
#[derive(Clone, Copy)]
struct Given {
    tok: u8,
    generation: u64,
    cpu: CpuId,
}

// Adds a written give.
fn add(given: &mut Vec<Given>, give: &Give) -> Result<(), OutOfMemory> {
    push(
        given,
        Given {
            tok: give.section.tok.0,
            generation: give.section.generation,
            cpu: give.cpu,
        },
    )
}

// Adds the written gives of a packed trace.
fn add_kept(given: &mut Vec<Given>, trace: &EventList) -> Result<(), OutOfMemory> {
    for place in 0..trace.len() {
        if let Some(give) = trace.give(place) {
            add(given, &give)?;
        }
    }
    Ok(())
}

// Adds those among events.
fn add_named(given: &mut Vec<Given>, events: &[Event]) -> Result<(), OutOfMemory> {
    for event in events {
        if let Some(give) = give_of(event) {
            add(given, &give)?;
        }
    }
    Ok(())
}

// The written gives of traces and of a stop, by token and then by generation.
fn given_in_order(
    alloc: Global,
    traces: &[EventList],
    stops: &[Event],
) -> Result<Vec<Given>, OutOfMemory> {
    let mut given = Vec::new(alloc);
    for trace in traces {
        add_kept(&mut given, trace)?;
    }
    add_named(&mut given, stops)?;
    given.sort_unstable_by_key(|one| (one.tok, one.generation));
    Ok(given)
}

// Their processors.
fn cpus_of(alloc: Global, given: &[Given]) -> Result<Vec<CpuId>, OutOfMemory> {
    let mut cpus = with_capacity_for(alloc, given)?;
    for one in given {
        push(&mut cpus, one.cpu)?;
    }
    Ok(cpus)
}

/// Of each written section in traces and in the events of a stop, by token and then by generation, the processor that ended it, 0
/// to 7.
pub fn givers_of(
    alloc: Global,
    traces: &[EventList],
    stops: &[Event],
) -> Result<Vec<CpuId>, OutOfMemory> {
    let given = given_in_order(alloc, traces, stops)?;
    cpus_of(alloc, &given)
}
