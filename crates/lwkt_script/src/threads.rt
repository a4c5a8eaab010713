ghost use Rattle.std.specs.Prelude.{◌≡◌, ℕ, All, ◌<◌, ◌≤◌, [], length, IfOk};
ghost use Rattle.serde_json.specs.View.{view, items_view};
ghost use Rattle.lwkt_code.specs.declared.circles.TheConstants.{MOST_STEPS};
ghost use Rattle.lwkt_script.specs.Outcome.{Gives, each};
ghost use Rattle.lwkt_script.specs.Format.{threads_on, has_room, listed_code, code, thread};
ghost use Rattle.lwkt_script.specs.Limits.{IsThread, sentences_in};

use crate::fields::{has_members, list_at, number_at};
use crate::scripts::ThreadSpec;
use crate::sentences::program_of;
use crate::steps::steps_of;
use crate::variables::{service_in, vars_in};
use crate::versions::Version;
use lwkt_base::limits::{CPU_LIMIT, MACHINE_THREADS, MOST_REPEATS, STEP_LIMIT, THREAD_LIMIT};
use lwkt_base::memory::push;
use lwkt_base::{CpuId, Fault};
use lwkt_code::Code;
use serde_json::Value;
use std::alloc::Global;

// How many of these threads are of a processor.
fn threads_on(cpu: u8, threads: &[ThreadSpec]) -> usize
    ensures { result ≡ threads_on cpu threads.now }
{
    threads.iter().filter(|t| t.cpu.0 == cpu).count()
}

// Whether a thread of a processor may have so many steps and come after those.
fn has_room(before: &[ThreadSpec], cpu: u8, steps: usize) -> bool
    ensures { result ≡ has_room before.now cpu steps }
{
    steps <= STEP_LIMIT && threads_on(cpu, before) < THREAD_LIMIT
}

// The program of a list of asks of thread n.
#[tactic(auto, using(crate::proofs::Counts::listed_few, crate::proofs::Sayings::listed_said))]
fn listed(
    alloc: Global,
    version: Version,
    n: u32,
    repeat: u32,
    items: &[Value],
) -> Result<Code, Fault>
    requires thread { n ≤ 128 }
    requires steps { length items.now ≤ STEP_LIMIT }
    ensures exact { Gives (λ c. c) result (listed_code version n repeat (items_view items.now)) }
    ensures few { IfOk result (λ c. length c.steps ≤ MOST_STEPS) }
    ensures said { IfOk result (λ c. sentences_in c.steps ≤ STEP_LIMIT) }
    ensures repeats { IfOk result (λ c. c.repeat ≡ repeat) }
{
    let asks = steps_of(alloc, version, n, items)?;
    let code = Code::listed(alloc, asks.as_slice(), repeat)?;
    Ok(code)
}

// The program of thread n.
fn code_of(
    alloc: Global,
    version: Version,
    n: u32,
    repeat: u32,
    vars: [u64; 8],
    items: &[Value],
) -> Result<Code, Fault>
    requires thread { n ≤ 128 }
    requires steps { length items.now ≤ STEP_LIMIT }
    ensures exact { Gives (λ c. c) result (code version n repeat vars (items_view items.now)) }
    ensures few { IfOk result (λ c. length c.steps ≤ MOST_STEPS) }
    ensures said { IfOk result (λ c. sentences_in c.steps ≤ STEP_LIMIT) }
    ensures repeats { IfOk result (λ c. c.repeat ≡ repeat) }
{
    match version {
        Version::First => listed(alloc, version, n, repeat, items),
        Version::Second => listed(alloc, version, n, repeat, items),
        Version::Third => program_of(alloc, n, repeat, vars, items),
    }
}

// The thread after those.
#[tactic(auto, using(crate::proofs::Counts::items_counted), unfolding(crate::specs::Format::thread))]
fn thread(
    alloc: Global,
    version: Version,
    cpus: u8,
    before: &[ThreadSpec],
    value: &Value,
) -> Result<ThreadSpec, Fault>
    requires cpus { 0 < cpus }
    requires few { length before.now ≤ MACHINE_THREADS }
    ensures exact { Gives (λ t. t) result (thread version cpus before.now (view value.now)) }
    ensures within { IfOk result (λ t. IsThread cpus t × (threads_on t.cpu.0 before.now < THREAD_LIMIT)) }
{
    let place = 3000 + before.len() as u32;
    if !has_members(value, version.thread_members()) {
        return Err(Fault::Script { place });
    }
    let cpu = number_at(place, value, "cpu", 0, cpus as u64 - 1)? as u8;
    let repeat = number_at(place, value, "repeat", 1, MOST_REPEATS)? as u32;
    let Some(service) = service_in(version, value) else {
        return Err(Fault::Script { place });
    };
    let Some(vars) = vars_in(version, value) else {
        return Err(Fault::Script { place });
    };
    let items = list_at(place, value, "steps")?;
    if !has_room(before, cpu, items.len()) {
        return Err(Fault::Script { place });
    }
    let code = code_of(
        alloc,
        version,
        before.len() as u32,
        repeat,
        vars,
        items.as_slice(),
    )?;
    Ok(ThreadSpec {
        cpu: CpuId(cpu),
        service,
        code,
    })
}

/// The threads of a script with so many processors, each within the limits of the format; 33 with the place of the first bad
/// part, or 32.
pub fn threads_of(
    alloc: Global,
    version: Version,
    cpus: u8,
    items: &[Value],
) -> Result<Vec<ThreadSpec>, Fault>
    requires some { 0 < cpus }
    requires few { cpus ≤ CPU_LIMIT }
    ensures exact { Gives (λ v. v.items) result (each (thread version cpus) [] (items_view items.now)) }
    ensures within { IfOk result (λ v. All (IsThread cpus) v.items × ((cpu : ℕ) → threads_on cpu v.items ≤ THREAD_LIMIT)) }
{
    let mut threads = Vec::new(alloc);
    for item in items {
        let next = thread(alloc, version, cpus, threads.as_slice(), item)?;
        push(&mut threads, next)?;
    }
    Ok(threads)
}
