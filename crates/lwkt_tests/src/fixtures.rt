//! What the rows share.
ghost use Rattle.std.specs.Prelude.{◌≡◌, length, All, IfOk};
ghost use Rattle.lwkt_base.specs.Holding.{holds_nothing};
ghost use Rattle.lwkt_bank.specs.Closing.{IsReady};
ghost use Rattle.lwkt_bank.specs.Seats.{id_of, cpus_of, holding};

use lwkt_bank::{Bank, CpuSeat};
use lwkt_base::memory::from_slice;
use lwkt_base::{Cells, CpuId, Fault, Flags, Law, MsgSpec, OutOfMemory, ThreadId, TokSpec};
use lwkt_machine::{Closed, Machine, ScriptBody};
use lwkt_script::read_script;
use std::alloc::Global;

/// A message of thread 0.0.
pub const OWN: MsgSpec = MsgSpec {
    round: 0,
    origin: ThreadId {
        cpu: CpuId(0),
        thread: 0,
    },
};

/// Leave for nothing.
pub const NO_FLAGS: Flags = Flags {
    dropable: false,
    abortable: false,
    priority: false,
};

/// A token of one cell.
pub fn token(alloc: Global, law: Law, param: u64, cell: u64) -> Result<TokSpec, OutOfMemory> {
    let cells = Cells::from_vec(from_slice(alloc, &[cell])?);
    Ok(TokSpec {
        cells,
        law,
        param,
        generation: 0,
        blob: None,
    })
}

/// A bank of these tokens, with a seat for each of so many processors, which holds nothing and can be given back.
pub fn open_bank(
    alloc: Global,
    specs: &[TokSpec],
    cpus: usize,
) -> Result<(Bank, Vec<CpuSeat>), Fault>
    ensures ready { IfOk result (λ opened. All (IsReady (id_of opened.0)) opened.1.items) }
    ensures empty { IfOk result (λ opened. All (λ seat. holding seat ≡ holds_nothing) opened.1.items) }
    ensures all { IfOk result (λ opened. length opened.1.items ≡ cpus_of opened.0) }
{
    Bank::open(alloc, specs, cpus)
}

/// Whether all goes as it is written, or, where a call for memory was refused, does when it is made once more.
pub fn is_right(first: Result<bool, Fault>, again: Result<bool, Fault>) -> bool {
    match first {
        Err(Fault::Memory(_)) => again == Ok(true),
        other => other == Ok(true),
    }
}

/// What the machine of a script leaves after turns of these processors, in this order.
pub fn closed_by(alloc: Global, script: &[u8], order: &[u8]) -> Result<Closed<ScriptBody>, Fault> {
    let script = read_script(alloc, script)?;
    let mut machine = Machine::open_script(alloc, &script)?;
    for cpu in order {
        machine.turn(CpuId(*cpu))?;
    }
    Ok(machine.close(alloc)?)
}
