//! Whether the real machine stands as its plain machine does, after the turns of an order.
ghost use Rattle.std.specs.Prelude.{◌≡◌, ◌<◌, All, IfOk, IfErr, length};
ghost use Rattle.lwkt_plain.specs.Stores.{kept, IsStore};
ghost use Rattle.lwkt_run.specs.Run.{AreThere};
ghost use Rattle.lwkt_explore.specs.Outcomes.{RefusesSearch};

use lwkt_base::{Entry, Fault, MsgId, MsgState, MsgWord, OutOfMemory, Owner, ThreadState, TokId};
use lwkt_code::Local;
use lwkt_core::{Event, Message, State};
use lwkt_machine::{Machine, ScriptBody, Status};
use lwkt_plain::parts::Same;
use lwkt_plain::{Phase, Processor, Store, Thread};
use lwkt_script::Script;
use std::alloc::Global;

// The most tokens, and the most messages.
const LIMIT: u8 = 64;

// The real machine under way, and the state of the model that its events lead to.
#[derive(Drop)]
struct Mirror {
    machine: Machine<ScriptBody>,
    model: State,
    // whether each event could happen
    is_lawful: bool,
}

// Makes the events of a turn happen, up to the first that can't. Says whether each could.
fn step_all(model: &mut State, trace: &[Event]) -> bool {
    for event in trace {
        if model.step(event).is_err() {
            return false;
        }
    }
    true
}

impl Mirror {
    // The machine of a script as it is opened.
    fn open(alloc: Global, script: &Script) -> Result<Mirror, Fault>
        ensures cpus { IfOk result (λ mirror. length mirror.machine.cpus ≡ script.now.cpus) }
        ensures refused { IfErr result (λ fault. RefusesSearch script.now fault) }
    {
        let machine = Machine::open_script(alloc, script)?;
        let model = State::open(
            alloc,
            script.tokens.as_slice(),
            script.messages.as_slice(),
            usize::from(script.cpus),
        )?;
        Ok(Mirror {
            machine,
            model,
            is_lawful: true,
        })
    }

    // Makes the turn of a processor.
    fn turn(&mut self, cpu: usize, trace: &mut Vec<Event>) -> Result<(), OutOfMemory>
        requires { cpu < length self.old.machine.cpus }
        ensures as_many { length self.new.machine.cpus ≡ length self.old.machine.cpus }
    {
        trace.clear();
        self.machine.turn_into(cpu, trace)?;
        if !step_all(&mut self.model, trace.as_slice()) {
            self.is_lawful = false;
        }
        Ok(())
    }

    // Makes the turns of an order.
    fn go(&mut self, order: &[u8], trace: &mut Vec<Event>) -> Result<(), OutOfMemory>
        requires { All (λ cpu. cpu < length self.old.machine.cpus) order.now }
        ensures as_many { length self.new.machine.cpus ≡ length self.old.machine.cpus }
    {
        for cpu in order {
            self.turn(usize::from(*cpu), trace)?;
        }
        Ok(())
    }
}

// Whether the tokens of the model are those of a state.
fn has_tokens(model: &State, store: &Store, at: usize) -> bool
    requires store { IsStore store.now }
    requires there { at < length (kept store.now) }
{
    for number in 0..LIMIT {
        let is_same = match (
            model.token(TokId(number)),
            store.token(at, usize::from(number)),
        ) {
            (Some(token), Some(part)) => part.is_same(token),
            (None, None) => true,
            (Some(_), None) | (None, Some(_)) => false,
        };
        if !is_same {
            return false;
        }
    }
    true
}

// Whether a word shows who has a message in the model.
fn shows_owner(word: &MsgWord, owner: Owner) -> bool {
    match owner {
        Owner::Rest { origin } => word.state == MsgState::Rest && word.origin == origin,
        Owner::Out { origin, target } => word.state == MsgState::Out
            && word.origin == origin
            && word.target == target,
        Owner::With { origin, target } => word.state == MsgState::With
            && word.origin == origin
            && word.target == target,
        Owner::Back { origin, target } => word.state == MsgState::Back
            && word.origin == origin
            && word.target == target,
    }
}

// Whether a word shows a message of the model.
fn shows(word: &MsgWord, message: &Message) -> bool {
    word.round == message.round && shows_owner(word, message.owner)
}

// Whether the messages of the model are those of a state.
fn has_messages(model: &State, store: &Store, at: usize) -> bool
    requires store { IsStore store.now }
    requires there { at < length (kept store.now) }
{
    for number in 0..LIMIT {
        let is_same = match (
            model.message(MsgId(number)),
            store.letter(at, usize::from(number)),
        ) {
            (Some(message), Some(letter)) => shows(&letter.word, message),
            (None, None) => true,
            (Some(_), None) | (None, Some(_)) => false,
        };
        if !is_same {
            return false;
        }
    }
    true
}

// What the thread of a number is doing.
fn state_of(cpu: &Processor, number: usize, thread: &Thread) -> ThreadState {
    match thread.phase {
        Phase::Live if cpu.running == Some(number) => ThreadState::Running,
        Phase::Live => ThreadState::Ready,
        Phase::AwaitsItem | Phase::AwaitsReply(_) => ThreadState::Waiting,
        Phase::Exited => ThreadState::Exited,
        Phase::Faulted(fault) => ThreadState::Faulted(fault),
    }
}

// Whether a body stands where a thread does in its program, with the same variables and counts.
fn is_at(one: &Local, other: &Local) -> bool {
    one.at == other.at
        && one.left == other.left
        && one.asked == other.asked
        && one.vars == other.vars
        && one.counts == other.counts
}

// Whether two logs are the same.
fn is_same_log(one: &[Entry], other: &[Entry]) -> bool {
    one.len() == other.len() && one.iter().zip(other).all(|(a, b)| a.is_same(b))
}

// Whether a thread of the machine stands as one of a state.
fn stands_thread(
    machine: &Machine<ScriptBody>,
    c: usize,
    number: usize,
    cpu: &Processor,
    thread: &Thread,
) -> bool {
    let Some(Status { state, list }) = machine.thread(c, number) else {
        return false;
    };
    let Some(body) = machine.body(c, number) else {
        return false;
    };
    state == state_of(cpu, number, thread)
        && list == thread.list.refs()
        && is_at(body.local(), &thread.local)
        && is_same_log(body.log(), thread.log.as_slice())
}

// Whether the threads of a processor stand as those of a state.
fn stands_cpu(machine: &Machine<ScriptBody>, c: usize, cpu: &Processor) -> bool {
    let threads = cpu.threads.as_slice();
    for number in 0..threads.len() {
        if !stands_thread(machine, c, number, cpu, &threads[number]) {
            return false;
        }
    }
    true
}

// Whether all threads of the machine stand as those of a state.
fn has_threads(machine: &Machine<ScriptBody>, store: &Store, at: usize) -> bool
    requires store { IsStore store.now }
    requires there { at < length (kept store.now) }
{
    for c in 0..store.cpus() {
        if !stands_cpu(machine, c, store.processor(at, c)) {
            return false;
        }
    }
    true
}

/// Whether the real machine, made along an order, stands as the state of a number: its tokens, who has its messages, and what each thread
/// is doing, its references, where it stands in its program, and its log.
///
/// Refused with `Memory` if memory is.
pub(crate) fn stands_as(
    alloc: Global,
    script: &Script,
    order: &[u8],
    store: &Store,
    at: usize,
) -> Result<bool, Fault>
    requires order { AreThere script.now order.now }
    requires store { IsStore store.now }
    requires there { at < length (kept store.now) }
    ensures refused { IfErr result (λ fault. RefusesSearch script.now fault) }
{
    let mut mirror = Mirror::open(alloc, script)?;
    let mut trace = Vec::new(alloc);
    mirror.go(order, &mut trace)?;
    Ok(
        mirror.is_lawful
            && has_tokens(&mirror.model, store, at)
            && has_messages(&mirror.model, store, at)
            && has_threads(&mirror.machine, store, at),
    )
}
