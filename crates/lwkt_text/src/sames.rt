// Whether two scripts are the same.
ghost use Rattle.std.specs.Prelude.{◌≡◌, IsTrue};

use crate::same_steps::same_steps;
use lwkt_base::blobs::are_same;
use lwkt_base::{MsgSpec, TokSpec};
use lwkt_script::{Code, Script, ThreadSpec};

// Whether two tokens are the same.
#[tactic(auto, using(crate::proofs::Equality::token_same))]
fn same_token(one: &TokSpec, other: &TokSpec) -> bool
    ensures { IsTrue result → one.now ≡ other.now }
{
    if one.cells.as_slice() != other.cells.as_slice() || !are_same(&one.blob, &other.blob) {
        return false;
    }
    one.law == other.law && one.param == other.param && one.generation == other.generation
}

fn same_tokens(ones: &[TokSpec], others: &[TokSpec]) -> bool
    ensures { IsTrue result → ones.now ≡ others.now }
{
    if ones.len() != others.len() {
        return false;
    }
    for i in 0..ones.len() {
        if !same_token(&ones[i], &others[i]) {
            return false;
        }
    }
    true
}

// Whether two programs are the same.
#[tactic(auto, using(crate::proofs::Equality::code_same))]
fn same_code(one: &Code, other: &Code) -> bool
    ensures { IsTrue result → one.now ≡ other.now }
{
    if !same_steps(one.steps(), other.steps()) {
        return false;
    }
    one.repeat() == other.repeat() && one.vars().as_slice() == other.vars().as_slice()
}

// Whether two threads are the same.
#[tactic(auto, using(crate::proofs::Equality::thread_same))]
fn same_thread(one: &ThreadSpec, other: &ThreadSpec) -> bool
    ensures { IsTrue result → one.now ≡ other.now }
{
    if !same_code(&one.code, &other.code) {
        return false;
    }
    one.cpu == other.cpu && one.service == other.service
}

fn same_threads(ones: &[ThreadSpec], others: &[ThreadSpec]) -> bool
    ensures { IsTrue result → ones.now ≡ others.now }
{
    if ones.len() != others.len() {
        return false;
    }
    for i in 0..ones.len() {
        if !same_thread(&ones[i], &others[i]) {
            return false;
        }
    }
    true
}

// Whether the numbers of two scripts are the same.
fn same_numbers(one: &Script, other: &Script) -> bool
    ensures { IsTrue result → (one.now.turns ≡ other.now.turns) × (one.now.idle ≡ other.now.idle) × (one.now.cpus ≡ other.now.cpus) }
{
    one.turns == other.turns && one.idle == other.idle && one.cpus == other.cpus
}

fn same_message(one: &MsgSpec, other: &MsgSpec) -> bool
    ensures { IsTrue result → one.now ≡ other.now }
{
    *one == *other
}

fn same_messages(ones: &[MsgSpec], others: &[MsgSpec]) -> bool
    ensures { IsTrue result → ones.now ≡ others.now }
{
    if ones.len() != others.len() {
        return false;
    }
    for i in 0..ones.len() {
        if !same_message(&ones[i], &others[i]) {
            return false;
        }
    }
    true
}

/// Whether two scripts are the same.
#[tactic(auto, using(crate::proofs::Equality::script_same))]
pub fn same_script(one: &Script, other: &Script) -> bool
    ensures { IsTrue result → one.now ≡ other.now }
{
    if !same_numbers(one, other) {
        return false;
    }
    if !same_messages(one.messages.as_slice(), other.messages.as_slice()) {
        return false;
    }
    same_tokens(one.tokens.as_slice(), other.tokens.as_slice())
        && same_threads(one.threads.as_slice(), other.threads.as_slice())
}
