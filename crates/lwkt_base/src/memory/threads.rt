//! Calls on several threads, whose results are listed.
ghost use Rattle.std.specs.Prelude.{◌≡◌, ℕ, ◌<◌, length, vec_len, IfOk};
ghost use Rattle.std.specs.Fork.{GivesEach};

use super::{OutOfMemory, refused};
use std::alloc::Global;
use std::thread;
use std::thread::Threads;

/// Calls a function at each place of a list, each call on a thread of its own where one can be made, and lists the results.
pub fn map_places<R: Threads + Sync, S, X: Send + Drop, F: Fn(usize) -> X + Sync>(
    rt: &R,
    alloc: Global,
    like: &[S],
    f: &F,
) -> Result<Vec<X>, OutOfMemory>
    requires { (i : ℕ) → i < length like.now → F.pre f.now i }
    ensures len { IfOk result (λ v. vec_len v ≡ length like.now) }
    ensures each { IfOk result (λ v. GivesEach F.Fn f.now (length like.now) v.items) }
{
    match thread::map_indices(rt, alloc, like.len(), f) {
        Ok(results) => Ok(results),
        Err(_) => Err(refused()),
    }
}
