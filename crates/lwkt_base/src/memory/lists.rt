//! Lists that grow.
ghost use Rattle.std.specs.Prelude.{◌≡◌, ℕ, ◌+◌, ◌-◌, ◌<◌, ◌≤◌, List, [], ◌∷◌, ◌++◌, length, take, replicate, is_ok, if◌then◌else◌, IfOk, IsOk, OnOk, OnErr, vec_len, vec_capacity};
ghost use Rattle.std.specs.List.Sorted.{IsPermutation, IsSorted};
ghost use Rattle.std.specs.Iterator.{IsFinite};
ghost use Rattle.std.specs.Iterator.Runs.{WholeRun};

use super::{MOST_ROOM, OutOfMemory, refused};
use std::alloc::Global;

/// An empty list with room for so many elements.
#[inline(always)]
pub fn with_capacity<T>(alloc: Global, capacity: usize) -> Result<Vec<T>, OutOfMemory>
    requires { capacity ≤ MOST_ROOM }
    ensures items { IfOk result (λ v. v.items ≡ []) }
    ensures len { IfOk result (λ v. vec_len v ≡ 0) }
    ensures capacity { IfOk result (λ v. capacity ≤ vec_capacity v) }
    ensures exact { IfOk result (λ v. vec_capacity v ≡ capacity) }
    ensures succeeds { capacity ≡ 0 → IsOk result }
{
    match Vec::with_capacity(alloc, capacity) {
        Ok(list) => Ok(list),
        Err(_) => Err(refused()),
    }
}

/// An empty list with room for as many elements as another one has.
#[inline(always)]
pub fn with_capacity_for<T, S>(alloc: Global, like: &[S]) -> Result<Vec<T>, OutOfMemory>
    ensures items { IfOk result (λ v. v.items ≡ []) }
    ensures len { IfOk result (λ v. vec_len v ≡ 0) }
    ensures capacity { IfOk result (λ v. length like.now ≤ vec_capacity v) }
    ensures exact { IfOk result (λ v. vec_capacity v ≡ length like.now) }
    ensures succeeds { length like.now ≡ 0 → IsOk result }
{
    match Vec::with_capacity(alloc, like.len()) {
        Ok(list) => Ok(list),
        Err(_) => Err(refused()),
    }
}

/// A list with these elements, in memory of its own.
pub fn from_slice<T: Copy>(alloc: Global, items: &[T]) -> Result<Vec<T>, OutOfMemory>
    ensures items { IfOk result (λ v. v.items ≡ items.now) }
    ensures len { IfOk result (λ v. vec_len v ≡ length items.now) }
{
    match Vec::from_slice(alloc, items) {
        Ok(list) => Ok(list),
        Err(_) => Err(refused()),
    }
}

/// A list with the elements of an array. Where that is refused they are dropped.
pub fn from_array<T: Drop, const N: usize>(
    alloc: Global,
    items: [T; N],
) -> Result<Vec<T>, OutOfMemory>
    ensures { IfOk result (λ v. v.items ≡ items) }
{
    match Vec::from_array(alloc, items) {
        Ok(list) => Ok(list),
        Err(_) => Err(refused()),
    }
}

/// Appends an element. Where that is refused the list stays, and the element is dropped.
#[inline(always)]
pub fn push<T: Drop>(list: &mut Vec<T>, value: T) -> Result<(), OutOfMemory>
    ensures items { list.new.items ≡ (if is_ok result then list.old.items ++ value ∷ [] else list.old.items) }
    ensures len { vec_len list.new ≡ (if is_ok result then vec_len list.old + 1 else vec_len list.old) }
    ensures capacity { vec_capacity list.old ≤ vec_capacity list.new }
    ensures succeeds { vec_len list.old < vec_capacity list.old → IsOk result }
    ensures lower_bound { vec_len list.old ≤ vec_len list.new }
    ensures upper_bound { vec_len list.new ≤ vec_len list.old + 1 }
    ensures full { OnErr result (vec_capacity list.old ≤ vec_len list.old) }
{
    match list.push(value) {
        Ok(()) => Ok(()),
        Err(_) => Err(refused()),
    }
}

/// Makes room for so many elements more.
#[inline(always)]
pub fn reserve<T>(list: &mut Vec<T>, additional: usize) -> Result<(), OutOfMemory>
    requires { additional ≤ MOST_ROOM }
    ensures items { list.new.items ≡ list.old.items }
    ensures len { vec_len list.new ≡ vec_len list.old }
    ensures ok { OnOk result (vec_len list.new + additional ≤ vec_capacity list.new) }
    ensures capacity { vec_capacity list.old ≤ vec_capacity list.new }
    ensures succeeds { vec_len list.old + additional ≤ vec_capacity list.old → IsOk result }
    ensures full { OnErr result (vec_capacity list.old < vec_len list.old + additional) }
    ensures err { OnErr result (vec_capacity list.new ≡ vec_capacity list.old) }
{
    match list.reserve(additional) {
        Ok(()) => Ok(()),
        Err(_) => Err(refused()),
    }
}

/// Makes room for as many elements more as another list has.
#[inline(always)]
pub fn reserve_for<T, S>(list: &mut Vec<T>, like: &[S]) -> Result<(), OutOfMemory>
    ensures items { list.new.items ≡ list.old.items }
    ensures len { vec_len list.new ≡ vec_len list.old }
    ensures ok { OnOk result (vec_len list.new + length like.now ≤ vec_capacity list.new) }
    ensures capacity { vec_capacity list.old ≤ vec_capacity list.new }
    ensures succeeds { vec_len list.old + length like.now ≤ vec_capacity list.old → IsOk result }
    ensures full { OnErr result (vec_capacity list.old < vec_len list.old + length like.now) }
    ensures err { OnErr result (vec_capacity list.new ≡ vec_capacity list.old) }
{
    match list.reserve(like.len()) {
        Ok(()) => Ok(()),
        Err(_) => Err(refused()),
    }
}

/// Appends copies of these elements. Where that is refused the list stays.
#[inline(always)]
pub fn extend_from_slice<T: Copy>(list: &mut Vec<T>, other: &[T]) -> Result<(), OutOfMemory>
    ensures items { list.new.items ≡ (if is_ok result then list.old.items ++ other.now else list.old.items) }
    ensures len { vec_len list.new ≡ (if is_ok result then vec_len list.old + length other.now else vec_len list.old) }
    ensures capacity { vec_capacity list.old ≤ vec_capacity list.new }
    ensures succeeds { vec_len list.old + length other.now ≤ vec_capacity list.old → IsOk result }
    ensures full { OnErr result (vec_capacity list.old < vec_len list.old + length other.now) }
{
    match list.extend_from_slice(other) {
        Ok(()) => Ok(()),
        Err(_) => Err(refused()),
    }
}

/// Keeps the first `n` elements, and fills up to `n` with copies of a value. Where that is refused the list stays.
pub fn resize<T: Copy>(list: &mut Vec<T>, n: usize, value: T) -> Result<(), OutOfMemory>
    requires { n ≤ MOST_ROOM }
    ensures items { list.new.items ≡ (if is_ok result then take n list.old.items ++ replicate (n - vec_len list.old) value else list.old.items) }
    ensures len { vec_len list.new ≡ (if is_ok result then n else vec_len list.old) }
    ensures capacity { vec_capacity list.old ≤ vec_capacity list.new }
    ensures succeeds { n ≤ vec_capacity list.old → IsOk result }
    ensures full { OnErr result (vec_capacity list.old < n) }
{
    match list.resize(n, value) {
        Ok(()) => Ok(()),
        Err(_) => Err(refused()),
    }
}

/// A list of all that an iterator gives.
pub fn collect<I: Iterator>(alloc: Global, items: I) -> Result<Vec<I::Item>, OutOfMemory>
where
    I::Item: Drop,
    requires can { I.can_next items }
    requires finite { IsFinite (I.remaining items) }
    ensures runs { IfOk result (λ v. WholeRun I.next_gives items (λ p. (v.items ≡ p.items) × (vec_len v ≡ length p.items))) }
{
    match items.collect(alloc) {
        Ok(list) => Ok(list),
        Err(_) => Err(refused()),
    }
}

/// Puts the elements in order. Where memory for that is refused they stay.
pub fn sort<T: Ord>(list: &mut Vec<T>) -> Result<(), OutOfMemory>
    ensures permutation { IsPermutation list.old.items list.new.items }
    ensures len { vec_len list.new ≡ vec_len list.old }
    ensures sorted { OnOk result (IsSorted T.cmp list.new.items) }
    ensures err { OnErr result (list.new.items ≡ list.old.items) }
{
    match list.sort() {
        Ok(()) => Ok(()),
        Err(_) => Err(refused()),
    }
}
