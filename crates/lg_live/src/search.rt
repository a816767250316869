// The search for the registers that are required at each point.

ghost use Rattle.std.specs.Prelude.{◌≡◌, ◌<◌, ◌≤◌, ◌+◌, ℕ, length, slice_get, Some, true, false, [], OnOk, IfOk, Ok};
ghost use Rattle.lg_op.specs.declared.operand.Reg.{Reg};
ghost use Rattle.lg_live.specs.RegSets.{has};
ghost use Rattle.lg_live.specs.Chains.{AreChains};
ghost use Rattle.lg_live.specs.Graphs.{point_at, passes, set_at, IsArc, IsWanted, AreWithin, AreWanted};
ghost use Rattle.lg_live.specs.Searches.{state_of, Grows, IsSound, AreWantedAt, StaysSound, HasPassed, HasSpread, IsUnmet, IsSwept, IsSearching};

use crate::chains::{Chains, entry};
use crate::point::{Point, fallen, falls, joins, jumps, passing, reads};
use crate::reg_set::RegSet;
use crate::sets::union;
use lg_base::OutOfMemory;
use std::alloc::Global;

/// The sets found so far, and the points whose sets grew, in that order.
#[derive(Drop)]
pub struct Search {
    /// Of each point the registers that were found to be required there.
    pub sets: Vec<RegSet>,
    /// The points whose sets grew.
    pub queue: Vec<usize>,
}

// Adds registers to the set of a point.
fn raise(search: &mut Search, point: usize, more: RegSet) -> Result<(), OutOfMemory>
    requires within { point < length search.old.sets.items }
    ensures grows { OnOk result (Grows (state_of search.old) (state_of search.new)) }
    ensures passed { OnOk result ((r : Reg) → has more r ≡ true → has (set_at search.new.sets.items point) r ≡ true) }
    ensures sound { (points : _) → OnOk result (StaysSound points more point (state_of search.old) (state_of search.new)) }
{
    let old = search.sets[point];
    let new = union(old, more);
    if new != old {
        search.sets[point] = new;
        search.queue.push(point)?;
    }
    Ok(())
}

// Adds registers to the set of a point that leads to another, but for those that it writes.
fn pass(
    points: &[Point],
    search: &mut Search,
    from: usize,
    to: usize,
    set: RegSet,
) -> Result<(), OutOfMemory>
    requires within { from < length search.old.sets.items }
    requires arc { IsArc points.now from to }
    requires wanted { AreWantedAt points.now set to }
    requires sound { IsSound points.now (state_of search.old) }
    ensures grows { OnOk result (Grows (state_of search.old) (state_of search.new)) }
    ensures passed { OnOk result (HasPassed points.now set (state_of search.new) from) }
    ensures sound { OnOk result (IsSound points.now (state_of search.new)) }
{
    raise(search, from, passing(points, from, set))
}

// Passes the registers of a point on to those that jump to it, along their chain.
fn pass_to_jumps(
    points: &[Point],
    chains: &Chains,
    search: &mut Search,
    to: usize,
    set: RegSet,
) -> Result<(), OutOfMemory>
    requires chains { AreChains points.now (length search.old.sets.items) chains.now }
    requires within { AreWithin points.now (length search.old.sets.items) }
    requires point { to < length search.old.sets.items }
    requires wanted { AreWantedAt points.now set to }
    requires sound { IsSound points.now (state_of search.old) }
    ensures grows { OnOk result (Grows (state_of search.old) (state_of search.new)) }
    ensures passed { OnOk result ((i : ℕ) → (point_at points.now i).jumps ≡ Some to → HasPassed points.now set (state_of search.new) i) }
    ensures sound { OnOk result (IsSound points.now (state_of search.new)) }
{
    let mut next = entry(&chains.last, to);
    while let Some(from) = next {
        pass(points, search, from, to, set)?;
        next = entry(&chains.earlier, from);
    }
    Ok(())
}

// Passes the registers of a point on to one that leads to it, if there is one.
fn pass_to(
    points: &[Point],
    search: &mut Search,
    from: Option<usize>,
    to: usize,
    set: RegSet,
) -> Result<(), OutOfMemory>
    requires within { AreWithin points.now (length search.old.sets.items) }
    requires point { to < length search.old.sets.items }
    requires arc { (i : ℕ) → from ≡ Some i → IsArc points.now i to }
    requires wanted { AreWantedAt points.now set to }
    requires sound { IsSound points.now (state_of search.old) }
    ensures grows { OnOk result (Grows (state_of search.old) (state_of search.new)) }
    ensures passed { OnOk result ((i : ℕ) → from ≡ Some i → HasPassed points.now set (state_of search.new) i) }
    ensures sound { OnOk result (IsSound points.now (state_of search.new)) }
{
    match from {
        Some(from) => pass(points, search, from, to, set),
        None => Ok(()),
    }
}

// Passes the registers of a point on to those that lead to it.
fn spread(
    points: &[Point],
    chains: &Chains,
    search: &mut Search,
    to: usize,
) -> Result<(), OutOfMemory>
    requires chains { AreChains points.now (length search.old.sets.items) chains.now }
    requires within { AreWithin points.now (length search.old.sets.items) }
    requires point { to < length search.old.sets.items }
    requires sound { IsSound points.now (state_of search.old) }
    ensures grows { OnOk result (Grows (state_of search.old) (state_of search.new)) }
    ensures spread { OnOk result (HasSpread points.now to (set_at search.old.sets.items to) (state_of search.new)) }
    ensures sound { OnOk result (IsSound points.now (state_of search.new)) }
{
    let set = search.sets[to];
    pass_to(points, search, joins(points, to), to, set)?;
    pass_to(points, search, fallen(points, to), to, set)?;
    pass_to_jumps(points, chains, search, to, set)
}

// What a point that falls to the next wants by that.
fn wanted_by_fall(points: &[Point], sets: &[RegSet], index: usize) -> RegSet
    requires within { AreWithin points.now (length sets.now) }
    ensures passed { (point_at points.now index).falls ≡ true → (r : Reg)
        → passes (point_at points.now index) (has (set_at sets.now (index + 1))) r ≡ true → has result r ≡ true }
    ensures sound { IsSound points.now (record { sets = sets.now; queue = [] }) → AreWantedAt points.now result index }
{
    if falls(points, index) {
        passing(points, index, sets[index + 1])
    } else {
        RegSet::none()
    }
}

// What a point that jumps wants by that.
fn wanted_by_jump(points: &[Point], sets: &[RegSet], index: usize) -> RegSet
    requires within { AreWithin points.now (length sets.now) }
    ensures passed { (k : ℕ) → (point_at points.now index).jumps ≡ Some k → (r : Reg)
        → passes (point_at points.now index) (has (set_at sets.now k)) r ≡ true → has result r ≡ true }
    ensures sound { IsSound points.now (record { sets = sets.now; queue = [] }) → AreWantedAt points.now result index }
{
    match jumps(points, index) {
        Some(target) => passing(points, index, sets[target]),
        None => RegSet::none(),
    }
}

// Returns whether a gate leads to a point, or one from it on jumps to it.
fn is_met(points: &[Point], chains: &Chains, index: usize) -> bool
    requires { (count : ℕ) × AreChains points.now count chains.now × (index < count) }
    ensures { result ≡ false → IsUnmet points.now index }
{
    match joins(points, index) {
        Some(_) => true,
        None => match entry(&chains.last, index) {
            Some(from) => index <= from,
            None => false,
        },
    }
}

// Finds what is required at a point, by those after it; and queues it where others may want that.
fn settle(
    points: &[Point],
    chains: &Chains,
    search: &mut Search,
    index: usize,
) -> Result<(), OutOfMemory>
    requires point { index < length points.now }
    requires within { AreWithin points.now (length search.old.sets.items) }
    requires chains { AreChains points.now (length search.old.sets.items) chains.now }
    requires swept { IsSwept points.now (length search.old.sets.items) (index + 1) (state_of search.old) }
    ensures { OnOk result (IsSwept points.now (length search.old.sets.items) index (state_of search.new)) }
{
    let fall = wanted_by_fall(points, &search.sets, index);
    let jump = wanted_by_jump(points, &search.sets, index);
    let set = union(reads(points, index), union(fall, jump));
    search.sets[index] = set;
    if is_met(points, chains, index) {
        search.queue.push(index)?;
    }
    Ok(())
}

// Returns the search that has gone over all points once, from the last to the first.
fn swept(
    alloc: Global,
    points: &[Point],
    chains: &Chains,
    count: usize,
) -> Result<Search, OutOfMemory>
    requires within { AreWithin points.now count }
    requires chains { AreChains points.now count chains.now }
    ensures { IfOk result (λ search. IsSearching points.now count 0 (state_of search)) }
{
    let sets = vec![in alloc; RegSet::none(); count]?;
    let mut search = Search {
        sets,
        queue: Vec::new(alloc),
    };
    for done in 0..points.len() {
        settle(points, chains, &mut search, points.len() - 1 - done)?;
    }
    Ok(search)
}

/// Returns the registers that are required at each of n points.
pub fn wanted(alloc: Global, points: &[Point], count: usize) -> Result<Vec<RegSet>, OutOfMemory>
    requires { AreWithin points.now count }
    ensures { IfOk result (λ sets. AreWanted points.now count sets.items) }
{
    let chains = Chains::of(alloc, points, count)?;
    let mut search = swept(alloc, points, &chains, count)?;
    let mut from = 0;
    while from < search.queue.len() {
        let point = search.queue[from];
        spread(points, &chains, &mut search, point)?;
        from += 1;
    }
    Ok(search.sets)
}
