// The points of a search.

ghost use Rattle.std.specs.Prelude.{◌≡◌, ◌+◌, ℕ, true, Some, ◌&&◌};
ghost use Rattle.lg_op.specs.declared.operand.Reg.{Reg};
ghost use Rattle.lg_live.specs.RegSets.{has};
ghost use Rattle.lg_live.specs.Graphs.{point_at, any_register, passes};

use crate::link::Link;
use crate::reg_set::RegSet;
use crate::sets::{difference, meets, union};

/// What a point does, and where it leads.
#[derive(Clone, Copy)]
pub struct Point {
    /// The registers that it reads.
    pub reads: RegSet,
    /// The registers that it reads for those that it writes: only where one of these is required.
    pub feeds: RegSet,
    /// The registers that it writes.
    pub writes: RegSet,
    /// Whether it leads to the next point.
    pub falls: bool,
    /// Another point to which it leads.
    pub jumps: Link,
    /// A point that leads to it.
    pub joins: Link,
}

// What a point requires for these registers that are required after it.
fn wanted_for(point: &Point, set: RegSet) -> RegSet
    ensures { (r : Reg) → has result r ≡ (has point.now.feeds r && any_register (λ q. has set q && has point.now.writes q)) }
{
    if meets(set, point.writes) {
        point.feeds
    } else {
        RegSet::none()
    }
}

/// Returns the registers that are required before a point, where those of a set are after it. Those after the last point pass all.
pub fn passing(points: &[Point], index: usize, set: RegSet) -> RegSet
    ensures { (r : Reg) → has result r ≡ passes (point_at points.now index) (has set) r }
{
    match points.get(index) {
        Some(point) => union(difference(set, point.writes), wanted_for(point, set)),
        None => set,
    }
}

/// Returns the registers that a point reads.
pub fn reads(points: &[Point], index: usize) -> RegSet
    ensures { (r : Reg) → has result r ≡ has (point_at points.now index).reads r }
{
    match points.get(index) {
        Some(point) => point.reads,
        None => RegSet::none(),
    }
}

/// Returns whether a point leads to the next one.
pub fn falls(points: &[Point], index: usize) -> bool
    ensures { result ≡ (point_at points.now index).falls }
{
    match points.get(index) {
        Some(point) => point.falls,
        None => false,
    }
}

/// Returns the point to which a point jumps, if it does.
pub fn jumps(points: &[Point], index: usize) -> Option<usize>
    ensures { result ≡ (point_at points.now index).jumps }
{
    match points.get(index) {
        Some(point) => point.jumps.point(),
        None => None,
    }
}

/// Returns the point that joins a point, if there is one.
pub fn joins(points: &[Point], index: usize) -> Option<usize>
    ensures { result ≡ (point_at points.now index).joins }
{
    match points.get(index) {
        Some(point) => point.joins.point(),
        None => None,
    }
}

/// Returns the point before a point, where it leads there.
pub fn fallen(points: &[Point], to: usize) -> Option<usize>
    ensures arc { (i : ℕ) → result ≡ Some i → ((point_at points.now i).falls ≡ true) × (to ≡ i + 1) }
    ensures all { (i : ℕ) → (point_at points.now i).falls ≡ true → to ≡ i + 1 → result ≡ Some i }
{
    if to > 0 && falls(points, to - 1) {
        Some(to - 1)
    } else {
        None
    }
}
