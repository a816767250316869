// The points that jump to a point.

ghost use Rattle.std.specs.Prelude.{◌≡◌, ◌<◌, ◌≤◌, ℕ, Some, None, is_none, length, slice_index_or, IfOk};
ghost use Rattle.std.specs.List.{list_all};
ghost use Rattle.lg_live.specs.Graphs.{point_at, AreWithin};
ghost use Rattle.lg_live.specs.Chains.{IsLinked, AreChains};

use crate::point::{Point, jumps};
use lg_base::OutOfMemory;
use std::alloc::Global;

/// For each point the points that jump to it, from the last to the first. Where no point jumps the tables are empty.
#[derive(Drop)]
pub struct Chains {
    /// Of each point the last that jumps to it.
    pub last: Vec<Option<usize>>,
    /// Of each point that jumps the last before it that jumps to the same.
    pub earlier: Vec<Option<usize>>,
}

// Puts a point at the head of the chain of the point to which it jumps, and gives the head before it.
fn link(last: &mut [Option<usize>], to: Option<usize>, index: usize) -> Option<usize>
    ensures linked { (k : ℕ) → to ≡ Some k → k < length last.old → IsLinked last.old last.new result k index }
    ensures none { to ≡ None → last.new ≡ last.old }
{
    match to {
        Some(to) if to < last.len() => {
            let before = last[to];
            last[to] = Some(index);
            before
        }
        _ => None,
    }
}

// Returns whether no point jumps.
fn none_jumps(points: &[Point]) -> bool
    ensures { result ≡ list_all (λ p. is_none p.jumps) points.now }
{
    points.iter().all(|point| point.jumps.point().is_none())
}

/// Returns what a table has of a point.
pub fn entry(table: &[Option<usize>], index: usize) -> Option<usize>
    ensures { result ≡ slice_index_or table.now index None }
{
    table.get(index).copied().flatten()
}

// Returns the chains of these points, which are all below this number, point by point.
fn linked(alloc: Global, points: &[Point], count: usize) -> Result<Chains, OutOfMemory>
    requires { AreWithin points.now count }
    ensures { IfOk result (λ chains. AreChains points.now count chains) }
{
    let mut last = vec![in alloc; None; count]?;
    let mut earlier = Vec::with_capacity(alloc, points.len())?;
    for index in 0..points.len() {
        earlier.push(link(&mut last, jumps(points, index), index))?;
    }
    Ok(Chains { last, earlier })
}

impl Chains {
    /// Returns the chains of these points, which are all below this number.
    #[tactic(auto, using(crate::proofs::ChainLemmas::no_chains))]
    pub fn of(alloc: Global, points: &[Point], count: usize) -> Result<Chains, OutOfMemory>
        requires { AreWithin points.now count }
        ensures { IfOk result (λ chains. AreChains points.now count chains) }
    {
        if none_jumps(points) {
            return Ok(Chains {
                last: Vec::new(alloc),
                earlier: Vec::new(alloc),
            });
        }
        linked(alloc, points, count)
    }
}
