// The registers that are live before and after each node.

ghost use Rattle.std.specs.Prelude.{◌≡◌, ◌↔◌, ◌<◌, ◌≤◌, true, Some, length, slice_get, IfOk};
ghost use Rattle.lg_op.specs.declared.operand.Reg.{Reg};
ghost use Rattle.lg_live.specs.RegSets.{has};
ghost use Rattle.lg_node.specs.Shapes.{IsShapeOf};
ghost use Rattle.lg_live.specs.Graphs.{AreWithin, AreWanted, IsWantedAfter};
ghost use Rattle.lg_live.specs.Liveness.{AreLive};

use crate::definitions::Sought;
use crate::point::{Point, falls, jumps};
use crate::points::points_of;
use crate::reg_set::RegSet;
use crate::search::wanted;
use crate::sets::union;
use lg_base::OutOfMemory;
use lg_node::{NodeList, Shape};
use std::alloc::Global;
use std::marker::Model;

/// Which registers are live before and after each node of a text.
pub struct Live {
    before: Vec<RegSet>,
    after: Vec<RegSet>,
}

impl Model for Live {
    ghost use Rattle.lg_live.specs.Liveness.{LiveSets};

    ghost Value = { LiveSets };

    ghost view = { λ live. record { before = live.before.items; behind = live.after.items } };
}

// Written out, and not derived, so that an owner's proof has one call in the place of the drops of all parts.
impl Drop for Live {
    fn drop(self) {
        let Live {
            before: _before,
            after: _after,
        } = self;
    }
}

// Returns the registers that are required at the points to which a point falls or jumps.
fn behind(points: &[Point], sets: &[RegSet], index: usize) -> RegSet
    requires point { index < length points.now }
    requires within { AreWithin points.now (length sets.now) }
    requires wanted { AreWanted points.now (length sets.now) sets.now }
    ensures { (r : Reg) → (has result r ≡ true) ↔ IsWantedAfter points.now r index }
{
    let next = if falls(points, index) {
        sets[index + 1]
    } else {
        RegSet::none()
    };
    match jumps(points, index) {
        Some(target) => union(next, sets[target]),
        None => next,
    }
}

impl Live {
    /// Returns the registers that are live in nodes of this shape.
    pub fn of(alloc: Global, nodes: &NodeList, shape: &Shape) -> Result<Live, OutOfMemory>
        requires { IsShapeOf nodes.now shape.now }
        ensures { IfOk result (λ live. AreLive nodes.now shape.now live) }
    {
        let points = points_of(alloc, nodes, shape, Sought::Live)?;
        let mut before = wanted(alloc, &points, 2 * nodes.len() as usize)?;
        let mut after = Vec::with_capacity(alloc, points.len())?;
        for index in 0..points.len() {
            after.push(behind(&points, &before, index))?;
        }
        before.truncate(points.len());
        Ok(Live { before, after })
    }

    /// Returns the registers that are live before a node, which is below the number of nodes.
    pub fn before(&self, index: u32) -> RegSet
        requires { index < length self.now.before }
        ensures { Some result ≡ slice_get self.now.before index }
    {
        self.before[index as usize]
    }

    /// Returns the registers that are live after a node, which is below the number of nodes.
    pub fn after(&self, index: u32) -> RegSet
        requires { index < length self.now.behind }
        ensures { Some result ≡ slice_get self.now.behind index }
    {
        self.after[index as usize]
    }
}
