// The registers that are needed before each node.

ghost use Rattle.std.specs.Prelude.{IfOk};
ghost use Rattle.lg_node.specs.Shapes.{IsShapeOf};
ghost use Rattle.lg_live.specs.Needs.{AreNeeded};

use crate::definitions::Sought;
use crate::points::points_of;
use crate::reg_set::RegSet;
use crate::search::wanted;
use lg_base::OutOfMemory;
use lg_node::{NodeList, Shape};
use std::alloc::Global;

/// Of each node the registers that are needed before it: those whose words can reach a node that is no definition. Time goes by the number of nodes and
/// labels.
pub fn needs(alloc: Global, nodes: &NodeList, shape: &Shape) -> Result<Vec<RegSet>, OutOfMemory>
    requires { IsShapeOf nodes.now shape.now }
    ensures { IfOk result (λ sets. AreNeeded nodes.now shape.now sets.items) }
{
    let points = points_of(alloc, nodes, shape, Sought::Needed)?;
    let mut sets = wanted(alloc, &points, 2 * nodes.len() as usize)?;
    sets.truncate(points.len());
    Ok(sets)
}
