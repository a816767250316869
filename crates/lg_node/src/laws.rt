// What holds of every accepted text, for the crates that rewrite, assemble and run it. The functions do nothing: their
// contracts are the laws.

ghost use Rattle.lg_node.specs.Nodes.{LabelledNodes};
ghost use Rattle.lg_node.specs.Checks.{IsAccepted};
ghost use Rattle.lg_node.specs.ShapeLaws.{IsWellShaped, HasFunctions, SuccessorsStay, SuccessorsEnter, TakenLabelsAreInside, RefusalsAreOne};

/// The nodes of an accepted text: where functions begin and go on, where jumps, branches and calls lead, how calls are
/// prepared, and the limits of functions and calls.
pub fn accepted_nodes_are_well_shaped()
    ensures { (l : LabelledNodes) → IsAccepted l → IsWellShaped l }
{}

/// The functions of an accepted text are ranges of nodes, and each node has the number of its function.
pub fn accepted_nodes_have_functions()
    ensures { (l : LabelledNodes) → IsAccepted l → HasFunctions l }
{}

/// The successors of a node of a function are nodes of the same function, after its `prolog`.
pub fn successors_stay()
    ensures { SuccessorsStay }
{}

/// The successors of a node outside of every function are such nodes too, or begin a function.
pub fn successors_enter()
    ensures { SuccessorsEnter }
{}

/// A label that is taken in a text is bound in a function after its `prolog`.
pub fn taken_labels_are_inside()
    ensures { TakenLabelsAreInside }
{}

/// No text is both accepted and refused, or refused for two reasons.
pub fn refusals_are_one()
    ensures { RefusalsAreOne }
{}
