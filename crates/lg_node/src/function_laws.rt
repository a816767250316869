// What holds of the functions of any list of nodes, accepted or refused. The functions here do nothing: their contracts are the laws.

ghost use Rattle.std.specs.Prelude.{◌≡◌, ◌↔◌, ℕ, ◌<◌, List, Some, length};
ghost use Rattle.std.specs.List.{Contains, AllPairs};
ghost use Rattle.lg_op.specs.declared.node.Node.{Node};
ghost use Rattle.lg_node.specs.declared.function.Function.{Function};
ghost use Rattle.lg_node.specs.Functions.{home, functions};
ghost use Rattle.lg_node.specs.FunctionRuns.{RunsTo, IsEndedRun};

/// A node is in the function of a `prolog` exactly where the function that begins there runs to the node.
pub fn homes_are_runs()
    ensures { (nodes : List Node) (i p : ℕ) → i < length nodes → (home nodes i ≡ Some p) ↔ RunsTo nodes p i }
{}

/// The functions of a list of nodes are exactly the runs from a `prolog` to an `epilog`.
pub fn functions_are_ended_runs()
    ensures { (nodes : List Node) (f : Function) → Contains (functions nodes) f ↔ IsEndedRun nodes f }
{}

/// The functions are in the order of their nodes: each ends before those after it begin.
pub fn functions_are_in_order()
    ensures { (nodes : List Node) → AllPairs (λ f g. f.last < g.entry) (functions nodes) }
{}
