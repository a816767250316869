// What holds of the runs of rewritten nodes. The functions do nothing: their contracts are the laws.

ghost use Rattle.lg_opt.specs.Rewritings.{ThreadedNodesStay};
ghost use Rattle.lg_opt.specs.Runs.{DroppedTwiceAreDropped, DroppedAndThreadedAreFollowed};

/// Where nodes are dropped and then others, the run of the last nodes follows that of the first, and rests at all that were dropped.
pub fn dropped_nodes_join()
    ensures { DroppedTwiceAreDropped }
{}

/// Where nodes are dropped and then jumps are threaded, the run of the last nodes follows that of the first, and turns with it.
pub fn rewritten_nodes_are_followed()
    ensures { DroppedAndThreadedAreFollowed }
{}

/// Where jumps are threaded, nothing of a node changes but its target: its operation, its line and its other operands stay.
pub fn threaded_nodes_stay()
    ensures { ThreadedNodesStay }
{}
