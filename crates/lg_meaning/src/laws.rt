// What holds of the portable meaning, for the crates that hold its state and follow its runs. The functions do nothing: their
// contracts are the laws.

ghost use Rattle.lg_meaning.specs.Reaching.{StepsReachSuccessors, TakenLabelsAreSuccessors};
ghost use Rattle.lg_meaning.specs.Laws.{StartsFit, TextsMayBegin, StepsKeepFit, MeansFit, FramesAreOfFunctions, StepsGrow, MeansHoldParts, FitsOpensLocals, AccessesLieInOnePart, MeansAreMachines, StepsAreMeans, StepsAreUndefinedByTheTable, PlainAddressesAre};

use lg_node::laws::{accepted_nodes_are_well_shaped, accepted_nodes_have_functions};

/// The state at the start of a run fits the shape of each accepted text, whatever its data and its arguments are: of a run of the text, and of one that begins
/// at a function that is called from outside.
pub fn starts_fit()
    ensures { StartsFit }
{
    accepted_nodes_are_well_shaped();
    accepted_nodes_have_functions();
}

/// A run of a text may begin with its data and its arguments, with any stack pointer that has room for a frame.
pub fn texts_may_begin()
    ensures { TextsMayBegin }
{}

/// A step goes from a state that fits the shape of an accepted text to one that fits it, whatever the addresses of the labels are.
/// Its node has the operands of its operation, and the heap mark is in the heap, and does so after the step.
pub fn steps_keep_the_fit()
    ensures { StepsKeepFit }
{
    accepted_nodes_are_well_shaped();
    accepted_nodes_have_functions();
}

/// Each state of the portable meaning of an accepted text, whose nodes have the operands of their operations, fits the text's shape,
/// and its heap mark is in the heap.
pub fn states_of_the_meaning_fit()
    ensures { MeansFit }
{
    accepted_nodes_are_well_shaped();
    accepted_nodes_have_functions();
}

/// In a state that fits, the running frame is one of the function of the state's node: it has that function's size and locals after the `prolog`, and at the
/// `prolog` room for them.
pub fn running_frames_are_of_their_functions()
    ensures { FramesAreOfFunctions }
{
    accepted_nodes_are_well_shaped();
    accepted_nodes_have_functions();
}

/// A step takes no byte out of the data, the arguments and the heap, their sizes stay, and the heap mark never falls.
pub fn steps_take_nothing_out()
    ensures { StepsGrow }
{
    accepted_nodes_are_well_shaped();
}

/// The memory of each state of the portable meaning has bytes at exactly the addresses of the data part and of the argument part, as
/// far as the ranges of these parts go. The data part has at most 16,777,216 bytes, the argument part at most 1,048,576.
pub fn parts_are_held()
    ensures { MeansHoldParts }
{
    accepted_nodes_are_well_shaped();
    accepted_nodes_have_functions();
}

/// In a state that fits, only the locals of the frames are memory in the stack: no return address, saved register, home, spill slot or
/// word for an argument can be read or written by a text. Its data part has at most 16,777,216 bytes, its argument part at most
/// 1,048,576.
pub fn only_locals_are_open_in_the_stack()
    ensures { FitsOpensLocals }
{}

/// A load or a store of 1 to 8 bytes, each of which may be accessed, lies in one part, in a state that fits: no access goes from one part
/// over to another, whatever its address is a multiple of. The data part has at most 16,777,216 bytes, the argument part at most 1,048,576.
pub fn accesses_lie_in_one_part()
    ensures { AccessesLieInOnePart }
{}

/// Runs of the portable meaning are those of a machine: one that ended or became undefined stays, what is written stays written, and
/// a step that ends the run or is undefined writes nothing.
pub fn meanings_are_machines()
    ensures { MeansAreMachines }
{}

/// Where a run is after k steps and goes on, its next step leads to where it is after k + 1 steps.
pub fn steps_are_those_of_the_meaning()
    ensures { StepsAreMeans }
{}

/// Why a step is undefined: in a state that fits the shape of an accepted text, the step of its node is undefined exactly where a row of the
/// table of undefined steps holds, whatever the addresses of the labels are.
pub fn steps_are_undefined_by_the_table()
    ensures { StepsAreUndefinedByTheTable }
{}

/// 0x10000000 + 256 i for a label at node i and the byte's address for a data label are addresses of the labels of a text, over
/// code of at least 256 bytes for each node.
pub fn plain_addresses_are_addresses()
    ensures { PlainAddressesAre }
{}

/// A step of an accepted text that goes to a node, from one that is no return, goes to a successor of its node, or begins a function, where
/// no register is defined.
pub fn steps_reach_successors()
    ensures { StepsReachSuccessors }
{}

/// The taken labels of a function are successors of each `jmpr` in it.
pub fn taken_labels_are_successors()
    ensures { TakenLabelsAreSuccessors }
{}
