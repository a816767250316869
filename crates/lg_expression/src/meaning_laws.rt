// What holds of the nodes of every expression, and of locals. The functions do nothing: their contracts are the laws.

ghost use Rattle.lg_expression.specs.Meanings.{LocalsLieInTheFrame, NodesWorkExpressionsOut};

/// The nodes of steps work the steps out: from a state in which a stack stands and the argument is in V1, their portable meaning reaches the state after
/// them, in which the stack stands that the steps leave, wherever they have a value. So after those of an expression its value is in V0.
pub fn nodes_work_expressions_out()
    ensures { NodesWorkExpressionsOut }
{}

/// The bytes of a local lie in its frame: where a function has locals of some bytes, and another of this many after them, each byte from the offset on that
/// `Locals::next` gives for that one is among the locals of the function's frame, which code may load and store.
pub fn locals_lie_in_the_frame()
    ensures { LocalsLieInTheFrame }
{}
