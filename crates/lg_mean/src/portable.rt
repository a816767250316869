// The portable machine with its text.

ghost use Rattle.std.specs.Prelude.{◌≡◌, ◌<◌, ◌≤◌, ◌-◌, ◌+◌, ◌^◌, ◌&&◌, ℕ, length, List, nat_le, slice_index_or, false, true, IsTrue, IfSome, IfNone, IfOk, Some, None, []};
ghost use Rattle.std.specs.Io.KnownBytes.{Appends};
ghost use Rattle.lg_base.specs.Arguments.{most_args};
ghost use Rattle.lg_node.specs.Labels.{place_of, is_entry};
ghost use Rattle.lg_node.specs.Shapes.{IsShapeOf};
ghost use Rattle.lg_meaning.specs.Fits.{Fits};
ghost use Rattle.lg_meaning.specs.Reasons.{why};
ghost use Rattle.lg_meaning.specs.Starts.{start_state, begins_at, entered_state, entry_after};
ghost use Rattle.lg_meaning.specs.States.{reg};
ghost use Rattle.lg_meaning.specs.Steps.{Goes, Undefined};
ghost use Rattle.lg_meaning.specs.Texts.{step, line_at};
ghost use Rattle.lg_mean.specs.LineCounts.{AreBelow, CountsStep, CountsSteps, begun, run_from};
ghost use Rattle.lg_mean.specs.Machines.{state_of};
ghost use Rattle.lg_mean.specs.Programs.{IsTableOf};
ghost use Rattle.lg_mean.specs.Results.{word_left};
ghost use Rattle.lg_mean.specs.Runs.{GoesFor};
ghost use Rattle.lg_mean.specs.Says.{Steps, KeepsCount};
ghost use Rattle.lg_mean.specs.Portables.{over_of, counts};
ghost use Rattle.lg_va.specs.Calls.{calling_stack};

use crate::entering::node_in;
use crate::labels::Labels;
use crate::machine::Machine;
use crate::mean_step::MeanStep;
use crate::program::Program;
use lg_base::{ArgImage, OutOfMemory};
use lg_io::Sink;
use lg_meaning::laws::{starts_fit, steps_keep_the_fit, texts_may_begin};
use lg_meaning::reason::Reason;
use lg_node::labels::is_entry;
use lg_node::laws::accepted_nodes_are_well_shaped;
use lg_node::{Label, LabelAddresses, Reg, Shape, Unit};
use std::alloc::Global;
use std::marker::Model;

/// The portable machine at a step of the run of a text.
pub struct Portable {
    machine: Machine,
    labels: Labels,
    over: Option<MeanStep>,
    steps: u64,
}

impl Model for Portable {
    ghost use Rattle.lg_mean.specs.Portables.{PortableState};

    ghost Value = { PortableState };

    ghost view = { λ p. record { machine = p.machine; labels = p.labels; over = p.over; steps = p.steps } };
}

// Written out, and not derived, so that an owner's proof has one call in the place of the drops of all parts.
impl Drop for Portable {
    fn drop(self) {
        let Portable {
            machine: _machine,
            labels: _labels,
            over: _,
            steps: _,
        } = self;
    }
}

impl Portable {
    /// Returns the state at the start of the run of an accepted text with its shape: the first node comes next, nothing is defined, and memory holds the data
    /// part and the argument part. There is an address for each label; the data part has at most 16,777,216 bytes and the argument part at most 1,048,576. It
    /// takes the memory of the whole run: the parts, room for 3,855 frames, tables of where words
    /// lead that are addresses of labels, and each node with its operands looked up.
    pub fn new(
        alloc: Global,
        unit: &Unit,
        shape: &Shape,
        labels: &LabelAddresses,
        args: &ArgImage,
    ) -> Result<Portable, OutOfMemory>
        requires shape { IsShapeOf unit.now.nodes shape.now }
        requires image { length unit.now.image ≤ 0x1000000 }
        requires labels { length labels.now ≡ length unit.now.nodes.words }
        requires args { length args.now ≤ most_args }
        ensures start { IfOk result (λ p. state_of p.machine ≡ start_state unit.now.image args.now) }
        ensures fits { IfOk result (λ p. Fits unit.now.nodes shape.now (state_of p.machine)) }
        ensures made { IfOk result (λ p. IsTableOf unit.now.nodes shape.now p.labels) }
        ensures addresses { IfOk result (λ p. p.labels.addresses ≡ labels.now) }
        ensures running { IfOk result (λ p. p.over ≡ None) }
        ensures steps { IfOk result (λ p. p.steps ≡ 0) }
    {
        starts_fit();
        texts_may_begin();
        let machine = Machine::new(alloc, unit.image.as_slice(), args.as_slice())?;
        let labels = Labels::of(alloc, &unit.nodes, shape, labels)?;
        Ok(Portable {
            machine,
            labels,
            over: None,
            steps: 0,
        })
    }

    /// Calls a function from outside: after it the state is that at the start of a run that begins at the `prolog` at which a label is bound, with these words
    /// as arguments. The data part, the argument part, the heap with its mark and the count of steps stay as the last run left them, whether it was over
    /// or not. The locals of all its frames are gone, no register is defined, and no answer is repeated. False exactly where there are more than 16 words or
    /// the label is not bound at a `prolog`, and then nothing changes. The machine was made by `new` for these nodes and this shape. It takes no memory.
    pub fn enter(&mut self, unit: &Unit, shape: &Shape, label: Label, words: &[u64]) -> bool
        requires made { IsTableOf unit.now.nodes shape.now self.old.labels }
        ensures done { result ≡ nat_le (length words.now) 16 && is_entry unit.now.nodes.nodes (place_of unit.now.nodes.places label) }
        ensures entered { IsTrue result → state_of self.new.machine ≡ entered_state (entry_after (state_of self.old.machine)
            (calling_stack (length words.now)) words.now) (begins_at unit.now.nodes (Some label)) }
        ensures fits { IsTrue result → Fits unit.now.nodes shape.now (state_of self.new.machine) }
        ensures running { IsTrue result → self.new.over ≡ None }
        ensures steps { self.new.steps ≡ self.old.steps }
        ensures labels { self.new.labels ≡ self.old.labels }
        ensures kept { result ≡ false → self.new ≡ self.old }
    {
        starts_fit();
        let place = unit.nodes.place_of(label);
        if words.len() > 16 || !is_entry(&unit.nodes, place) {
            return false;
        }
        self.machine.restart(node_in(place), words);
        self.over = None;
        let _ = self.machine.place();
        true
    }

    /// One step of the node that comes next. The state is one of a run of this text: it was made by `new` for these nodes and this
    /// shape, and fits them, as it does after the step. `Undefined` exactly where the definition `step` of lg_meaning leaves the step undefined, with the
    /// line of its node; `WriteFault` only where the count of faults of `out` rose, and then a part of the step's
    /// bytes may have been written, from the first one on. After an answer other than `Went` it returns the same and changes nothing.
    /// Fewer than 2^64 - 1 steps went or ended before.
    #[inline(always)]
    pub fn step<O: Sink>(&mut self, unit: &Unit, shape: &Shape, out: &mut O) -> MeanStep
        requires made { IsTableOf unit.now.nodes shape.now self.old.labels }
        requires fits { Fits unit.now.nodes shape.now (state_of self.old.machine) }
        requires count { self.old.steps < 2 ^ 64 - 1 }
        ensures again { IfSome self.old.over (λ answer. (result ≡ answer) × (self.new ≡ self.old) × Appends (O.taken out.old) (O.taken out.new) []
            × (O.faults out.new ≡ O.faults out.old)) }
        ensures says { IfNone self.old.over (Steps (step unit.now.nodes shape.now self.old.labels.addresses (state_of self.old.machine))
            (line_at unit.now.nodes (state_of self.old.machine)) (state_of self.old.machine) result (state_of self.new.machine) (O.taken out.old)
            (O.taken out.new) (O.faults out.old) (O.faults out.new)) }
        ensures fits { Fits unit.now.nodes shape.now (state_of self.new.machine) }
        ensures over { IfNone self.old.over (self.new.over ≡ over_of result) }
        ensures steps { IfNone self.old.over (self.new.steps ≡ self.old.steps + counts result) }
        ensures labels { self.new.labels ≡ self.old.labels }
        ensures later { O.faults out.old ≤ O.faults out.new }
        ensures kept { KeepsCount result (O.faults out.old) (O.faults out.new) }
    {
        if let Some(answer) = self.over {
            return answer;
        }
        self.go(unit, shape, out)
    }

    // Counts the step that comes next for the line of its node, where steps are counted.
    #[inline(always)]
    fn count_line(&self, unit: &Unit, ran: &mut [u64])
        requires here { (state_of self.now.machine).at < length unit.now.nodes.nodes }
        requires lines { 0 < length ran.old → AreBelow unit.now.nodes.nodes (length ran.old) }
        requires room { 0 < length ran.old → (line : ℕ) → slice_index_or ran.old line 0 < 2 ^ 64 - 1 }
        ensures kept { length ran.new ≡ length ran.old }
        ensures ran { CountsStep (line_at unit.now.nodes (state_of self.now.machine)) ran.old ran.new }
    {
        if !ran.is_empty() {
            let line = unit.nodes.node_at(self.machine.place()).line;
            ran[line as usize] += 1;
        }
    }

    // Takes back the count of a step that was begun and did not go.
    pub(crate) fn take_back(&self, unit: &Unit, ran: &mut [u64])
        requires here { (state_of self.now.machine).at < length unit.now.nodes.nodes }
        requires lines { 0 < length ran.old → AreBelow unit.now.nodes.nodes (length ran.old) }
        requires some { 0 < length ran.old → 0 < slice_index_or ran.old (line_at unit.now.nodes (state_of self.now.machine)) 0 }
        ensures kept { length ran.new ≡ length ran.old }
        ensures ran { CountsStep (line_at unit.now.nodes (state_of self.now.machine)) ran.new ran.old }
    {
        if !ran.is_empty() {
            let line = unit.nodes.node_at(self.machine.place()).line;
            ran[line as usize] -= 1;
        }
    }

    // A step of a machine that is not over, by the node with its operands looked up: whether it goes so. It writes nothing, and else nothing changes. It is not
    // yet among the steps that went.
    #[inline(always)]
    fn go_resolved(&mut self, unit: &Unit, shape: &Shape) -> bool
        requires made { IsTableOf unit.now.nodes shape.now self.old.labels }
        requires fits { Fits unit.now.nodes shape.now (state_of self.old.machine) }
        requires running { self.old.over ≡ None }
        ensures goes { result ≡ true
            → step unit.now.nodes shape.now self.old.labels.addresses (state_of self.old.machine) ≡ Goes (state_of self.new.machine) [] }
        ensures steps { self.new.steps ≡ self.old.steps }
        ensures stays { result ≡ false → state_of self.new.machine ≡ state_of self.old.machine }
        ensures fits { Fits unit.now.nodes shape.now (state_of self.new.machine) }
        ensures over { self.new.over ≡ None }
        ensures labels { self.new.labels ≡ self.old.labels }
    {
        accepted_nodes_are_well_shaped();
        steps_keep_the_fit();
        unit.nodes.what_holds();
        let _ = unit.nodes.node_at(self.machine.place());
        let node = self.labels.node(self.machine.place());
        self.machine.step_resolved(node)
    }

    // Takes steps by nodes with their operands looked up until one does not go so, and at most this many: returns how many went. Each step that it begins
    // counts for the line of its node, also the one that does not go; an empty slice counts nothing. It is one loop whatever sink the run writes to, and the
    // one place of a program where such nodes are stepped.
    #[inline(never)]
    pub(crate) fn run_resolved(
        &mut self,
        unit: &Unit,
        shape: &Shape,
        most: u64,
        ran: &mut [u64],
    ) -> u64
        requires made { IsTableOf unit.now.nodes shape.now self.old.labels }
        requires fits { Fits unit.now.nodes shape.now (state_of self.old.machine) }
        requires running { self.old.over ≡ None }
        requires count { self.old.steps + most < 2 ^ 64 }
        requires lines { 0 < length ran.old → AreBelow unit.now.nodes.nodes (length ran.old) }
        requires room { 0 < length ran.old → (line : ℕ) → slice_index_or ran.old line 0 + most < 2 ^ 64 }
        ensures few { result ≤ most }
        ensures goes { GoesFor (step unit.now.nodes shape.now self.old.labels.addresses) result (state_of self.old.machine) (state_of self.new.machine) }
        ensures steps { self.new.steps ≡ self.old.steps + result }
        ensures fits { Fits unit.now.nodes shape.now (state_of self.new.machine) }
        ensures over { self.new.over ≡ None }
        ensures labels { self.new.labels ≡ self.old.labels }
        ensures kept { length ran.new ≡ length ran.old }
        ensures ran { (bytes : List ℕ) → CountsSteps unit.now.nodes (run_from (step unit.now.nodes shape.now self.old.labels.addresses)
            (state_of self.old.machine) bytes) (begun result most) ran.old ran.new }
    {
        let mut left = most;
        while left > 0 {
            self.count_line(unit, ran);
            if !self.go_resolved(unit, shape) {
                break;
            }
            left -= 1;
        }
        self.steps += most - left;
        most - left
    }

    // One step of a machine that is not over: by the node with its operands looked up where that goes, else by the node.
    #[inline(always)]
    fn go<O: Sink>(&mut self, unit: &Unit, shape: &Shape, out: &mut O) -> MeanStep
        requires made { IsTableOf unit.now.nodes shape.now self.old.labels }
        requires fits { Fits unit.now.nodes shape.now (state_of self.old.machine) }
        requires count { self.old.steps < 2 ^ 64 - 1 }
        requires running { self.old.over ≡ None }
        ensures again { IfSome self.old.over (λ answer. (result ≡ answer) × (self.new ≡ self.old) × Appends (O.taken out.old) (O.taken out.new) []
            × (O.faults out.new ≡ O.faults out.old)) }
        ensures says { IfNone self.old.over (Steps (step unit.now.nodes shape.now self.old.labels.addresses (state_of self.old.machine))
            (line_at unit.now.nodes (state_of self.old.machine)) (state_of self.old.machine) result (state_of self.new.machine) (O.taken out.old)
            (O.taken out.new) (O.faults out.old) (O.faults out.new)) }
        ensures fits { Fits unit.now.nodes shape.now (state_of self.new.machine) }
        ensures over { IfNone self.old.over (self.new.over ≡ over_of result) }
        ensures steps { IfNone self.old.over (self.new.steps ≡ self.old.steps + counts result) }
        ensures labels { self.new.labels ≡ self.old.labels }
        ensures later { O.faults out.old ≤ O.faults out.new }
        ensures kept { KeepsCount result (O.faults out.old) (O.faults out.new) }
    {
        if self.run_resolved(unit, shape, 1, &mut []) == 1 {
            return MeanStep::Went;
        }
        self.step_by_node(unit, shape, out)
    }

    // One step by the node that comes next.
    #[inline(never)]
    pub(crate) fn step_by_node<O: Sink>(
        &mut self,
        unit: &Unit,
        shape: &Shape,
        out: &mut O,
    ) -> MeanStep
        requires made { IsTableOf unit.now.nodes shape.now self.old.labels }
        requires fits { Fits unit.now.nodes shape.now (state_of self.old.machine) }
        requires count { self.old.steps < 2 ^ 64 - 1 }
        ensures again { IfSome self.old.over (λ answer. (result ≡ answer) × (self.new ≡ self.old) × Appends (O.taken out.old) (O.taken out.new) []
            × (O.faults out.new ≡ O.faults out.old)) }
        ensures says { IfNone self.old.over (Steps (step unit.now.nodes shape.now self.old.labels.addresses (state_of self.old.machine))
            (line_at unit.now.nodes (state_of self.old.machine)) (state_of self.old.machine) result (state_of self.new.machine) (O.taken out.old)
            (O.taken out.new) (O.faults out.old) (O.faults out.new)) }
        ensures fits { Fits unit.now.nodes shape.now (state_of self.new.machine) }
        ensures over { IfNone self.old.over (self.new.over ≡ over_of result) }
        ensures steps { IfNone self.old.over (self.new.steps ≡ self.old.steps + counts result) }
        ensures labels { self.new.labels ≡ self.old.labels }
        ensures later { O.faults out.old ≤ O.faults out.new }
        ensures kept { KeepsCount result (O.faults out.old) (O.faults out.new) }
    {
        if let Some(answer) = self.over {
            return answer;
        }
        accepted_nodes_are_well_shaped();
        steps_keep_the_fit();
        unit.nodes.what_holds();
        let _ = self.machine.pushed();
        let node = unit.nodes.node_at(self.machine.place());
        let program = Program::new(&unit.nodes, shape, &self.labels);
        let answer = self.machine.step_node(node, &program, out);
        self.over = over_of(answer);
        self.steps += counts(answer);
        answer
    }

    /// Returns the node of the next step. `step` has answered nothing but `Went`.
    pub fn at(&self) -> u32
        requires { self.now.over ≡ None }
        ensures { result ≡ (state_of self.now.machine).at }
    {
        self.machine.place()
    }

    /// Why the next step is undefined, which it is: the first row of the table of undefined steps that holds of the state. The state is one of a
    /// run of this text, as for `step`.
    pub fn why(&self, unit: &Unit, shape: &Shape) -> Option<Reason>
        requires made { IsTableOf unit.now.nodes shape.now self.now.labels }
        requires fits { Fits unit.now.nodes shape.now (state_of self.now.machine) }
        requires undefined { step unit.now.nodes shape.now self.now.labels.addresses (state_of self.now.machine) ≡ Undefined }
        ensures { result ≡ why unit.now.nodes shape.now self.now.labels.addresses (state_of self.now.machine) }
    {
        accepted_nodes_are_well_shaped();
        unit.nodes.what_holds();
        let node = unit.nodes.node_at(self.machine.place());
        let program = Program::new(&unit.nodes, shape, &self.labels);
        self.machine.why(node, &program)
    }

    /// Returns the word that the function which was called from outside, or the entry, has returned: where the last step ended the run by a return from the first
    /// frame, the word of that return, if it has one. `None` after a return without a word and after an exit. Where the run is not over, it is the word with
    /// which the next step would end it so. The state is one of a run of this text, as for `step`.
    pub fn result(&self, unit: &Unit, shape: &Shape) -> Option<u64>
        requires made { IsTableOf unit.now.nodes shape.now self.now.labels }
        requires fits { Fits unit.now.nodes shape.now (state_of self.now.machine) }
        ensures { result ≡ word_left (step unit.now.nodes shape.now self.now.labels.addresses (state_of self.now.machine)) }
    {
        accepted_nodes_are_well_shaped();
        unit.nodes.what_holds();
        let node = unit.nodes.node_at(self.machine.place());
        let program = Program::new(&unit.nodes, shape, &self.labels);
        self.machine.word_of_return(node, &program)
    }

    /// Returns what a register holds, where it is defined.
    pub fn register(&self, register: Reg) -> Option<u64>
        ensures { result ≡ reg (state_of self.now.machine) register }
    {
        self.machine.reg(register)
    }

    /// Returns how many steps went or ended.
    pub fn steps(&self) -> u64
        ensures { result ≡ self.now.steps }
    {
        self.steps
    }
}

// Returns the answer that is repeated from now on.
fn over_of(answer: MeanStep) -> Option<MeanStep>
    ensures { result ≡ over_of answer }
{
    match answer {
        MeanStep::Went => None,
        MeanStep::Ended(status) => Some(MeanStep::Ended(status)),
        MeanStep::Undefined { line } => Some(MeanStep::Undefined { line }),
        MeanStep::WriteFault => Some(MeanStep::WriteFault),
    }
}

// Whether a step is counted.
fn counts(answer: MeanStep) -> u64
    ensures value { result ≡ counts answer }
    ensures bound { result < 2 }
{
    match answer {
        MeanStep::Went | MeanStep::Ended(_) => 1,
        MeanStep::Undefined { .. } | MeanStep::WriteFault => 0,
    }
}
