//! What the code of every target shares: the calling conventions, the registers that a node's temporaries take, when
//! code agrees with the meaning of its text, and the induction that leads from single portable steps to whole runs.
#![tactic(auto)]

pub mod abi;
pub mod choice;
pub mod choosing;
pub mod laws;

ghost use Rattle.std.specs.Prelude.{◌≡◌, ℕ};
ghost use Rattle.lg_base.specs.Runs.{Machine, IsMachine, EndsSilently};
ghost use Rattle.lg_temp.specs.Agrees.{AgreesAt};
ghost use Rattle.lg_temp.specs.Carries.{Standing, Carries};
ghost use Rattle.lg_temp.specs.Paces.{KeepsPace, EndsAlike, StandingAlike, CarriesAlike};

pub use abi::{Abi, ArgPlace};
pub use choice::{Choice, Choices, Need, Needs, Staged};
pub use choosing::choose;

/// Two machines: each step of the first is carried to steps of the second, from states that
/// correspond to each other at a rank.
pub trait Simulation {
    /// A state of the portable machine.
    type Portable;

    /// A state of the processor.
    type Processor;

    /// The portable machine.
    ghost portable: { Machine Self.Portable };

    /// The processor.
    ghost processor: { Machine Self.Processor };

    /// Whether two states correspond to each other at a rank.
    ghost stands: { Self.Portable → Self.Processor → ℕ → Type 0 };

    /// The number of nodes, which bounds the ranks.
    ghost nodes: { ℕ };

    /// The portable machine is one.
    ghost portable_is: { IsMachine portable };

    /// A portable step that ends the run or is undefined writes nothing.
    ghost portable_silent: { EndsSilently portable };

    /// The processor is one.
    ghost processor_is: { IsMachine processor };

    /// States that correspond to each other run alike.
    ghost standing: { (p : Self.Portable) (q : Self.Processor) (rank : ℕ) → stands p q rank → Standing portable processor nodes p q rank };

    /// Each portable step from states that correspond to each other is carried.
    ghost carries: { (p : Self.Portable) (q : Self.Processor) (rank : ℕ) → stands p q rank → Carries portable processor stands p q rank };
}

/// From states that correspond to each other, the runs agree after any number of steps.
pub fn agree<S: Simulation>()
    ensures { (p : S.Portable) (q : S.Processor) (rank n : ℕ) → S.stands p q rank → AgreesAt S.portable S.processor S.nodes p q n }
{}

/// Two machines: each step of the first is carried to steps of the second, from states that correspond to each other to states
/// that are alike in what is asked of them.
pub trait PacedSimulation {
    /// A state of the portable machine.
    type Portable;

    /// A state of the processor.
    type Processor;

    /// The portable machine.
    ghost portable: { Machine Self.Portable };

    /// The processor.
    ghost processor: { Machine Self.Processor };

    /// Whether two states are alike, besides their status and their output.
    ghost alike: { Self.Portable → Self.Processor → Type 0 };

    /// Whether two states correspond to each other.
    ghost stands: { Self.Portable → Self.Processor → Type 0 };

    /// The portable machine is one.
    ghost portable_is: { IsMachine portable };

    /// The processor is one.
    ghost processor_is: { IsMachine processor };

    /// States that correspond to each other run, and are alike.
    ghost standing: { (p : Self.Portable) (q : Self.Processor) → stands p q → StandingAlike portable processor alike p q };

    /// Each portable step from states that correspond to each other is carried.
    ghost carries: { (p : Self.Portable) (q : Self.Processor) → stands p q → CarriesAlike portable processor alike stands p q };
}

/// From states that correspond to each other, the processor keeps pace.
pub fn keep_pace<S: PacedSimulation>()
    ensures { (p : S.Portable) (q : S.Processor) → S.stands p q → KeepsPace S.portable S.processor S.alike p q }
{}

/// Where runs agree after any number of steps and the processor keeps pace, both are alike where the processor has ended.
pub fn end_alike<S: PacedSimulation>()
    ensures { (nodes : ℕ) (p : S.Portable) (q : S.Processor) → ((n : ℕ) → AgreesAt S.portable S.processor nodes p q n)
        → KeepsPace S.portable S.processor S.alike p q → EndsAlike S.portable S.processor S.alike p q }
{}
