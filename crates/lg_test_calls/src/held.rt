// Values that hold much, each of which is dropped by one call. What is dropped part by part is proved part by part, in every function that owns it and for each
// way out of it, which costs up to a minute a function.

ghost use Rattle.std.specs.Prelude.{IfOk};
ghost use Rattle.lg_mean.specs.Machines.{state_of};
ghost use Rattle.lg_mean.specs.Programs.{IsTableOf};
ghost use Rattle.lg_meaning.specs.Fits.{Fits};
ghost use Rattle.lg_node.specs.Shapes.{IsShapeOf};
ghost use Rattle.lg_tst.specs.Answers.{IsWhole};

use crate::disturbed::{ANYTHING, args_of, fit};
use lg_asm::Code;
use lg_base::Stop;
use lg_cpu::Cpu;
use lg_mean::Portable;
use lg_mean::addresses::plain_addresses;
use lg_node::{Shape, Unit};
use std::alloc::Global;

/// The unit of a text.
pub(crate) struct Parsed {
    pub(crate) unit: Unit,
}

impl Drop for Parsed {
    fn drop(self) {
        let Parsed { unit: _unit } = self;
    }
}

/// The shape of a unit.
pub(crate) struct Checked {
    pub(crate) shape: Shape,
}

impl Drop for Checked {
    fn drop(self) {
        let Checked { shape: _shape } = self;
    }
}

/// The code of a unit.
pub(crate) struct Assembled {
    pub(crate) code: Code,
}

impl Drop for Assembled {
    fn drop(self) {
        let Assembled { code: _code } = self;
    }
}

/// A processor.
pub(crate) struct Started {
    pub(crate) cpu: Cpu,
}

impl Drop for Started {
    fn drop(self) {
        let Started { cpu: _cpu } = self;
    }
}

/// A machine of the meaning.
pub(crate) struct Meant {
    pub(crate) machine: Portable,
}

impl Drop for Meant {
    fn drop(self) {
        let Meant { machine: _machine } = self;
    }
}

/// Returns a processor at the start of code over a unit, with words after the text's name. Code and data parts that do not fit the memory want memory.
pub(crate) fn start(
    alloc: Global,
    code: &Code,
    unit: &Unit,
    further: &str,
) -> Result<Started, Stop> {
    if !fit(code, unit) {
        return Err(Stop::OutOfMemory);
    }
    let args = args_of(alloc, further)?;
    let cpu = Cpu::new(
        alloc,
        code.target(),
        code.bytes(),
        &unit.image,
        &args,
        ANYTHING,
    )?;
    Ok(Started { cpu })
}

/// Returns a machine at the start of the meaning of a unit, over plain addresses of labels.
pub(crate) fn meaning_of(alloc: Global, unit: &Unit, shape: &Shape) -> Result<Meant, Stop>
    requires shape { IsShapeOf unit.now.nodes shape.now }
    requires whole { IsWhole unit.now }
    ensures made { IfOk result (λ m. IsTableOf unit.now.nodes shape.now m.machine.labels) }
    ensures fits { IfOk result (λ m. Fits unit.now.nodes shape.now (state_of m.machine.machine)) }
{
    let labels = plain_addresses(alloc, &unit.nodes)?;
    if labels.len() != unit.nodes.labels() {
        return Err(Stop::OutOfMemory);
    }
    let args = args_of(alloc, "")?;
    let machine = Portable::new(alloc, unit, shape, &labels, &args)?;
    Ok(Meant { machine })
}
