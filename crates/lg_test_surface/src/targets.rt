// lg_x86, lg_a64, lg_rv, what the targets ask for, and lg_cpu.

ghost use Rattle.std.specs.Prelude.{◌≡◌, ◌∷◌, []};
ghost use Rattle.lg_op.specs.declared.op.Op.TheVariants as op;
ghost use Rattle.lg_op.specs.declared.op.BinaryOp.TheVariants as binary;
ghost use Rattle.lg_op.specs.declared.op.LastOperand.TheVariants as last;
ghost use Rattle.lg_op.specs.declared.operand.Operand.TheVariants as operand;
ghost use Rattle.lg_op.specs.declared.operand.Reg.TheVariants as reg;

use lg_base::{ArgImage, CodeBytes, DataImage, OutOfMemory, Piece, Target};
use lg_buf::CodeBuf;
use lg_cpu::{Cpu, CpuStep};
use lg_io::MemorySink;
use lg_live::RegSet;
use lg_node::{BinaryOp, LastOperand, Node, Op, Operand, Operands, Reg};
use lg_temp::{Needs, Staged, choose};
use lg_va::home;
use std::alloc::Global;
use std::test::Fail;

// `ret` of x86-64, read and written.
fn is_x86_right() -> bool {
    let found: Option<(lg_x86::Instr, u32)> = lg_x86::decode(&[0xc3]);
    match found {
        Some((instr, length)) => {
            let piece: Piece = lg_x86::encode(&instr);
            piece.as_slice() == [0xc3].as_slice() && length == 1
        }
        None => false,
    }
}

// `add x0, x1, x2` of AArch64.
fn is_a64_right() -> bool {
    let found: Option<(lg_a64::Instr, u32)> = lg_a64::decode(&[0x20, 0x00, 0x02, 0x8b]);
    match found {
        Some((instr, length)) => {
            let piece: Piece = lg_a64::encode(&instr);
            piece.as_slice() == [0x20, 0x00, 0x02, 0x8b].as_slice() && length == 4
        }
        None => false,
    }
}

// `addi x5, x0, 1` of RV64.
fn is_rv_right() -> bool {
    let found: Option<(lg_rv::Instr, u32)> = lg_rv::decode(&[0x93, 0x02, 0x10, 0x00]);
    match found {
        Some((instr, length)) => {
            let piece: Piece = lg_rv::encode(&instr);
            piece.as_slice() == [0x93, 0x02, 0x10, 0x00].as_slice() && length == 4
        }
        None => false,
    }
}

// `addi %r0 %r0 1`.
fn added() -> Node
    ensures { result ≡ record {
      op = op.Binary binary.Add last.Immediate;
      operands = operand.Reg reg.R0 ∷ operand.Reg reg.R0 ∷ operand.Number 1 ∷ [];
      line = 1;
    } }
{
    let r0 = Operand::Reg(Reg::R0);
    Node {
        op: Op::Binary(BinaryOp::Add, LastOperand::Immediate),
        operands: Operands::of(&[r0, r0, Operand::Number(1)]),
        line: 1,
    }
}

// What the temporaries of a node that adds a number need on the targets.
fn are_needs_right(node: &Node) -> bool {
    let x86: Needs = lg_selx::needs(node);
    let a64: Needs = lg_sela::needs(node);
    let rv: Needs = lg_selr::needs(node);
    x86.as_slice().is_empty() && a64.as_slice().is_empty() && rv.as_slice().is_empty()
}

// Returns the places of arguments of a function that takes a variable number of them.
fn are_homes_right() -> bool {
    let first: i32 = home(Target::Riscv64, 0);
    let ninth: i32 = home(Target::Riscv64, 8);
    (first, ninth) == (-32, 16)
}

// Makes code of the node on x86-64.
fn is_x86_selected(alloc: Global) -> Result<bool, OutOfMemory> {
    let node = added();
    let live = RegSet::none();
    let staged = Staged::none();
    let choices = choose(Target::X86_64, &lg_selx::needs(&node), &node, live, staged);
    let mut buf = CodeBuf::new(alloc, 4096, 0, 1)?;
    let done: bool = lg_selx::select(&node, 272, &choices, live, staged, &mut buf);
    Ok(done && buf.here() > 0)
}

// The same on AArch64.
fn is_a64_selected(alloc: Global) -> Result<bool, OutOfMemory> {
    let node = added();
    let live = RegSet::none();
    let staged = Staged::none();
    let choices = choose(Target::Aarch64, &lg_sela::needs(&node), &node, live, staged);
    let mut buf = CodeBuf::new(alloc, 4096, 0, 1)?;
    let done: bool = lg_sela::select(&node, 272, &choices, live, staged, &mut buf);
    Ok(done && buf.here() > 0)
}

// The same on RV64.
fn is_rv_selected(alloc: Global) -> Result<bool, OutOfMemory> {
    let node = added();
    let live = RegSet::none();
    let staged = Staged::none();
    let choices = choose(Target::Riscv64, &lg_selr::needs(&node), &node, live, staged);
    let mut buf = CodeBuf::new(alloc, 4096, 0, 1)?;
    let done: bool = lg_selr::select(&node, 272, &choices, live, staged, &mut buf);
    Ok(done && buf.here() > 0)
}

// One step of a processor before its first.
fn is_step_right(cpu: &mut Cpu, out: &mut MemorySink) -> bool {
    if cpu.steps() > 1000 {
        return false;
    }
    let step: CpuStep = cpu.step(out);
    let place: (u64, u64) = (cpu.pc(), cpu.steps());
    step == CpuStep::Went && place == (0x1000_0004, 1)
}

// A processor at `addi x5, x0, 1`.
fn is_processor_right(alloc: Global) -> Result<bool, OutOfMemory> {
    let code = CodeBytes::of(alloc, &[0x93, 0x02, 0x10, 0x00])?;
    let image = DataImage::of(alloc, &[])?;
    let args = ArgImage::of(alloc, &[0; 16])?;
    let mut cpu: Cpu = Cpu::new(alloc, Target::Riscv64, &code, &image, &args, 9)?;
    let mut out = MemorySink::new(alloc, 0, &[])?;
    Ok(is_step_right(&mut cpu, &mut out))
}

#[test]
fn calls_the_targets_and_lg_cpu(rt: HostRuntime) -> Result<(), Fail> {
    assert!(rt; is_x86_right() && is_a64_right() && is_rv_right());
    assert!(rt; are_needs_right(&added()) && are_homes_right());
    assert!(rt;
        is_x86_selected(rt.alloc())? && is_a64_selected(rt.alloc())? && is_rv_selected(rt.alloc())?
    );
    assert!(rt; is_processor_right(rt.alloc())?);
    Ok(())
}
