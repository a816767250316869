// The shape of an accepted text.

ghost use Rattle.std.specs.Prelude.{◌≡◌, ◌%◌, ◌<◌, ◌≤◌, ◌^◌, length, slice_get, slice_index_or, IfSome, IfOk, Some, false};
ghost use Rattle.std.specs.List.{All};
ghost use Rattle.lg_node.specs.ShapeTables.{IsSmall, AreNumbers};
ghost use Rattle.std.specs.Option.{option_map};
ghost use Rattle.lg_node.specs.Functions.{function_of, frame_of};

use crate::function::Function;
use crate::ranges::Ranges;
use lg_base::OutOfMemory;
use lg_op::Label;
use std::alloc::Global;
use std::marker::Model;

// The bytes of a frame without locals: the words that every function has, and its outgoing stack arguments.
const LEAST_FRAME: u32 = 272;

/// The shape of an accepted text: its functions, with the frame of each, and the labels that are taken.
pub struct Shape {
    functions: Vec<Function>,
    numbers: Vec<Option<u32>>,
    taken: Vec<bool>,
}

impl Model for Shape {
    ghost use Rattle.lg_node.specs.Shapes.{TextShape};

    ghost Value = { TextShape };

    ghost use Rattle.lg_node.specs.ShapeTables.{view_of, IsShape};

    ghost view = { view_of };

    ghost invariant = { IsShape };
}

// Written out, and not derived, so that an owner's proof has one call in the place of the drops of all parts.
impl Drop for Shape {
    fn drop(self) {
        let Shape {
            functions: _functions,
            numbers: _numbers,
            taken: _taken,
        } = self;
    }
}

impl Shape {
    /// Returns the shape of these functions, where these labels are taken.
    pub(crate) fn from_ranges(ranges: Ranges, taken: Vec<bool>) -> Shape
        requires few { length ranges.functions.items < 2 ^ 32 }
        requires small { All IsSmall ranges.functions.items }
        requires numbers { AreNumbers ranges.functions.items ranges.numbers.items }
        ensures functions { result.functions ≡ ranges.functions.items }
        ensures taken { result.taken ≡ taken.items }
    {
        Shape {
            functions: ranges.functions,
            numbers: ranges.numbers,
            taken,
        }
    }

    /// Returns the list of the labels that are taken.
    pub(crate) fn clone_taken(&self, alloc: Global) -> Result<Vec<bool>, OutOfMemory>
        ensures { IfOk result (λ taken. taken.items ≡ self.now.taken) }
    {
        let taken = Vec::from_slice(alloc, &self.taken)?;
        Ok(taken)
    }

    /// The same shape, in memory of its own.
    pub fn copy(&self, alloc: Global) -> Result<Shape, OutOfMemory>
        ensures { IfOk result (λ s. s ≡ self.now) }
    {
        let functions = Vec::from_slice(alloc, &self.functions)?;
        let numbers = Vec::from_slice(alloc, &self.numbers)?;
        let taken = Vec::from_slice(alloc, &self.taken)?;
        Ok(Shape {
            functions,
            numbers,
            taken,
        })
    }

    /// Returns how many functions there are. They are numbered in the order of the text.
    pub fn functions(&self) -> u32
        ensures { result ≡ length self.now.functions }
    {
        self.functions.len() as u32
    }

    /// Returns the first node of a function, which is below `functions`.
    pub fn entry(&self, function: u32) -> u32
        requires { function < length self.now.functions }
        ensures { Some result ≡ option_map (λ f. f.entry) (slice_get self.now.functions function) }
    {
        self.functions[function as usize].entry
    }

    /// Returns the last node of a function, which is below `functions`.
    pub fn last(&self, function: u32) -> u32
        requires { function < length self.now.functions }
        ensures { Some result ≡ option_map (λ f. f.last) (slice_get self.now.functions function) }
    {
        self.functions[function as usize].last
    }

    /// Returns the bytes of a function's locals, a multiple of 8 of at most 65,536. The function is below `functions`.
    pub fn locals(&self, function: u32) -> u32
        requires { function < length self.now.functions }
        ensures value { Some result ≡ option_map (λ f. f.locals) (slice_get self.now.functions function) }
        ensures small { result ≤ 65536 }
        ensures words { result % 8 ≡ 0 }
    {
        self.functions[function as usize].locals
    }

    /// Returns the bytes of a function's frame, a multiple of 16 from 272 to 65,808. The function is below `functions`.
    pub fn frame(&self, function: u32) -> u32
        requires { function < length self.now.functions }
        ensures value { Some result ≡ option_map frame_of (slice_get self.now.functions function) }
        ensures least { 272 ≤ result }
        ensures most { result ≤ 65808 }
        ensures whole { result % 16 ≡ 0 }
    {
        (LEAST_FRAME + self.locals(function)).div_ceil(16) * 16
    }

    /// Returns the number of the function in which a node stands, and None exactly outside of each function.
    pub fn function_of(&self, node: u32) -> Option<u32>
        ensures value { result ≡ function_of self.now.functions node }
        ensures within { IfSome result (λ f. f < length self.now.functions) }
    {
        self.numbers.get(node as usize).copied().flatten()
    }

    /// Returns whether a label is taken: a `movi`, `pushargi` or `reti` of the text names it, and it was bound in a function after its `prolog`.
    pub fn taken(&self, label: Label) -> bool
        ensures { result ≡ slice_index_or self.now.taken label.0 false }
    {
        self.taken.get(label.0 as usize).copied().unwrap_or(false)
    }
}
