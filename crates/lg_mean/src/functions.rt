// The functions of a text.

ghost use Rattle.std.specs.Prelude.{◌≡◌, ◌≤◌, IfSome};
ghost use Rattle.lg_meaning.specs.Steps.{function_here, begins};

use lg_node::{Function, Shape};

// Returns the function of a node.
pub(crate) fn function_here(shape: &Shape, node: u32) -> Option<Function>
    ensures value { result ≡ function_here shape.now.functions node }
    ensures small { IfSome result (λ f. f.locals ≤ 65536) }
{
    match shape.function_of(node) {
        Some(function) => Some(Function {
            entry: shape.entry(function),
            last: shape.last(function),
            locals: shape.locals(function),
        }),
        None => None,
    }
}

// Returns whether a function begins at a node.
pub(crate) fn begins(shape: &Shape, node: u32) -> bool
    ensures { result ≡ begins (function_here shape.now.functions node) node }
{
    match function_here(shape, node) {
        Some(function) => function.entry == node,
        None => false,
    }
}
