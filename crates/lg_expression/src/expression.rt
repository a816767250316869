// Expressions as steps.

ghost use Rattle.std.specs.Prelude.{◌≡◌, ◌≢◌, ◌≤◌, None, IfSome};
ghost use Rattle.lg_expression.specs.Steps.{IsExpression, behind, finds, is_whole};

use crate::step::Step;
use std::marker::Model;

// The most values that are on the stack.
const MOST_VALUES: u32 = 32;

// The most steps.
const MOST_STEPS: usize = 4_096;

/// An expression, as the steps that work it out. By its type each step finds the values that it takes, at most 32 values are on the stack at once, one is
/// left, and there are at most 4,096 steps.
#[derive(Drop)]
pub struct Expression {
    steps: Vec<Step>,
}

impl Model for Expression {
    ghost use Rattle.std.specs.Prelude.{List};
    ghost use Rattle.lg_expression.specs.Steps.{IsExpression};
    ghost use Rattle.lg_expression.specs.declared.step.Step.{Step};

    ghost Value = { List Step };

    ghost view = { λ e. e.steps.items };

    ghost invariant = { λ e. IsExpression e.steps.items };
}

// Returns whether a step finds the values that it takes, and room for the one that it leaves, where this many values are on the stack.
fn finds(values: u32, step: Step) -> bool
    ensures { result ≡ finds values step }
{
    match step {
        Step::Number(_) | Step::Argument => values < MOST_VALUES,
        Step::Negate => values >= 1,
        Step::Operation(_) => values >= 2,
    }
}

/// Returns how many values are on the stack after a step that finds what it takes.
pub(crate) fn behind(values: u32, step: Step) -> u32
    requires { values ≤ 32 }
    ensures { result ≡ behind values step }
{
    match step {
        Step::Number(_) | Step::Argument => values + 1,
        Step::Negate => values,
        Step::Operation(_) => values.saturating_sub(1),
    }
}

// Returns whether steps are those of an expression.
fn is_whole(steps: &[Step]) -> bool
    ensures { result ≡ is_whole 0 steps.now }
{
    let mut values = 0u32;
    for step in steps {
        if !finds(values, *step) {
            return false;
        }
        values = behind(values, *step);
    }
    values == 1
}

impl Expression {
    /// Returns the expression of these steps, or `None` if they are not those of one.
    pub fn of(steps: Vec<Step>) -> Option<Expression>
        ensures some { IfSome result (λ e. e ≡ steps.items) }
        ensures none { IsExpression steps.items → result ≢ None }
    {
        if steps.len() > MOST_STEPS || !is_whole(&steps) {
            return None;
        }
        Some(Expression { steps })
    }

    /// Returns the steps, in order.
    pub fn steps(&self) -> &[Step]
        ensures value { result.now ≡ self.now }
        ensures steps { IsExpression self.now }
    {
        &self.steps
    }
}
