// The arguments of the command, each with its rule.

ghost use Rattle.std.specs.Prelude.{◌≡◌, IfOk, false};
ghost use Rattle.clap.specs.Words.{app_of, rule_of, with_rule};
ghost use Rattle.lg_command.specs.Rules.{app, mode_rule, target_rule, steps_rule, code_rule, seed_rule, stats_rule, file_rule, rest_rule};

use clap::{Arg, ArgAction, Command, value_parser};
use std::alloc::{AllocError, Global};

fn mode_argument<'a>(alloc: Global) -> Arg<'a>
    ensures rule { rule_of result ≡ mode_rule }
    ensures local { result.global ≡ false }
{
    Arg::new(alloc, "mode")
        .long("mode")
        .action(ArgAction::Set)
        .default_value("run")
}

fn target_argument<'a>(alloc: Global) -> Arg<'a>
    ensures rule { rule_of result ≡ target_rule }
    ensures local { result.global ≡ false }
{
    Arg::new(alloc, "target")
        .long("target")
        .action(ArgAction::Set)
        .default_value("x86_64")
}

fn steps_argument<'a>(alloc: Global) -> Arg<'a>
    ensures rule { rule_of result ≡ steps_rule }
    ensures local { result.global ≡ false }
{
    Arg::new(alloc, "steps")
        .long("steps")
        .action(ArgAction::Set)
        .default_value("1000000000")
        .value_parser(value_parser!(u64).range(1..=1_000_000_000_000))
}

fn code_argument<'a>(alloc: Global) -> Arg<'a>
    ensures rule { rule_of result ≡ code_rule }
    ensures local { result.global ≡ false }
{
    Arg::new(alloc, "code")
        .long("code")
        .action(ArgAction::Set)
        .default_value("1048576")
        .value_parser(value_parser!(u64).range(256..=67_108_864))
}

fn seed_argument<'a>(alloc: Global) -> Arg<'a>
    ensures rule { rule_of result ≡ seed_rule }
    ensures local { result.global ≡ false }
{
    Arg::new(alloc, "seed")
        .long("seed")
        .action(ArgAction::Set)
        .default_value("1")
        .value_parser(value_parser!(u64))
}

fn stats_argument<'a>(alloc: Global) -> Arg<'a>
    ensures rule { rule_of result ≡ stats_rule }
    ensures local { result.global ≡ false }
{
    Arg::new(alloc, "stats")
        .long("stats")
        .action(ArgAction::SetTrue)
}

fn file_argument<'a>(alloc: Global) -> Arg<'a>
    ensures rule { rule_of result ≡ file_rule }
    ensures local { result.global ≡ false }
{
    Arg::new(alloc, "FILE")
        .action(ArgAction::Set)
        .default_value("-")
}

fn rest_argument<'a>(alloc: Global) -> Arg<'a>
    ensures rule { rule_of result ≡ rest_rule }
    ensures local { result.global ≡ false }
{
    Arg::new(alloc, "ARG")
        .action(ArgAction::Append)
        .num_args(0..)
}

// A command that takes the options which say what is done, for which target and how long.
fn with_modes<'a>(alloc: Global, command: Command<'a>) -> Result<Command<'a>, AllocError>
    ensures { IfOk result (λ c. app_of c ≡ with_rule (with_rule (with_rule (app_of command.entry) mode_rule) target_rule) steps_rule) }
{
    command
        .arg(mode_argument(alloc))?
        .arg(target_argument(alloc))?
        .arg(steps_argument(alloc))
}

// A command that takes the options of the code, of the generator and of the figures.
fn with_figures<'a>(alloc: Global, command: Command<'a>) -> Result<Command<'a>, AllocError>
    ensures { IfOk result (λ c. app_of c ≡ with_rule (with_rule (with_rule (app_of command.entry) code_rule) seed_rule) stats_rule) }
{
    command
        .arg(code_argument(alloc))?
        .arg(seed_argument(alloc))?
        .arg(stats_argument(alloc))
}

/// Returns the command with its arguments.
pub fn command<'a>(alloc: Global) -> Result<Command<'a>, AllocError>
    ensures { IfOk result (λ c. app_of c ≡ app) }
{
    let named = Command::new(alloc, "lightning").disable_help_flag(true);
    let with_options = with_figures(alloc, with_modes(alloc, named)?)?;
    with_options
        .arg(file_argument(alloc))?
        .arg(rest_argument(alloc))
}
