//! The commands of the program, each as `clap` reads its words.

ghost use Rattle.std.specs.Prelude.{◌≡◌, map, false, IfOk};
ghost use Rattle.clap.specs.Words.{app_of, rule_of};
ghost use Rattle.lbm_words.specs.Commands.{positional, option, with_rules, command_of, run_options, run_app, check_app, demo_app, voxels_app, tracer_app, app_for};

use clap::{Arg, ArgAction, Command};
use std::alloc::{AllocError, Global};

/// The commands of the program.
#[derive(Clone, Copy)]
pub(crate) enum CommandKind {
    /// A run of a case.
    Run,
    /// A check of a case.
    Check,
    /// A run of a generated case.
    Demo,
    /// A run of a case in the geometry of a voxel file.
    Voxels,
    /// A run of a case with a tracer in its flow.
    Tracer,
}

/// A positional word, which has to be there.
fn positional<'a>(alloc: Global, name: &'a str) -> Arg<'a>
    ensures rule { rule_of result ≡ positional name.entry.now }
    ensures local { result.global ≡ false }
{
    Arg::new(alloc, name).required(true).action(ArgAction::Set)
}

/// An option with one value.
fn option<'a>(alloc: Global, name: &'a str) -> Arg<'a>
    ensures rule { rule_of result ≡ option name.entry.now }
    ensures local { result.global ≡ false }
{
    Arg::new(alloc, name).long(name).action(ArgAction::Set)
}

/// The command with these positional words behind its own.
fn with_positionals<'a>(
    alloc: Global,
    command: Command<'a>,
    names: &[&'a str],
) -> Result<Command<'a>, AllocError>
    ensures { IfOk result (λ more. app_of more ≡ with_rules (app_of command.entry) (map (λ name. positional name.now) names.now)) }
{
    let mut command = command;
    for name in names {
        command = command.arg(positional(alloc, name))?;
    }
    Ok(command)
}

/// The command with these options behind its own.
fn with_options<'a>(
    alloc: Global,
    command: Command<'a>,
    names: &[&'a str],
) -> Result<Command<'a>, AllocError>
    ensures { IfOk result (λ more. app_of more ≡ with_rules (app_of command.entry) (map (λ name. option name.now) names.now)) }
{
    let mut command = command;
    for name in names {
        command = command.arg(option(alloc, name))?;
    }
    Ok(command)
}

/// A command with these positional words and these options.
fn command_of<'a>(
    alloc: Global,
    name: &'a str,
    positionals: &[&'a str],
    options: &[&'a str],
) -> Result<Command<'a>, AllocError>
    ensures { IfOk result (λ command. app_of command ≡ command_of name.entry.now (map (λ name. name.now) positionals.now) (map (λ name. name.now) options.now)) }
{
    let bare = Command::new(alloc, name)
        .disable_help_flag(true)
        .disable_version_flag(true);
    let positioned = with_positionals(alloc, bare, positionals)?;
    with_options(alloc, positioned, options)
}

/// A command with these positional words and the options of a run of a case file.
fn with_run_options<'a>(
    alloc: Global,
    name: &'a str,
    positionals: &[&'a str],
) -> Result<Command<'a>, AllocError>
    ensures { IfOk result (λ command. app_of command ≡ command_of name.entry.now (map (λ name. name.now) positionals.now) run_options) }
{
    let options = [
        "pattern", "workers", "cut", "tile", "resume", "save", "format",
    ];
    command_of(alloc, name, positionals, &options)
}

/// `run CASE STEPS OUT`.
#[tactic(auto, unfolding(crate::specs::Commands::run_app))]
fn run_command<'a>(alloc: Global) -> Result<Command<'a>, AllocError>
    ensures { IfOk result (λ command. app_of command ≡ run_app) }
{
    with_run_options(alloc, "run", &["case", "steps", "out"])
}

/// `check CASE`.
#[tactic(auto, unfolding(crate::specs::Commands::check_app))]
fn check_command<'a>(alloc: Global) -> Result<Command<'a>, AllocError>
    ensures { IfOk result (λ command. app_of command ≡ check_app) }
{
    command_of(alloc, "check", &["case"], &[])
}

/// `demo N STEPS OUT`.
#[tactic(auto, unfolding(crate::specs::Commands::demo_app))]
fn demo_command<'a>(alloc: Global) -> Result<Command<'a>, AllocError>
    ensures { IfOk result (λ command. app_of command ≡ demo_app) }
{
    let options = ["pattern", "workers", "cut", "tile", "save", "format"];
    command_of(alloc, "demo", &["n", "steps", "out"], &options)
}

/// `voxels FILE CASE STEPS OUT`.
#[tactic(auto, unfolding(crate::specs::Commands::voxels_app))]
fn voxels_command<'a>(alloc: Global) -> Result<Command<'a>, AllocError>
    ensures { IfOk result (λ command. app_of command ≡ voxels_app) }
{
    with_run_options(alloc, "voxels", &["file", "case", "steps", "out"])
}

/// `tracer CASE STEPS OUT TRACE AMOUNT CELL`.
#[tactic(auto, unfolding(crate::specs::Commands::tracer_app))]
fn tracer_command<'a>(alloc: Global) -> Result<Command<'a>, AllocError>
    ensures { IfOk result (λ command. app_of command ≡ tracer_app) }
{
    let positionals = ["case", "steps", "out", "trace", "amount", "cell"];
    let options = ["pattern", "workers", "cut", "tile", "format", "rate"];
    command_of(alloc, "tracer", &positionals, &options)
}

/// A command of the program, as `clap` reads it.
pub(crate) fn command_for<'a>(alloc: Global, kind: CommandKind) -> Result<Command<'a>, AllocError>
    ensures { IfOk result (λ command. app_of command ≡ app_for kind) }
{
    match kind {
        CommandKind::Run => run_command(alloc),
        CommandKind::Check => check_command(alloc),
        CommandKind::Demo => demo_command(alloc),
        CommandKind::Voxels => voxels_command(alloc),
        CommandKind::Tracer => tracer_command(alloc),
    }
}
