//! The reading of the words.

ghost use Rattle.std.specs.Prelude.{◌≡◌, map, string_bytes, true, IfOk};
ghost use Rattle.clap.specs.Words.{app_of, is_simple_and_free};
ghost use Rattle.lbm_words.specs.Ends.{Gives};
ghost use Rattle.lbm_words.specs.Request.{run_view, request_view, IsRequest};
ghost use Rattle.lbm_words.specs.Words.{rows_in, taken, run_of, check_of, demo_of, voxels_of, tracer_of, asked, read_by, request_of};

use crate::commands::{CommandKind, command_for};
use crate::end::WordsEnd;
use crate::names::command_named;
use crate::request::{Check, Demo, Request, Run, Tracer, Voxels};
use crate::values::{
    cell_of, choice_of, format_of, is_other, required_number, steps_of, text_of, tracer_rate_of,
    value,
};
use clap::{ArgMatches, Command};
use std::alloc::Global;

const MOST_SIZE: u32 = 128;

const MOST_AMOUNT: u32 = 16_777_216;

/// What a command finds in the words.
fn taken<'a>(command: Command<'a>, words: &'a [String]) -> Result<ArgMatches<'a>, WordsEnd>
    requires { is_simple_and_free (app_of command) ≡ true }
    ensures { Gives rows_in result (taken (app_of command.entry) (map string_bytes words.now)) }
{
    let matches = command.try_get_matches_from(words)?;
    Ok(matches)
}

/// The run that the values ask for.
#[tactic(auto, unfolding(crate::specs::Words::run_of))]
fn run_of<'a>(alloc: Global, matches: &ArgMatches<'a>) -> Result<Run<'a>, WordsEnd>
    ensures { Gives run_view result (run_of (rows_in matches.now)) }
{
    let case = text_of(matches, "case")?;
    let steps = steps_of(matches)?;
    let out = text_of(matches, "out")?;
    let choice = choice_of(alloc, matches)?;
    let format = format_of(matches)?;
    let resume = value(matches, "resume");
    let save = value(matches, "save");
    if case == out || !is_other(case, save) || !is_other(out, save) {
        return Err(WordsEnd::Usage);
    }
    Ok(Run {
        case,
        steps,
        out,
        choice,
        resume,
        save,
        format,
    })
}

/// The check that the values ask for.
#[tactic(auto, unfolding(crate::specs::Words::check_of))]
fn check_of<'a>(matches: &ArgMatches<'a>) -> Result<Request<'a>, WordsEnd>
    ensures { Gives request_view result (check_of (rows_in matches.now)) }
{
    let case = text_of(matches, "case")?;
    Ok(Request::Check(Check { case }))
}

/// The run of a generated case that the values ask for.
#[tactic(auto, unfolding(crate::specs::Words::demo_of))]
fn demo_of<'a>(alloc: Global, matches: &ArgMatches<'a>) -> Result<Request<'a>, WordsEnd>
    ensures { Gives request_view result (demo_of (rows_in matches.now)) }
{
    let n = required_number(matches, "n", 1, MOST_SIZE)?;
    let steps = steps_of(matches)?;
    let out = text_of(matches, "out")?;
    let choice = choice_of(alloc, matches)?;
    let format = format_of(matches)?;
    let save = value(matches, "save");
    if !is_other(out, save) {
        return Err(WordsEnd::Usage);
    }
    Ok(Request::Demo(Demo {
        n,
        steps,
        out,
        choice,
        save,
        format,
    }))
}

/// The run in the geometry of a voxel file that the values ask for.
#[tactic(auto, unfolding(crate::specs::Words::voxels_of))]
fn voxels_of<'a>(alloc: Global, matches: &ArgMatches<'a>) -> Result<Request<'a>, WordsEnd>
    ensures { Gives request_view result (voxels_of (rows_in matches.now)) }
{
    let file = text_of(matches, "file")?;
    let run = run_of(alloc, matches)?;
    if file == run.out || !is_other(file, run.save) {
        return Err(WordsEnd::Usage);
    }
    Ok(Request::Voxels(Voxels { file, run }))
}

/// The run with a tracer that the values ask for.
#[tactic(auto, unfolding(crate::specs::Words::tracer_of))]
fn tracer_of<'a>(alloc: Global, matches: &ArgMatches<'a>) -> Result<Request<'a>, WordsEnd>
    ensures { Gives request_view result (tracer_of (rows_in matches.now)) }
{
    let case = text_of(matches, "case")?;
    let steps = steps_of(matches)?;
    let out = text_of(matches, "out")?;
    let trace = text_of(matches, "trace")?;
    let amount = required_number(matches, "amount", 1, MOST_AMOUNT)?;
    let cell = cell_of(matches)?;
    let rates = tracer_rate_of(alloc, matches)?;
    let choice = choice_of(alloc, matches)?;
    let format = format_of(matches)?;
    if case == out || case == trace || out == trace {
        return Err(WordsEnd::Usage);
    }
    Ok(Request::Tracer(Tracer {
        case,
        steps,
        out,
        trace,
        amount,
        cell,
        rates,
        choice,
        format,
    }))
}

/// What the values of a command ask for.
fn asked<'a>(
    alloc: Global,
    kind: CommandKind,
    matches: &ArgMatches<'a>,
) -> Result<Request<'a>, WordsEnd>
    ensures { Gives request_view result (asked kind (rows_in matches.now)) }
{
    match kind {
        CommandKind::Run => Ok(Request::Run(run_of(alloc, matches)?)),
        CommandKind::Check => check_of(matches),
        CommandKind::Demo => demo_of(alloc, matches),
        CommandKind::Voxels => voxels_of(alloc, matches),
        CommandKind::Tracer => tracer_of(alloc, matches),
    }
}

/// What the words ask for as words of a command.
#[tactic(auto, unfolding(crate::specs::Words::read_by))]
fn read_by<'a>(
    alloc: Global,
    kind: CommandKind,
    words: &'a [String],
) -> Result<Request<'a>, WordsEnd>
    ensures { Gives request_view result (read_by kind (map string_bytes words.now)) }
{
    let command = command_for(alloc, kind)?;
    let matches = taken(command, words)?;
    asked(alloc, kind, &matches)
}

/// What the words after the program's name ask for: the first one is the command. `Usage` is answered exactly where they
/// ask for nothing that the program does.
pub fn request_of<'a>(alloc: Global, words: &'a [String]) -> Result<Request<'a>, WordsEnd>
    // The request of the words, or `Usage` where they have none. Where memory ran out, nothing is said.
    ensures request { Gives request_view result (request_of (map string_bytes words.now)) }
    ensures ranges { IfOk result (λ request. IsRequest (request_view request)) }
{
    let [name, ..] = words else {
        return Err(WordsEnd::Usage);
    };
    match command_named(name.as_str()) {
        Some(kind) => read_by(alloc, kind, words),
        None => Err(WordsEnd::Usage),
    }
}
