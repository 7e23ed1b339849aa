//! The program's command line, as its parser takes it: made of the table of commands.
ghost use Rattle.clap.specs.Simple.{app_of};
ghost use Rattle.clap.specs.Walk.{rule_of};
ghost use Rattle.clap.specs.declared.builder.command.Command.TheViews.{out-Command};
ghost use Rattle.app_arguments.specs.Statuses.{IsVersionLine};
ghost use Rattle.app_arguments.specs.Table.{batch_arguments, bundle_arguments, check_arguments, draw_arguments, explore_arguments, infer_arguments, judge_arguments, merge_arguments, monitor_app, plain_app, reduce_arguments, rule_for, serve_arguments, test_arguments, with_arguments, with_commands};
ghost use Rattle.app_arguments.specs.Views.{row_view};
ghost use Rattle.std.specs.Prelude.{◌≡◌, ◌∷◌, IfOk, [], codes, false, map};

use super::help::{
    ABOUT, AFTER, BATCH_ABOUT, BATCH_AFTER, BUNDLE_ABOUT, BUNDLE_AFTER, CHECK_ABOUT, CHECK_AFTER,
    DRAW_ABOUT, DRAW_AFTER, EXPLORE_ABOUT, EXPLORE_AFTER, INFER_ABOUT, INFER_AFTER, JUDGE_ABOUT,
    JUDGE_AFTER, MERGE_ABOUT, MERGE_AFTER, REDUCE_ABOUT, REDUCE_AFTER, SERVE_ABOUT, SERVE_AFTER,
    TEST_ABOUT, TEST_AFTER,
};
use super::table::{
    ArgumentKind, Row, batch_arguments, bundle_arguments, check_arguments, draw_arguments, explain,
    explore_arguments, infer_arguments, judge_arguments, merge_arguments, reduce_arguments,
    serve_arguments, test_arguments,
};
use clap::builder::ValueParser;
use clap::{Arg, ArgAction, Command};
use std::alloc::{AllocError, Global};

/// The program's version, as [`version_line`] says it too.
const VERSION: &str = "1.0.0";

/// The line that names the program and its version, which `--version` writes.
pub fn version_line() -> &'static str
    ensures { IsVersionLine result.now }
{
    "monitor 1.0.0\n"
}

/// An argument, but for how it is given.
fn plain_argument<'a>(alloc: Global, row: &Row) -> Arg<'a>
    ensures rule { rule_of result ≡ rule_for (record (row_view row.now) { kind = ArgumentKind.Text }) }
    ensures local { result.global ≡ false }
{
    let argument = Arg::new(alloc, row.id).help(row.help);
    let argument = match row.long {
        Some(name) => argument.long(name),
        None => argument,
    };
    match row.default {
        Some(text) => argument.default_value(text),
        None => argument,
    }
}

/// An argument.
fn argument<'a>(alloc: Global, row: &Row) -> Arg<'a>
    ensures rule { rule_of result ≡ rule_for (row_view row.now) }
    ensures local { result.global ≡ false }
{
    let argument = plain_argument(alloc, row);
    match row.kind {
        ArgumentKind::Name => argument.required(true),
        ArgumentKind::Names => argument.required(true).num_args(1..),
        ArgumentKind::Text => argument,
        ArgumentKind::Texts => argument.action(ArgAction::Append),
        ArgumentKind::Flag => argument.action(ArgAction::SetTrue),
        ArgumentKind::Number(least, most) => argument.value_parser(ValueParser::Unsigned(
            least, most,
        )),
    }
}

/// A command's line with these arguments too.
fn with_arguments<'a>(
    alloc: Global,
    command: Command<'a>,
    rows: &[Row],
) -> Result<Command<'a>, AllocError>
    requires { (out-Command command).has_globals ≡ false }
    ensures app { IfOk result (λ with_all. app_of with_all
        ≡ with_arguments (app_of command.entry) (map row_view rows.now)) }
    ensures local { IfOk result (λ with_all. (out-Command with_all).has_globals ≡ false) }
{
    let mut command = command;
    for row in rows {
        command = command.arg(argument(alloc, row))?;
    }
    Ok(command)
}

/// The program's command line with the command of this name too, which takes these arguments, with what its help begins
/// and ends with.
fn with_command<'a>(
    alloc: Global,
    program: Command<'a>,
    name: &'static str,
    rows: &[Row],
    about: &'static str,
    after_help: &'static str,
) -> Result<Command<'a>, AllocError>
    ensures { IfOk result (λ whole. app_of whole
        ≡ with_commands (app_of program.entry) ((name.now, map row_view rows.now) ∷ [])) }
{
    let command = Command::new(alloc, name)
        .about(about)
        .after_help(after_help);
    program.subcommand(with_arguments(alloc, command, rows)?)
}

/// The program's command line without its commands.
fn plain_command<'a>(alloc: Global) -> Result<Command<'a>, AllocError>
    ensures { IfOk result (λ program. app_of program ≡ plain_app) }
{
    Command::new(alloc, "monitor")
        .about(ABOUT)
        .after_help(AFTER)
        .version(VERSION)
        .no_binary_name(true)
        .bin_name("monitor")?
        .arg(argument(alloc, &explain()))
}

/// The program's command line with the commands that say what stands in files.
fn with_files<'a>(alloc: Global, program: Command<'a>) -> Result<Command<'a>, AllocError>
    ensures { IfOk result (λ whole. app_of whole ≡ with_commands (app_of program.entry)
        ((codes "judge", judge_arguments) ∷ (codes "check", check_arguments) ∷ (codes "draw", draw_arguments) ∷ [])) }
{
    let program = with_command(
        alloc,
        program,
        "judge",
        &judge_arguments(),
        JUDGE_ABOUT,
        JUDGE_AFTER,
    )?;
    let program = with_command(
        alloc,
        program,
        "check",
        &check_arguments(),
        CHECK_ABOUT,
        CHECK_AFTER,
    )?;
    with_command(
        alloc,
        program,
        "draw",
        &draw_arguments(),
        DRAW_ABOUT,
        DRAW_AFTER,
    )
}

/// The program's command line with the other commands.
fn with_others<'a>(alloc: Global, program: Command<'a>) -> Result<Command<'a>, AllocError>
    ensures { IfOk result (λ whole. app_of whole ≡ with_commands (app_of program.entry)
        ((codes "serve", serve_arguments) ∷ (codes "explore", explore_arguments)
        ∷ (codes "test", test_arguments) ∷ [])) }
{
    let program = with_command(
        alloc,
        program,
        "serve",
        &serve_arguments(),
        SERVE_ABOUT,
        SERVE_AFTER,
    )?;
    let program = with_command(
        alloc,
        program,
        "explore",
        &explore_arguments(),
        EXPLORE_ABOUT,
        EXPLORE_AFTER,
    )?;
    with_command(
        alloc,
        program,
        "test",
        &test_arguments(),
        TEST_ABOUT,
        TEST_AFTER,
    )
}

/// The program's command line with the commands that make other sessions of recorded runs, too.
fn with_makers<'a>(alloc: Global, program: Command<'a>) -> Result<Command<'a>, AllocError>
    ensures { IfOk result (λ whole. app_of whole ≡ with_commands (app_of program.entry)
        ((codes "infer", infer_arguments) ∷ (codes "reduce", reduce_arguments) ∷ [])) }
{
    let program = with_command(
        alloc,
        program,
        "infer",
        &infer_arguments(),
        INFER_ABOUT,
        INFER_AFTER,
    )?;
    with_command(
        alloc,
        program,
        "reduce",
        &reduce_arguments(),
        REDUCE_ABOUT,
        REDUCE_AFTER,
    )
}

/// The program's command line with the commands on lines, too.
fn with_lines<'a>(alloc: Global, program: Command<'a>) -> Result<Command<'a>, AllocError>
    ensures { IfOk result (λ whole. app_of whole ≡ with_commands (app_of program.entry)
        ((codes "batch", batch_arguments) ∷ (codes "bundle", bundle_arguments)
        ∷ (codes "merge", merge_arguments) ∷ [])) }
{
    let program = with_command(
        alloc,
        program,
        "batch",
        &batch_arguments(),
        BATCH_ABOUT,
        BATCH_AFTER,
    )?;
    let program = with_command(
        alloc,
        program,
        "bundle",
        &bundle_arguments(),
        BUNDLE_ABOUT,
        BUNDLE_AFTER,
    )?;
    with_command(
        alloc,
        program,
        "merge",
        &merge_arguments(),
        MERGE_ABOUT,
        MERGE_AFTER,
    )
}

/// The program's command line.
pub(crate) fn program_command<'a>(alloc: Global) -> Result<Command<'a>, AllocError>
    ensures { IfOk result (λ command. app_of command ≡ monitor_app) }
{
    let program = with_files(alloc, plain_command(alloc)?)?;
    let program = with_others(alloc, program)?;
    let program = with_makers(alloc, program)?;
    with_lines(alloc, program)
}
