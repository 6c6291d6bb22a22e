//! The command line, as a `Command` of clap.

ghost use Rattle.std.specs.Prelude.{◌≡◌, IfOk, fold, false, map};
ghost use Rattle.clap.specs.Words.{rule_of, app_of, App};
ghost use Rattle.mon_cli.specs.Line.{argument_of};
ghost use Rattle.mon_cli.specs.Program.{HasApp, IsProgram, Reads, parser_of, rule_for, with_form, with_takes, with_line, with_command, command_app};

use crate::choice::Choice;
use crate::lines::{FIRST, Form, Line, Takes, Value, lines_of};
use crate::texts::{ABOUT, MORE, about, more};
use clap::builder::{ValueParser, ValueRange};
use clap::{Arg, ArgAction, ArgMatches, Command, Error};
use std::alloc::{AllocError, Global};
use std::convert::AsStr;

/// The name and the version, as `--version` prints them.
pub const VERSION: &str = "snmpmon 0.1.0\n";

static FORMATS: [&str; 6] = [
    "text",
    "json",
    "prometheus",
    "openmetrics",
    "columns",
    "html",
];

/// The names of the kinds of values.
static KINDS: [&str; 9] = [
    "integer",
    "string",
    "hex",
    "oid",
    "ip",
    "counter32",
    "gauge32",
    "timeticks",
    "counter64",
];

/// The names of the orders of rows.
static SORTS: [&str; 4] = ["name", "rate", "alarm", "age"];

/// The texts of which a value must be one.
#[derive(Clone, Copy)]
struct Lists<'a> {
    formats: &'a [&'a str],
    kinds: &'a [&'a str],
    sorts: &'a [&'a str],
}

fn parser_of<'a>(lists: Lists<'a>, value: Value) -> ValueParser<'a>
    ensures { result ≡ parser_of lists.entry value }
{
    match value {
        Value::Text => ValueParser::String,
        Value::Format => ValueParser::Names(lists.formats),
        Value::Kind => ValueParser::Names(lists.kinds),
        Value::Sort => ValueParser::Names(lists.sorts),
        Value::Number(low, high) => ValueParser::Signed(low, high),
        Value::Natural(low, high) => ValueParser::Unsigned(low, high),
    }
}

fn set_form<'a>(arg: Arg<'a>, line: &Line) -> Arg<'a>
    ensures rule { rule_of result ≡ with_form line.now.form line.now.id.now (rule_of arg.entry) }
    ensures local { result.global ≡ arg.entry.global }
{
    match line.form {
        Form::Place => arg,
        Form::Long => arg.long(line.id),
        Form::Short(letter) => arg.short(letter),
        Form::Both(letter) => arg.short(letter).long(line.id),
    }
}

/// Sets what the argument takes.
fn set_takes<'a>(arg: Arg<'a>, lists: Lists<'a>, line: &Line) -> Arg<'a>
    ensures rule { rule_of result ≡ with_takes lists.entry line.now.takes (rule_of arg.entry) }
    ensures local { result.global ≡ arg.entry.global }
{
    match line.takes {
        Takes::Nothing => arg.action(ArgAction::SetTrue),
        Takes::One(value) => arg
            .action(ArgAction::Set)
            .value_parser(parser_of(lists, value))
            .value_name(line.shown),
        Takes::Each(value) => arg
            .action(ArgAction::Append)
            .value_parser(parser_of(lists, value))
            .value_name(line.shown),
        Takes::Many(value) => arg
            .action(ArgAction::Append)
            .value_parser(parser_of(lists, value))
            .num_args(ValueRange::new(1..))
            .value_name(line.shown),
    }
}

/// The argument of a line.
fn argument<'a>(alloc: Global, lists: Lists<'a>, line: &Line) -> Arg<'a>
    ensures rule { rule_of result ≡ rule_for lists.entry (argument_of line.now) }
    ensures local { result.global ≡ false }
{
    let arg = Arg::new(alloc, line.id)
        .help(line.help)
        .required(line.needed);
    set_takes(set_form(arg, line), lists, line)
}

/// The command with the arguments of these lines.
fn with_lines<'a>(
    alloc: Global,
    lists: Lists<'a>,
    command: Command<'a>,
    lines: &[Line],
) -> Result<Command<'a>, AllocError>
    ensures { (before : App) → HasApp before command.entry
        → IfOk result (HasApp (fold (with_line lists.entry) before lines.now)) }
{
    let mut command = command;
    for line in lines {
        command = command.arg(argument(alloc, lists, line))?;
    }
    Ok(command)
}

/// The command line of a command.
fn one<'a>(alloc: Global, lists: Lists<'a>, choice: Choice) -> Result<Command<'a>, AllocError>
    ensures { IfOk result (HasApp (command_app lists.entry choice)) }
{
    let command = Command::new(alloc, choice.word())
        .about(about(choice))
        .long_about(more(choice));
    with_lines(alloc, lists, command, lines_of(choice))
}

/// The commands, in the order of the list in help.
const CHOICES: [Choice; 16] = [
    Choice::Replay,
    Choice::Get,
    Choice::Next,
    Choice::Bulk,
    Choice::Walk,
    Choice::Set,
    Choice::Settings,
    Choice::Agent,
    Choice::Answer,
    Choice::Mib,
    Choice::Station,
    Choice::Report,
    Choice::Carry,
    Choice::Healthz,
    Choice::SelfTest,
    Choice::Rehearse,
];

/// The command with one more command below it.
fn with_command<'a>(
    alloc: Global,
    lists: Lists<'a>,
    command: Command<'a>,
    choice: Choice,
) -> Result<Command<'a>, AllocError>
    ensures { (before : App) → HasApp before command.entry → IfOk result
        (HasApp (with_command lists.entry before choice)) }
{
    command.subcommand(one(alloc, lists, choice)?)
}

/// The command with these commands below it.
fn with_commands<'a>(
    alloc: Global,
    lists: Lists<'a>,
    command: Command<'a>,
    choices: &[Choice],
) -> Result<Command<'a>, AllocError>
    ensures { (before : App) → HasApp before command.entry
        → IfOk result (HasApp (fold (with_command lists.entry) before choices.now)) }
{
    let mut command = command;
    for choice in choices {
        command = with_command(alloc, lists, command, *choice)?;
    }
    Ok(command)
}

/// The whole command line. With no arguments it names no command, which the caller takes for
/// `replay 8`.
fn command<'a>(alloc: Global) -> Result<Command<'a>, AllocError>
    ensures { IfOk result IsProgram }
{
    let lists = Lists {
        formats: FORMATS.as_slice(),
        kinds: KINDS.as_slice(),
        sorts: SORTS.as_slice(),
    };
    let command = Command::new(alloc, "snmpmon").about(ABOUT).after_help(MORE);
    let command = with_lines(alloc, lists, command, FIRST.as_slice())?;
    with_commands(alloc, lists, command, CHOICES.as_slice())
}

/// Parses the arguments by clap, of which the first is the program's name. Without a command among
/// them it names none.
pub fn read<'a, S: AsStr>(alloc: Global, words: &'a [S]) -> Result<ArgMatches<'a>, Error>
    ensures { Reads (map S.text words.entry.now) result }
{
    command(alloc)?.try_get_matches_from(words)
}
