//! The command line, as `clap` is told of it.

ghost use Rattle.std.specs.Prelude.{◌≡◌, IfOk, false};
ghost use Rattle.std.specs.List.{AllZip};
ghost use Rattle.command_words.specs.ClapWords.{app_of, new_app, rule_of};
ghost use Rattle.command_words.specs.CommandLine.{IsLocal, bare_app, desk_app};
ghost use Rattle.command_words.specs.Arguments.{IsArgOf, plain_rule, row_rule};
ghost use Rattle.command_words.specs.Commands.{IsCommandOf};

use crate::arguments::{Argument, row_of};
use crate::commands::{Name, ORDER, PROGRAM, Subcommand, subcommand_of};
use crate::help::VERSION;
use crate::rows::{Form, Row};
use clap::builder::ValueParser;
use clap::{Arg, ArgAction, Command};
use std::alloc::{AllocError, Global};

/// An argument, as its row says, but for its form.
#[tactic(auto, unfolding(crate::specs::ClapWords::rule_of, crate::specs::ClapWords::new_rule))]
fn plain_arg<'a>(alloc: Global, row: &Row) -> Arg<'a>
    ensures rule { rule_of result ≡ plain_rule row.now }
    ensures local { result.global ≡ false }
{
    Arg::new(alloc, row.id)
        .required(row.required)
        .default_values(row.defaults)
        .help(row.help)
}

/// An argument, as its row says.
#[tactic(auto, unfolding(crate::specs::ClapWords::rule_of, crate::specs::Arguments::row_rule))]
fn arg_of<'a>(alloc: Global, row: &Row) -> Arg<'a>
    ensures rule { rule_of result ≡ row_rule row.now }
    ensures local { result.global ≡ false }
{
    let arg = plain_arg(alloc, row);
    match row.form {
        Form::Word => arg,
        Form::Words(least) => arg.num_args(least..),
        Form::Number(least, most) => arg.value_parser(ValueParser::Signed(least, most)),
        Form::TextOption => arg.long(row.long),
        Form::NumberOption(least, most) => arg
            .long(row.long)
            .value_parser(ValueParser::Signed(least, most)),
        Form::Flag => arg.long(row.id).action(ArgAction::SetTrue),
    }
}

/// Arguments, as their rows say, in order.
fn args_of<'a>(alloc: Global, arguments: &[Argument]) -> Result<Vec<Arg<'a>>, AllocError>
    ensures { IfOk result (λ args. AllZip IsArgOf arguments.now args.items) }
{
    let mut args = Vec::new(alloc);
    for argument in arguments {
        args.push(arg_of(alloc, row_of(*argument)))?;
    }
    Ok(args)
}

/// A command with no argument yet.
#[tactic(auto, unfolding(crate::specs::ClapWords::app_of, crate::specs::ClapWords::new_app))]
fn new_command<'a>(alloc: Global, told: &Subcommand) -> Command<'a>
    ensures app { app_of result ≡ new_app told.now.name.now }
    ensures local { IsLocal result }
{
    Command::new(alloc, told.name)
        .about(told.about)
        .after_help(told.after_help)
}

/// A command with its arguments.
fn command_of<'a>(alloc: Global, name: Name) -> Result<Command<'a>, AllocError>
    ensures { IfOk result (λ command. IsCommandOf name command) }
{
    let told = subcommand_of(name);
    let args = args_of(alloc, told.arguments)?;
    new_command(alloc, told).args(args)
}

/// Commands with their arguments, in order.
fn commands_of<'a>(alloc: Global, names: &[Name]) -> Result<Vec<Command<'a>>, AllocError>
    ensures { IfOk result (λ commands. AllZip IsCommandOf names.now commands.items) }
{
    let mut commands = Vec::new(alloc);
    for name in names {
        commands.push(command_of(alloc, *name)?)?;
    }
    Ok(commands)
}

/// The program with its own options and no command yet.
#[tactic(auto, unfolding(crate::specs::CommandLine::bare_app, crate::specs::ClapWords::new_app, crate::specs::ClapWords::app_of))]
fn bare_command<'a>(alloc: Global) -> Command<'a>
    ensures { app_of result ≡ bare_app }
{
    new_command(alloc, &PROGRAM)
        .version(VERSION)
        .subcommand_required(true)
        .disable_help_subcommand(true)
}

/// The whole command line.
pub fn desk_command<'a>(alloc: Global) -> Result<Command<'a>, AllocError>
    ensures { IfOk result (λ c. app_of c ≡ desk_app) }
{
    let commands = commands_of(alloc, &ORDER)?;
    bare_command(alloc).subcommands(commands)
}
