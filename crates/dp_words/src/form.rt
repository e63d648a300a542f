//! Forms of commands: what `clap` is told of them.

ghost use Rattle.std.specs.Prelude.{◌≡◌, false, map, IfOk};
ghost use Rattle.clap.specs.Words.{app_of, rule_of};
ghost use Rattle.clap.specs.declared.builder.command.Command.TheViews.{out-Command};
ghost use Rattle.dp_words.specs.Program.{bare_program, command_for, program_with, rule_for};
ghost use Rattle.dp_words.specs.Program.{words_of};

use clap::{Arg, Command};
use std::alloc::{AllocError, Global};

/// What may follow a command's name.
#[derive(Clone, Copy, Debug, PartialEq, Eq)]
pub enum Kind {
    /// A word that has to be there.
    Word,
    /// The last words: one or more.
    Words,
    /// An option `--NAME VALUE`.
    Named { required: bool },
}

/// The words of a command: its name, and the words and options that may follow it, by their names.
#[derive(Clone, Copy, Debug)]
pub struct Form {
    pub name: &'static str,
    pub params: &'static [(&'static str, Kind)],
}

/// The program of this name, with a command for each form. Its words come without its own name.
/// One of the commands has to be there. Nothing asks for help, which is refused like other words.
pub fn program_of<'a>(
    alloc: Global,
    name: &'static str,
    forms: &[Form],
) -> Result<Command<'a>, AllocError>
    ensures { IfOk result (λ made. app_of made ≡ program_with name.now (map words_of forms.now)) }
{
    let mut program = bare_of(alloc, name);
    for form in forms {
        program = program.subcommand(command_for(alloc, form)?)?;
    }
    Ok(program)
}

/// The program before it has commands.
fn bare_of<'a>(alloc: Global, name: &'static str) -> Command<'a>
    ensures { app_of result ≡ bare_program name.now }
{
    Command::new(alloc, name)
        .no_binary_name(true)
        .disable_help_flag(true)
        .disable_help_subcommand(true)
        .subcommand_required(true)
}

/// The command of a form.
fn command_for<'a>(alloc: Global, form: &Form) -> Result<Command<'a>, AllocError>
    ensures app { IfOk result (λ made. app_of made ≡ command_for (words_of form.now)) }
    ensures plain { IfOk result (λ made. (out-Command made).has_globals ≡ false) }
{
    let mut command = Command::new(alloc, form.name);
    for param in form.params {
        command = command.arg(arg_of(alloc, param.0, param.1))?;
    }
    Ok(command)
}

/// A word or an option.
fn arg_of<'a>(alloc: Global, name: &'static str, kind: Kind) -> Arg<'a>
    ensures rule { rule_of result ≡ rule_for (name.now, kind) }
    ensures local { result.global ≡ false }
{
    let arg = Arg::new(alloc, name);
    match kind {
        Kind::Word => arg.required(true),
        Kind::Words => arg.required(true).num_args(1..),
        Kind::Named { required } => arg.long(name).required(required),
    }
}
