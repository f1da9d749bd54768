//! The command that the words are read as.

ghost use Rattle.std.specs.Prelude.{◌≡◌, IfOk};
ghost use Rattle.clap.specs.Words.{app_of};
ghost use Rattle.tp_words.specs.Command.{bare, command as command_of_words, texts_added};

use clap::{Arg, ArgAction, Command};
use std::alloc::{AllocError, Global};

/// The command without its arguments. The words are those behind the program's name, and there are
/// no flags for help and the version.
fn bare_command<'a>(alloc: Global) -> Command<'a>
    ensures { app_of result ≡ bare }
{
    Command::new(alloc, "tprolog")
        .no_binary_name(true)
        .disable_help_flag(true)
        .disable_version_flag(true)
}

/// The command with its two optional positional arguments.
fn with_texts<'a>(alloc: Global) -> Result<Command<'a>, AllocError>
    ensures { IfOk result (λ command. app_of command ≡ texts_added) }
{
    let model = Arg::new(alloc, "MODEL");
    let goal = Arg::new(alloc, "GOAL");
    bare_command(alloc).arg(model)?.arg(goal)
}

/// The command with all its arguments: the two positional ones, three options and a flag.
pub fn command<'a>(alloc: Global) -> Result<Command<'a>, AllocError>
    ensures { IfOk result (λ command. app_of command ≡ command_of_words) }
{
    let steps = Arg::new(alloc, "steps").long("steps");
    let answers = Arg::new(alloc, "answers").long("answers");
    let sample = Arg::new(alloc, "sample").long("sample");
    let meters = Arg::new(alloc, "meters")
        .long("meters")
        .action(ArgAction::SetTrue);
    with_texts(alloc)?
        .arg(steps)?
        .arg(answers)?
        .arg(sample)?
        .arg(meters)
}
