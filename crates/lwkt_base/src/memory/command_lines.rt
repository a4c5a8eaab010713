//! Command lines, and what a parse by one finds.
ghost use Rattle.std.specs.Prelude.{◌≡◌, ◌≢◌, false, IfErr, IfOk, IsSomeAnd, true};
ghost use Rattle.clap.specs.Walk.{texts};
ghost use Rattle.clap.specs.Words.{AddsArg, AddsSubcommand, FailsBy, HasMatchesOf, app_of, fault_of, is_broken, is_simple_and_free, kind_of};
ghost use Rattle.clap.specs.declared.builder.command.Command.TheViews.{out-Command};
ghost use Rattle.clap.specs.declared.error.kind.ErrorKind.TheVariants.{OutOfMemory as MemoryKind};

use super::{OutOfMemory, refused};
use clap::error::ErrorKind;
use clap::{Arg, ArgMatches, Command, Error};
use std::alloc::Global;

/// The command with one argument more.
pub fn with_argument<'a>(command: Command<'a>, arg: Arg<'a>) -> Result<Command<'a>, OutOfMemory>
    ensures { IfOk result (AddsArg command.entry arg.entry) }
{
    match command.arg(arg) {
        Ok(more) => Ok(more),
        Err(_) => Err(refused()),
    }
}

/// The command with one subcommand more.
pub fn with_subcommand<'a>(
    command: Command<'a>,
    sub: Command<'a>,
) -> Result<Command<'a>, OutOfMemory>
    ensures { IfOk result (AddsSubcommand command.entry sub.entry) }
{
    match command.subcommand(sub) {
        Ok(more) => Ok(more),
        Err(_) => Err(refused()),
    }
}

/// The command by the name that its usage calls it.
pub fn with_bin_name<'a>(command: Command<'a>, name: &str) -> Result<Command<'a>, OutOfMemory>
    ensures { IfOk result (λ named. (out-Command named ≡ record (out-Command command.entry) { bin_name = (out-Command named).bin_name }) × IsSomeAnd (out-Command named).bin_name (λ text. text.bytes.items ≡ name.now)) }
{
    match command.bin_name(name) {
        Ok(named) => Ok(named),
        Err(_) => Err(refused()),
    }
}

/// What a parse by a command finds in words, or what it says if it finds nothing. A command that an earlier parse left without memory
/// is none for this.
pub fn matches_of<'a>(
    command: Command<'a>,
    words: &'a [&'a str],
) -> Result<Result<ArgMatches<'a>, Error>, OutOfMemory>
    requires { is_broken command ≡ false }
    ensures found { IfOk result (λ outcome. IfOk outcome (HasMatchesOf (app_of command.entry) (texts words.entry.now))) }
    ensures fails { is_simple_and_free (app_of command.entry) ≡ true → IfOk result (FailsBy (fault_of (app_of command.entry) (texts words.entry.now))) }

    // Such an error isn't want of memory.
    ensures other { IfOk result (λ outcome. IfErr outcome (λ error. kind_of error ≢ MemoryKind)) }
{
    match command.try_get_matches_from(words) {
        Ok(found) => Ok(Ok(found)),
        Err(error) => if matches!(error.kind(), ErrorKind::OutOfMemory) {
            Err(refused())
        } else {
            Ok(Err(error))
        },
    }
}

/// What a parse says by its error.
pub fn said_by(alloc: Global, error: &Error) -> Result<String, OutOfMemory> {
    match error.to_string(alloc) {
        Ok(said) => Ok(said),
        Err(_) => Err(refused()),
    }
}
