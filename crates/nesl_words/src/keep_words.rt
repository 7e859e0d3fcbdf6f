//! The words of `keep`, which is a command line of its own: each of its commands looks at kept sessions.

ghost use Rattle.std.specs.Prelude.{◌≡◌, IfOk, false};
ghost use Rattle.clap.specs.Walk.{rule_of};
ghost use Rattle.clap.specs.Words.{app_of};
ghost use Rattle.nesl_words.specs.Shapes.{IsShaped};
ghost use Rattle.nesl_words.specs.Rules.{check, csv_of_kept, folder_rule, keep, keep_program, keep_without_commands};
ghost use Rattle.nesl_words.specs.Rules.{one_user_rule, renew, show, user_rule};
ghost use Rattle.nesl_words.specs.Words.{word_named};
ghost use Rattle.nesl_words.specs.Wanted.{option_word};

use crate::help;
use crate::words::{with_option, with_subcommand};
use clap::builder::ValueParser;
use clap::{Arg, ArgAction, Command};
use std::alloc::{AllocError, Global};

/// A look at the kept sessions of a folder.
#[derive(Clone, Copy)]
pub struct Keep<'a> {
    pub word: KeepWord,
    pub folder: Option<&'a str>,
}

/// What is done with kept sessions.
#[derive(Clone, Copy)]
pub enum KeepWord {
    /// Says which come back.
    Check,
    /// Shows lines and answers.
    Show,
    /// Begins a session anew.
    Renew,
    /// Writes lines and answers as CSV.
    Csv,
}

/// Describes the commands of `keep` to clap.
pub(crate) fn keep_command<'a>(alloc: Global) -> Result<Command<'a>, AllocError>
    ensures { IfOk result (λ command. app_of command ≡ keep_program) }
{
    let with_check = with_subcommand(without_commands(alloc), check(alloc));
    let with_show = with_subcommand(with_check, show(alloc));
    let with_renew = with_subcommand(with_show, renew(alloc));
    with_subcommand(with_renew, csv(alloc))
}

// `keep` without its commands.
fn without_commands<'a>(alloc: Global) -> Result<Command<'a>, AllocError>
    ensures { IfOk result (λ command. app_of command ≡ keep_without_commands) }
{
    let keep = Command::new(alloc, "keep")
        .about(help::KEPT)
        .after_help(help::KEPT_AFTER)
        .subcommand_required(true)
        .arg_required_else_help(true);
    keep.bin_name("pazkindu keep")
}

/// Describes `keep` among the program's subcommands, for the help on these.
pub(crate) fn keep_listed<'a>(alloc: Global) -> Result<Command<'a>, AllocError>
    ensures { IfOk result (IsShaped keep) }
{
    Ok(
        Command::new(alloc, "keep")
            .about(help::KEPT)
            .after_help(help::KEPT_AFTER),
    )
}

fn check<'a>(alloc: Global) -> Result<Command<'a>, AllocError>
    ensures { IfOk result (IsShaped check) }
{
    let named = Command::new(alloc, "check")
        .about(help::KEPT_CHECK)
        .after_help(help::KEPT_CHECK_AFTER);
    let with_folder = with_option(Ok(named), folder(alloc));
    with_option(with_folder, one_user(alloc))
}

fn show<'a>(alloc: Global) -> Result<Command<'a>, AllocError>
    ensures { IfOk result (IsShaped show) }
{
    let named = Command::new(alloc, "show")
        .about(help::KEPT_SHOW)
        .after_help(help::KEPT_SHOW_AFTER);
    let with_folder = with_option(Ok(named), folder(alloc));
    with_option(with_folder, user(alloc))
}

fn renew<'a>(alloc: Global) -> Result<Command<'a>, AllocError>
    ensures { IfOk result (IsShaped renew) }
{
    let named = Command::new(alloc, "renew")
        .about(help::KEPT_RENEW)
        .after_help(help::KEPT_RENEW_AFTER);
    let with_folder = with_option(Ok(named), folder(alloc));
    with_option(with_folder, user(alloc))
}

fn csv<'a>(alloc: Global) -> Result<Command<'a>, AllocError>
    ensures { IfOk result (IsShaped csv_of_kept) }
{
    let named = Command::new(alloc, "csv")
        .about(help::KEPT_CSV)
        .after_help(help::KEPT_CSV_AFTER);
    let with_folder = with_option(Ok(named), folder(alloc));
    with_option(with_folder, one_user(alloc))
}

fn folder<'a>(alloc: Global) -> Arg<'a>
    ensures rule { rule_of result ≡ folder_rule }
    ensures local { result.global ≡ false }
{
    Arg::new(alloc, "FOLDER")
        .help(help::KEPT_FOLDER)
        .required(true)
        .value_parser(ValueParser::NonEmptyString)
        .action(ArgAction::Set)
}

// A user, who has to be named.
fn user<'a>(alloc: Global) -> Arg<'a>
    ensures rule { rule_of result ≡ user_rule }
    ensures local { result.global ≡ false }
{
    one_user(alloc).required(true)
}

// A user, or else all.
fn one_user<'a>(alloc: Global) -> Arg<'a>
    ensures rule { rule_of result ≡ one_user_rule }
    ensures local { result.global ≡ false }
{
    Arg::new(alloc, "USER")
        .help(help::KEPT_USER)
        .action(ArgAction::Set)
}

/// The word that a command of `keep` is.
pub(crate) fn word_named(name: &str) -> Option<KeepWord>
    ensures { option_word result ≡ word_named name.now }
{
    if name == "check" {
        return Some(KeepWord::Check);
    }
    if name == "show" {
        return Some(KeepWord::Show);
    }
    if name == "renew" {
        return Some(KeepWord::Renew);
    }
    if name == "csv" {
        return Some(KeepWord::Csv);
    }
    None
}
