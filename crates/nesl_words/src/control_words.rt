//! The words for an operator of a service: where a service is reached, and what is asked of it.

ghost use Rattle.std.specs.Prelude.{◌≡◌, IfOk, codes, false};
ghost use Rattle.clap.specs.Matches.{found_of};
ghost use Rattle.clap.specs.Walk.{rows_of, rule_of};
ghost use Rattle.nesl_words.specs.Shapes.{IsShaped};
ghost use Rattle.nesl_words.specs.Rules.{control, control_rule, log_file_rule, metrics_rule, path_rule, request_rule};
ghost use Rattle.nesl_words.specs.Words.{operator_among};
ghost use Rattle.nesl_words.specs.Wanted.{operator_wanted};

use crate::help;
use crate::words::{MOST_PORT, number, number_option, text, text_option, user, with_option};
use clap::builder::ValueParser;
use clap::{Arg, ArgAction, ArgMatches, Command};
use std::alloc::{AllocError, Global};

/// What an operator and a monitor reach of a service. `control` is the path of a socket for an operator, `metrics` a
/// port for a monitor, and `log_file` the file of the log.
#[derive(Clone, Copy)]
pub struct OperatorWords<'a> {
    pub control: Option<&'a str>,
    pub metrics: Option<usize>,
    pub log_file: Option<&'a str>,
}

pub(crate) fn operator_found<'a>(matches: &ArgMatches<'a>) -> OperatorWords<'a>
    ensures { operator_wanted result ≡ operator_among (rows_of (found_of matches.now)) }
{
    OperatorWords {
        control: text_option(matches, "CONTROL"),
        metrics: number_option(matches, "METRICS"),
        log_file: text_option(matches, "LOG_FILE"),
    }
}

/// Describes `control` to clap.
pub(crate) fn control<'a>(alloc: Global) -> Result<Command<'a>, AllocError>
    ensures { IfOk result (IsShaped control) }
{
    let named = Command::new(alloc, "control")
        .about(help::CONTROL)
        .after_help(help::CONTROL_AFTER);
    let with_path = with_option(Ok(named), path(alloc));
    with_option(with_path, request(alloc))
}

pub(crate) fn control_path<'a>(alloc: Global) -> Arg<'a>
    ensures rule { rule_of result ≡ control_rule }
    ensures local { result.global ≡ false }
{
    text(alloc, "CONTROL", "control", help::CONTROL_PATH).value_name("PATH")
}

pub(crate) fn metrics<'a>(alloc: Global) -> Arg<'a>
    ensures rule { rule_of result ≡ metrics_rule }
    ensures local { result.global ≡ false }
{
    number(alloc, "METRICS", "metrics", help::METRICS, 0, MOST_PORT).value_name("PORT")
}

pub(crate) fn log_file<'a>(alloc: Global) -> Arg<'a>
    ensures rule { rule_of result ≡ log_file_rule }
    ensures local { result.global ≡ false }
{
    text(alloc, "LOG_FILE", "log-file", help::LOG_FILE).value_name("FILE")
}

fn path<'a>(alloc: Global) -> Arg<'a>
    ensures rule { rule_of result ≡ path_rule }
    ensures local { result.global ≡ false }
{
    Arg::new(alloc, "PATH")
        .help(help::PATH)
        .required(true)
        .value_parser(ValueParser::NonEmptyString)
        .action(ArgAction::Set)
}

// The words of a request.
fn request<'a>(alloc: Global) -> Arg<'a>
    ensures rule { rule_of result ≡ request_rule }
    ensures local { result.global ≡ false }
{
    user(alloc).value_name("WORD").help(help::REQUEST)
}
