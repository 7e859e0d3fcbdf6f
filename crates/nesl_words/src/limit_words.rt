//! The words for the limits of a session.
ghost use Rattle.std.specs.Prelude.{◌≡◌, IfOk, false};
ghost use Rattle.clap.specs.Walk.{rule_of, rows_of};
ghost use Rattle.clap.specs.Matches.{found_of};
ghost use Rattle.clap.specs.Simple.{Shape};
ghost use Rattle.nesl_words.specs.Rules.{elements_rule, line_work_rule, session_work_rule, transcript_bytes_rule};
ghost use Rattle.nesl_words.specs.Rules.{transcript_lines_rule};
ghost use Rattle.nesl_words.specs.Shapes.{IsShaped, with_limits};
ghost use Rattle.nesl_words.specs.Wanted.{limits_wanted};
ghost use Rattle.nesl_words.specs.Words.{limits_among};

use crate::help;
use crate::words::{number, number_option, with_option};
use clap::{Arg, ArgMatches, Command};
use std::alloc::{AllocError, Global};

/// The least work of a session by words, which is what it always has. So the page needs no other bar for what is left.
const LEAST_SESSION_WORK: u64 = 100_000_000;

/// The greatest limits of a session by words. With that of work a line takes minutes.
const MOST_LINE_WORK: u64 = 1_000_000_000;

const MOST_SESSION_WORK: u64 = 1_000_000_000_000_000;

const MOST_ELEMENTS: u64 = 1_000_000_000;

const MOST_LINES: u64 = 1_000_000;

const MOST_LINE_BYTES: u64 = 1_073_741_824;

/// The limits of each session by words, in units of work, elements, lines and bytes. Those that aren't given are as
/// they always are.
#[derive(Clone, Copy)]
pub struct LimitWords {
    pub line_work: Option<usize>,
    pub session_work: Option<usize>,
    pub elements: Option<usize>,
    pub transcript_lines: Option<usize>,
    pub transcript_bytes: Option<usize>,
}

/// No limits by words.
pub(crate) const NO_LIMITS: LimitWords = LimitWords {
    line_work: None,
    session_work: None,
    elements: None,
    transcript_lines: None,
    transcript_bytes: None,
};

/// Adds the options for the limits of each session to a command, if memory suffices for them.
pub(crate) fn with_limits<'a>(
    alloc: Global,
    command: Result<Command<'a>, AllocError>,
) -> Result<Command<'a>, AllocError>
    ensures { (shape : Shape) → IfOk command.entry (IsShaped shape) → IfOk result (IsShaped (with_limits shape)) }
{
    let with_line_work = with_option(command, line_work(alloc));
    let with_session_work = with_option(with_line_work, session_work(alloc));
    let with_elements = with_option(with_session_work, elements(alloc));
    let with_lines = with_option(with_elements, transcript_lines(alloc));
    with_option(with_lines, transcript_bytes(alloc))
}

fn line_work<'a>(alloc: Global) -> Arg<'a>
    ensures rule { rule_of result ≡ line_work_rule }
    ensures local { result.global ≡ false }
{
    number(
        alloc,
        "LINE_WORK",
        "line-work",
        help::LINE_WORK,
        1,
        MOST_LINE_WORK,
    )
    .value_name("WORK")
}

fn session_work<'a>(alloc: Global) -> Arg<'a>
    ensures rule { rule_of result ≡ session_work_rule }
    ensures local { result.global ≡ false }
{
    number(
        alloc,
        "SESSION_WORK",
        "session-work",
        help::SESSION_WORK,
        LEAST_SESSION_WORK,
        MOST_SESSION_WORK,
    )
    .value_name("WORK")
}

fn elements<'a>(alloc: Global) -> Arg<'a>
    ensures rule { rule_of result ≡ elements_rule }
    ensures local { result.global ≡ false }
{
    number(
        alloc,
        "ELEMENTS",
        "elements",
        help::ELEMENTS,
        1,
        MOST_ELEMENTS,
    )
    .value_name("COUNT")
}

fn transcript_lines<'a>(alloc: Global) -> Arg<'a>
    ensures rule { rule_of result ≡ transcript_lines_rule }
    ensures local { result.global ≡ false }
{
    number(
        alloc,
        "LINES",
        "transcript-lines",
        help::TRANSCRIPT_LINES,
        1,
        MOST_LINES,
    )
    .value_name("COUNT")
}

fn transcript_bytes<'a>(alloc: Global) -> Arg<'a>
    ensures rule { rule_of result ≡ transcript_bytes_rule }
    ensures local { result.global ≡ false }
{
    number(
        alloc,
        "LINE_BYTES",
        "transcript-bytes",
        help::TRANSCRIPT_BYTES,
        1,
        MOST_LINE_BYTES,
    )
    .value_name("BYTES")
}

/// Returns the limits that were found.
pub(crate) fn limits_found(matches: &ArgMatches<'_>) -> LimitWords
    ensures { limits_wanted result ≡ limits_among (rows_of (found_of matches.now)) }
{
    LimitWords {
        line_work: number_option(matches, "LINE_WORK"),
        session_work: number_option(matches, "SESSION_WORK"),
        elements: number_option(matches, "ELEMENTS"),
        transcript_lines: number_option(matches, "LINES"),
        transcript_bytes: number_option(matches, "LINE_BYTES"),
    }
}
