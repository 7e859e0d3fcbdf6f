//! The words of `grade`, which grades submissions by an exercise.

ghost use Rattle.std.specs.Prelude.{◌≡◌, IfOk, false};
ghost use Rattle.clap.specs.Matches.{found_of};
ghost use Rattle.clap.specs.Walk.{rows_of, rule_of};
ghost use Rattle.nesl_words.specs.Shapes.{IsShaped};
ghost use Rattle.nesl_words.specs.Wanted.{grading_wanted, report_wanted};
ghost use Rattle.nesl_words.specs.Rules.{csv_report_rule, exercise_rule, grade, html_rule, jobs_rule};
ghost use Rattle.nesl_words.specs.Rules.{json_report_rule, junit_report_rule, kept_rule, submissions_rule, try_rule};
ghost use Rattle.nesl_words.specs.Words.{grading_among, report_among};

use crate::help;
use crate::words::{has_flag, number, number_option, text, text_option, with_option};
use clap::builder::ValueParser;
use clap::{Arg, ArgAction, ArgMatches, Command};
use std::alloc::{AllocError, Global};

/// The most threads of a grading.
const MOST_JOBS: u64 = 64;

/// How the grades of submissions are written.
#[derive(Clone, Copy, PartialEq, Eq, Debug)]
pub enum Report {
    Table,
    Csv,
    Json,
    Junit,
}

/// The options of `grade`: the path of the exercise, and how the grades are written. `html` is a folder for pages,
/// `kept` one of kept sessions, which are graded as well, and `jobs` the number of threads. With `is_try` the
/// exercise's own solution is graded, too.
#[derive(Clone, Copy)]
pub struct Grading<'a> {
    pub exercise: Option<&'a str>,
    pub report: Report,
    pub html: Option<&'a str>,
    pub kept: Option<&'a str>,
    pub jobs: Option<usize>,
    pub is_try: bool,
}

/// Describes `grade` to clap.
pub(crate) fn grade<'a>(alloc: Global) -> Result<Command<'a>, AllocError>
    ensures { IfOk result (IsShaped grade) }
{
    let named = Command::new(alloc, "grade")
        .about(help::GRADE)
        .after_help(help::GRADE_AFTER);
    let with_csv = with_option(Ok(named), csv(alloc));
    let with_json = with_option(with_csv, json(alloc));
    let with_junit = with_option(with_json, junit(alloc));
    let with_html = with_option(with_junit, html(alloc));
    let with_kept = with_option(with_html, kept(alloc));
    let with_jobs = with_option(with_kept, jobs(alloc));
    let with_try = with_option(with_jobs, solution(alloc));
    let with_exercise = with_option(with_try, exercise(alloc));
    with_option(with_exercise, submissions(alloc))
}

fn csv<'a>(alloc: Global) -> Arg<'a>
    ensures rule { rule_of result ≡ csv_report_rule }
    ensures local { result.global ≡ false }
{
    Arg::new(alloc, "CSV")
        .long("csv")
        .help(help::GRADE_CSV)
        .action(ArgAction::SetTrue)
}

fn json<'a>(alloc: Global) -> Arg<'a>
    ensures rule { rule_of result ≡ json_report_rule }
    ensures local { result.global ≡ false }
{
    Arg::new(alloc, "JSON")
        .long("json")
        .help(help::GRADE_JSON)
        .action(ArgAction::SetTrue)
}

fn junit<'a>(alloc: Global) -> Arg<'a>
    ensures rule { rule_of result ≡ junit_report_rule }
    ensures local { result.global ≡ false }
{
    Arg::new(alloc, "JUNIT")
        .long("junit")
        .help(help::GRADE_JUNIT)
        .action(ArgAction::SetTrue)
}

fn html<'a>(alloc: Global) -> Arg<'a>
    ensures rule { rule_of result ≡ html_rule }
    ensures local { result.global ≡ false }
{
    text(alloc, "HTML", "html", help::GRADE_HTML).value_name("FOLDER")
}

fn kept<'a>(alloc: Global) -> Arg<'a>
    ensures rule { rule_of result ≡ kept_rule }
    ensures local { result.global ≡ false }
{
    text(alloc, "KEPT", "kept", help::GRADE_KEPT).value_name("FOLDER")
}

fn jobs<'a>(alloc: Global) -> Arg<'a>
    ensures rule { rule_of result ≡ jobs_rule }
    ensures local { result.global ≡ false }
{
    number(alloc, "JOBS", "jobs", help::GRADE_JOBS, 1, MOST_JOBS)
}

fn solution<'a>(alloc: Global) -> Arg<'a>
    ensures rule { rule_of result ≡ try_rule }
    ensures local { result.global ≡ false }
{
    Arg::new(alloc, "TRY")
        .long("try")
        .help(help::GRADE_TRY)
        .action(ArgAction::SetTrue)
}

fn exercise<'a>(alloc: Global) -> Arg<'a>
    ensures rule { rule_of result ≡ exercise_rule }
    ensures local { result.global ≡ false }
{
    Arg::new(alloc, "EXERCISE")
        .help(help::GRADE_EXERCISE)
        .required(true)
        .value_parser(ValueParser::NonEmptyString)
        .action(ArgAction::Set)
}

// The files and folders with submissions. They are found as users are.
fn submissions<'a>(alloc: Global) -> Arg<'a>
    ensures rule { rule_of result ≡ submissions_rule }
    ensures local { result.global ≡ false }
{
    Arg::new(alloc, "USER")
        .value_name("SUBMISSION")
        .help(help::GRADE_SUBMISSIONS)
        .num_args(1..)
        .action(ArgAction::Append)
}

/// Returns the grading that was found on the command line. Of several reports the first one of CSV, JSON and JUnit
/// is written.
pub(crate) fn grading_found<'a>(matches: &ArgMatches<'a>) -> Grading<'a>
    ensures { grading_wanted result ≡ grading_among (rows_of (found_of matches.now)) }
{
    let is_csv = has_flag(matches, "CSV");
    let is_json = has_flag(matches, "JSON");
    Grading {
        exercise: text_option(matches, "EXERCISE"),
        report: report_for(is_csv, is_json, has_flag(matches, "JUNIT")),
        html: text_option(matches, "HTML"),
        kept: text_option(matches, "KEPT"),
        jobs: number_option(matches, "JOBS"),
        is_try: has_flag(matches, "TRY"),
    }
}

fn report_for(is_csv: bool, is_json: bool, is_junit: bool) -> Report
    ensures { report_wanted result ≡ report_among is_csv is_json is_junit }
{
    if is_csv {
        Report::Csv
    } else if is_json {
        Report::Json
    } else if is_junit {
        Report::Junit
    } else {
        Report::Table
    }
}
