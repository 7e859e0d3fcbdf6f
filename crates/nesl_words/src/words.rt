//! The words of the command line.

ghost use Rattle.std.specs.Prelude.{◌≡◌, IfNone, IfOk, IfSome, codes, drop, false, map, option_map, true};
ghost use Rattle.clap.specs.Walk.{rule_of, rows_of, Rule};
ghost use Rattle.clap.specs.Matches.{found_of};
ghost use Rattle.clap.specs.Simple.{App, Shape, subcommand_of, with_subcommand};
ghost use Rattle.clap.specs.Words.{app_of, fault_of, FailsBy, is_simple, is_simple_and_free, subcommand_rows_of};
ghost use Rattle.nesl_words.specs.Shapes.{IsShaped, with_rule};
ghost use Rattle.nesl_words.specs.Rules.{batch, bind_rule, check_rule, connections_rule, csv_rule, files_rule};
ghost use Rattle.nesl_words.specs.Rules.{first_line_rule, further_users_rule, heap_rule, hints_rule, idle_rule};
ghost use Rattle.nesl_words.specs.Rules.{keep_rule, keys, keys_file_rule, lessons_rule, log_rule, number_rule};
ghost use Rattle.nesl_words.specs.Rules.{out_rule, page_rule, port_rule, program, renew_rule, repl, serve, stats_rule};
ghost use Rattle.nesl_words.specs.Rules.{user_header_rule, users_file_rule, users_rule, web_host_rule, web_rule};
ghost use Rattle.nesl_words.specs.Rules.{text_rule, without_subcommands, workers_rule};
ghost use Rattle.nesl_words.specs.Words.{batch_among, faults_of, is_among, is_keep, keys_among, limits_among};
ghost use Rattle.nesl_words.specs.Words.{number_among, prompt_among, service_among, task_among, task_in, task_of};
ghost use Rattle.nesl_words.specs.Words.{text_among, users_among, users_in, users_of};
ghost use Rattle.nesl_words.specs.Wanted.{keys_wanted, prompt_wanted, service_wanted, task_wanted, users_wanted};

use crate::control_words::{
    OperatorWords, control, control_path, log_file, metrics, operator_found,
};
use crate::grade_words::{Grading, grade, grading_found};
use crate::help;
use crate::keep_words::{Keep, keep_command, keep_listed, word_named};
use crate::limit_words::{LimitWords, NO_LIMITS, limits_found, with_limits};
use clap::builder::ValueParser;
use clap::{Arg, ArgAction, ArgMatches, Command, Error};
use std::alloc::{AllocError, Global};

/// The program's version, which `--version` prints. scripts/package gives the package the same one.
pub const VERSION: &str = "1.0.0";

/// The kit with which the program is proved. scripts/check_promises compares it with docs/PROMISES.md.
pub const KIT: &str = "rattle-kit-13f";

/// The most seconds for a line to arrive, or for an answer to be taken.
const MOST_SECONDS: u64 = 86_400;

/// The greatest port.
pub(crate) const MOST_PORT: u64 = 65_535;

/// The most helpers of a service.
const MOST_WORKERS: u64 = 64;

/// The most connections after which a service ends.
const MOST_CONNECTIONS: u64 = 1_000_000;

/// The fewest bytes of a heap.
const LEAST_HEAP: u64 = 16;

/// The most bytes of a heap.
const MOST_HEAP: u64 = 1_073_741_824;

/// What the command line asks for.
#[derive(Clone, Copy)]
pub enum Task<'a> {
    Batch(BatchWords),
    Costs(CostsWords<'a>),
    Service(Service<'a>),
    Keys(NewKeys<'a>),
    Prompt(PromptWords),
    /// A look at kept sessions, of the one user that is named or of all.
    Keep(Keep<'a>),
    /// A request of an operator, whose words are the users, to the service that is reached by this path.
    Request(Option<&'a str>),
    /// A grading. Its submissions are the users.
    Grade(Grading<'a>),
}

/// The options of `batch`.
#[derive(Clone, Copy)]
pub struct BatchWords {
    /// The size in bytes of the heap for evaluation, if there is to be one.
    pub heap: Option<usize>,
    /// Whether hints are written below faults.
    pub is_hinted: bool,
    /// Those of each session.
    pub limits: LimitWords,
}

/// The options of `batch --csv`, which writes the costs of a batch.
#[derive(Clone, Copy)]
pub struct CostsWords<'a> {
    /// The values of `n`, separated by commas.
    pub values: &'a str,
    /// As those of a batch.
    pub heap: Option<usize>,
    pub limits: LimitWords,
}

/// The options of `repl`.
#[derive(Clone, Copy)]
pub struct PromptWords {
    /// Whether hints are written even if standard output is no terminal.
    pub is_hinted: bool,
    /// Whether files may be opened even if standard input is no terminal.
    pub has_files: bool,
    /// Those of its session.
    pub limits: LimitWords,
}

/// The options of `serve`. `workers` is the number of helpers, and `connections` the number of connections after which
/// the service ends. `web` is the port of the page, and `web_host` a further name by which it may be requested.
/// `lessons` is a folder of lessons that the page shows in place of ours.
///
/// The times are in seconds. A line has `idle` seconds to arrive whole, and so has each piece of an answer to be taken.
/// The first line of a connection has `first_line` seconds. A connection that takes longer is ended. With `is_logged`
/// each connection is logged, and `stats` is the file for the counters. `keep` is the folder where sessions are kept.
/// `keys` is the file of the users' keys, and `user_header` the name of the header that names the user of a browser.
/// `bind` is the address where it listens, if that isn't this machine's own alone, and `limits` are those of each
/// session. `users` is a file that lists further users. With `is_check` the service ends before it listens. `operator`
/// says where an operator reaches it.
#[derive(Clone, Copy)]
pub struct Service<'a> {
    pub port: Option<usize>,
    pub workers: Option<usize>,
    pub connections: Option<usize>,
    pub web: Option<usize>,
    pub web_host: Option<&'a str>,
    pub lessons: Option<&'a str>,
    pub idle: Option<usize>,
    pub first_line: Option<usize>,
    pub is_logged: bool,
    pub stats: Option<&'a str>,
    pub keep: Option<&'a str>,
    pub keys: Option<&'a str>,
    pub user_header: Option<&'a str>,
    pub bind: Option<&'a str>,
    pub limits: LimitWords,
    pub users: Option<&'a str>,
    pub is_check: bool,
    pub operator: OperatorWords<'a>,
}

/// The options of `keys`. `file` lists the users, and with `is_renewed` it is there already. `page` is the address of
/// the page.
#[derive(Clone, Copy)]
pub struct NewKeys<'a> {
    pub file: Option<&'a str>,
    pub is_renewed: bool,
    pub page: Option<&'a str>,
}

/// What the command line asks for, and for which users, in order. Those of a grading are its submissions.
#[derive(Drop)]
pub struct Wanted<'a> {
    pub users: Vec<&'a str>,
    pub task: Task<'a>,
}

/// Reads the words of the command line, the program's name first. Fails if they are refused, or if they ask for help or
/// for the version.
pub fn read<'a>(alloc: Global, words: &'a [&'a str]) -> Result<Wanted<'a>, Error>
    ensures users { IfOk result (λ wanted. users_wanted wanted ≡ users_of (map (λ word. word.now) words.entry.now)) }
    ensures task { IfOk result (λ wanted. task_wanted wanted.task ≡ task_of (map (λ word. word.now) words.entry.now)) }
    ensures faults { FailsBy (faults_of (map (λ word. word.now) words.entry.now)) result }
{
    match from_keep(words) {
        Some(words) => read_by(alloc, keep_command(alloc), words),
        None => read_by(alloc, command(alloc), words),
    }
}

// Returns the words from `keep` on, if that is the word after the program's name. It has commands of its own.
fn from_keep<'a>(words: &'a [&'a str]) -> Option<&'a [&'a str]>
    ensures some { IfSome result (λ rest. (is_keep (map (λ word. word.now) words.entry.now) ≡ true)
        × (map (λ word. word.now) rest.now ≡ drop 1 (map (λ word. word.now) words.entry.now))) }
    ensures none { IfNone result (is_keep (map (λ word. word.now) words.entry.now) ≡ false) }
{
    match words.get(1) {
        Some(word) if *word == "keep" => Some(&words[1..]),
        _ => None,
    }
}

// Reads words by a command, if memory suffices for that.
fn read_by<'a>(
    alloc: Global,
    command: Result<Command<'a>, AllocError>,
    words: &'a [&'a str],
) -> Result<Wanted<'a>, Error>
    ensures users { (app : App) → is_simple app ≡ true → IfOk command.entry (λ command. app_of command ≡ app)
        → IfOk result (λ wanted. users_wanted wanted
        ≡ users_in (subcommand_of app (map (λ word. word.now) words.entry.now))) }
    ensures task { (app : App) → is_simple app ≡ true → IfOk command.entry (λ command. app_of command ≡ app)
        → IfOk result (λ wanted. task_wanted wanted.task
        ≡ task_in (subcommand_of app (map (λ word. word.now) words.entry.now))) }
    ensures faults { (app : App) → is_simple_and_free app ≡ true → IfOk command.entry (λ command. app_of command ≡ app)
        → FailsBy (fault_of app (map (λ word. word.now) words.entry.now)) result }
{
    let matches = command?.try_get_matches_from(words)?;
    Ok(wanted_in(alloc, &matches)?)
}

/// An example of the subcommand's words, which is printed after an error. The first word is the program's name.
pub fn example(words: &[&str]) -> &'static str {
    match words.get(1) {
        Some(word) if *word == "serve" => help::SERVE_EXAMPLE,
        Some(word) if *word == "repl" => help::REPL_EXAMPLE,
        Some(word) if *word == "keys" => help::KEYS_EXAMPLE,
        Some(word) if *word == "control" => help::CONTROL_EXAMPLE,
        Some(word) if *word == "keep" => help::KEPT_EXAMPLE,
        Some(word) if *word == "grade" => help::GRADE_EXAMPLE,
        _ => help::BATCH_EXAMPLE,
    }
}

// Describes the command line to clap.
fn command<'a>(alloc: Global) -> Result<Command<'a>, AllocError>
    ensures { IfOk result (λ command. app_of command ≡ program) }
{
    let with_batch = with_subcommand(Ok(without_subcommands(alloc)), batch(alloc));
    let with_serve = with_subcommand(with_batch, serve(alloc));
    let with_repl = with_subcommand(with_serve, repl(alloc));
    let with_keys = with_subcommand(with_repl, keys(alloc));
    let with_control = with_subcommand(with_keys, control(alloc));
    let with_keep = with_subcommand(with_control, keep_listed(alloc));
    with_subcommand(with_keep, grade(alloc))
}

// The program without its subcommands.
fn without_subcommands<'a>(alloc: Global) -> Command<'a>
    ensures { app_of result ≡ without_subcommands }
{
    Command::new(alloc, "pazkindu")
        .version(VERSION)
        .about(help::ABOUT)
        .after_help(help::PROGRAM_AFTER)
        .subcommand_required(true)
        .arg_required_else_help(true)
}

/// Adds a subcommand to a program, if memory suffices for both.
pub(crate) fn with_subcommand<'a>(
    program: Result<Command<'a>, AllocError>,
    subcommand: Result<Command<'a>, AllocError>,
) -> Result<Command<'a>, AllocError>
    ensures { (app : App) (shape : Shape) → IfOk program.entry (λ command. app_of command ≡ app)
        → IfOk subcommand.entry (IsShaped shape) → IfOk result (λ command. app_of command ≡ with_subcommand app shape) }
{
    program?.subcommand(subcommand?)
}

/// Adds an option to a command, if memory suffices for it.
pub(crate) fn with_option<'a>(
    command: Result<Command<'a>, AllocError>,
    option: Arg<'a>,
) -> Result<Command<'a>, AllocError>
    requires { option.global ≡ false }
    ensures { (shape : Shape) (rule : Rule) → rule_of option.entry ≡ rule → IfOk command.entry (IsShaped shape)
        → IfOk result (IsShaped (with_rule shape rule)) }
{
    command?.arg(option)
}

fn batch<'a>(alloc: Global) -> Result<Command<'a>, AllocError>
    ensures { IfOk result (IsShaped batch) }
{
    let named = Command::new(alloc, "batch")
        .about(help::BATCH)
        .after_help(help::BATCH_AFTER);
    let with_heap = with_option(Ok(named), heap(alloc));
    let with_csv = with_option(with_heap, csv(alloc));
    let with_hints = with_option(with_csv, hints(alloc, help::HINTS));
    let with_bounds = with_limits(alloc, with_hints);
    with_option(with_bounds, user(alloc))
}

fn repl<'a>(alloc: Global) -> Result<Command<'a>, AllocError>
    ensures { IfOk result (IsShaped repl) }
{
    let named = Command::new(alloc, "repl")
        .about(help::REPL)
        .after_help(help::REPL_AFTER);
    let with_hints = with_option(Ok(named), hints(alloc, help::REPL_HINTS));
    let with_files = with_option(with_hints, files(alloc));
    with_limits(alloc, with_files)
}

fn serve<'a>(alloc: Global) -> Result<Command<'a>, AllocError>
    ensures { IfOk result (IsShaped serve) }
{
    let named = Command::new(alloc, "serve")
        .about(help::SERVE)
        .after_help(help::SERVE_AFTER);
    let with_port = with_option(Ok(named), port(alloc));
    let with_workers = with_option(with_port, workers(alloc));
    let with_connections = with_option(with_workers, connections(alloc));
    let with_web = with_option(with_connections, web(alloc));
    let with_web_host = with_option(with_web, web_host(alloc));
    let with_lessons = with_option(with_web_host, lessons(alloc));
    let with_idle = with_option(with_lessons, idle(alloc));
    let with_first_line = with_option(with_idle, first_line(alloc));
    let with_log = with_option(with_first_line, log(alloc));
    let with_stats = with_option(with_log, stats(alloc));
    let with_keep = with_option(with_stats, kept_folder(alloc));
    let with_keys = with_option(with_keep, keys_file(alloc));
    let with_header = with_option(with_keys, user_header(alloc));
    let with_bind = with_option(with_header, bind(alloc));
    let with_bounds = with_limits(alloc, with_bind);
    let with_users = with_option(with_bounds, users_file(alloc));
    let with_check = with_option(with_users, check(alloc));
    let with_control = with_option(with_check, control_path(alloc));
    let with_metrics = with_option(with_control, metrics(alloc));
    let with_log_file = with_option(with_metrics, log_file(alloc));
    with_option(with_log_file, further_users(alloc))
}

fn keys<'a>(alloc: Global) -> Result<Command<'a>, AllocError>
    ensures { IfOk result (IsShaped keys) }
{
    let named = Command::new(alloc, "keys")
        .about(help::KEYS)
        .after_help(help::KEYS_AFTER);
    let with_out = with_option(Ok(named), out(alloc));
    let with_renew = with_option(with_out, renew(alloc));
    let with_page = with_option(with_renew, page(alloc));
    with_option(with_page, user(alloc))
}

fn port<'a>(alloc: Global) -> Arg<'a>
    ensures rule { rule_of result ≡ port_rule }
    ensures local { result.global ≡ false }
{
    number(alloc, "PORT", "port", help::PORT, 0, MOST_PORT).required(true)
}

fn workers<'a>(alloc: Global) -> Arg<'a>
    ensures rule { rule_of result ≡ workers_rule }
    ensures local { result.global ≡ false }
{
    number(alloc, "WORKERS", "workers", help::WORKERS, 0, MOST_WORKERS).required(true)
}

fn connections<'a>(alloc: Global) -> Arg<'a>
    ensures rule { rule_of result ≡ connections_rule }
    ensures local { result.global ≡ false }
{
    number(
        alloc,
        "CONNECTIONS",
        "connections",
        help::CONNECTIONS,
        1,
        MOST_CONNECTIONS,
    )
}

fn web<'a>(alloc: Global) -> Arg<'a>
    ensures rule { rule_of result ≡ web_rule }
    ensures local { result.global ≡ false }
{
    number(alloc, "WEB", "web", help::WEB, 0, MOST_PORT).value_name("PORT")
}

fn web_host<'a>(alloc: Global) -> Arg<'a>
    ensures rule { rule_of result ≡ web_host_rule }
    ensures local { result.global ≡ false }
{
    text(alloc, "HOST", "web-host", help::WEB_HOST).value_name("NAME")
}

fn lessons<'a>(alloc: Global) -> Arg<'a>
    ensures rule { rule_of result ≡ lessons_rule }
    ensures local { result.global ≡ false }
{
    text(alloc, "LESSONS", "lessons", help::LESSONS).value_name("FOLDER")
}

fn idle<'a>(alloc: Global) -> Arg<'a>
    ensures rule { rule_of result ≡ idle_rule }
    ensures local { result.global ≡ false }
{
    number(alloc, "SECONDS", "idle", help::IDLE, 1, MOST_SECONDS)
}

fn first_line<'a>(alloc: Global) -> Arg<'a>
    ensures rule { rule_of result ≡ first_line_rule }
    ensures local { result.global ≡ false }
{
    number(
        alloc,
        "FIRST",
        "first-line",
        help::FIRST_LINE,
        1,
        MOST_SECONDS,
    )
    .value_name("SECONDS")
}

fn log<'a>(alloc: Global) -> Arg<'a>
    ensures rule { rule_of result ≡ log_rule }
    ensures local { result.global ≡ false }
{
    Arg::new(alloc, "LOG")
        .long("log")
        .help(help::LOG)
        .action(ArgAction::SetTrue)
}

fn stats<'a>(alloc: Global) -> Arg<'a>
    ensures rule { rule_of result ≡ stats_rule }
    ensures local { result.global ≡ false }
{
    text(alloc, "FILE", "stats", help::STATS)
}

fn kept_folder<'a>(alloc: Global) -> Arg<'a>
    ensures rule { rule_of result ≡ keep_rule }
    ensures local { result.global ≡ false }
{
    text(alloc, "FOLDER", "keep", help::KEEP)
}

fn keys_file<'a>(alloc: Global) -> Arg<'a>
    ensures rule { rule_of result ≡ keys_file_rule }
    ensures local { result.global ≡ false }
{
    text(alloc, "KEYS", "keys", help::KEYS_FILE).value_name("FILE")
}

fn user_header<'a>(alloc: Global) -> Arg<'a>
    ensures rule { rule_of result ≡ user_header_rule }
    ensures local { result.global ≡ false }
{
    text(alloc, "HEADER", "user-header", help::USER_HEADER).value_name("NAME")
}

fn bind<'a>(alloc: Global) -> Arg<'a>
    ensures rule { rule_of result ≡ bind_rule }
    ensures local { result.global ≡ false }
{
    text(alloc, "BIND", "bind", help::BIND).value_name("ADDRESS")
}

fn users_file<'a>(alloc: Global) -> Arg<'a>
    ensures rule { rule_of result ≡ users_file_rule }
    ensures local { result.global ≡ false }
{
    text(alloc, "USERS", "users", help::USERS_FILE).value_name("FILE")
}

fn check<'a>(alloc: Global) -> Arg<'a>
    ensures rule { rule_of result ≡ check_rule }
    ensures local { result.global ≡ false }
{
    Arg::new(alloc, "CHECK")
        .long("check")
        .help(help::CHECK)
        .action(ArgAction::SetTrue)
}

fn csv<'a>(alloc: Global) -> Arg<'a>
    ensures rule { rule_of result ≡ csv_rule }
    ensures local { result.global ≡ false }
{
    text(alloc, "VALUES", "csv", help::CSV)
}

fn heap<'a>(alloc: Global) -> Arg<'a>
    ensures rule { rule_of result ≡ heap_rule }
    ensures local { result.global ≡ false }
{
    number(alloc, "BYTES", "heap", help::HEAP, LEAST_HEAP, MOST_HEAP)
}

fn hints<'a>(alloc: Global, help: &'a str) -> Arg<'a>
    ensures rule { rule_of result ≡ hints_rule }
    ensures local { result.global ≡ false }
{
    Arg::new(alloc, "HINTS")
        .long("hints")
        .help(help)
        .action(ArgAction::SetTrue)
}

fn files<'a>(alloc: Global) -> Arg<'a>
    ensures rule { rule_of result ≡ files_rule }
    ensures local { result.global ≡ false }
{
    Arg::new(alloc, "FILES")
        .long("files")
        .help(help::REPL_FILES)
        .action(ArgAction::SetTrue)
}

fn out<'a>(alloc: Global) -> Arg<'a>
    ensures rule { rule_of result ≡ out_rule }
    ensures local { result.global ≡ false }
{
    text(alloc, "FILE", "out", help::OUT).required(true)
}

fn renew<'a>(alloc: Global) -> Arg<'a>
    ensures rule { rule_of result ≡ renew_rule }
    ensures local { result.global ≡ false }
{
    Arg::new(alloc, "RENEW")
        .long("renew")
        .help(help::RENEW)
        .action(ArgAction::SetTrue)
}

fn page<'a>(alloc: Global) -> Arg<'a>
    ensures rule { rule_of result ≡ page_rule }
    ensures local { result.global ≡ false }
{
    text(alloc, "ADDRESS", "page", help::PAGE)
}

pub(crate) fn user<'a>(alloc: Global) -> Arg<'a>
    ensures rule { rule_of result ≡ users_rule }
    ensures local { result.global ≡ false }
{
    Arg::new(alloc, "USER")
        .help(help::USERS)
        .required(true)
        .num_args(1..)
        .action(ArgAction::Append)
}

// Users, beside those that a file lists.
fn further_users<'a>(alloc: Global) -> Arg<'a>
    ensures rule { rule_of result ≡ further_users_rule }
    ensures local { result.global ≡ false }
{
    user(alloc).required(false)
}

/// An option with a number from `least` to `most`, at most once.
pub(crate) fn number<'a>(
    alloc: Global,
    name: &'a str,
    long: &'a str,
    help: &'a str,
    least: u64,
    most: u64,
) -> Arg<'a>
    ensures rule { rule_of result ≡ number_rule name.now long.now least most }
    ensures local { result.global ≡ false }
{
    Arg::new(alloc, name)
        .long(long)
        .help(help)
        .value_parser(ValueParser::unsigned(least, most))
        .action(ArgAction::Set)
}

/// An option with a text, at most once.
pub(crate) fn text<'a>(alloc: Global, name: &'a str, long: &'a str, help: &'a str) -> Arg<'a>
    ensures rule { rule_of result ≡ text_rule name.now long.now }
    ensures local { result.global ≡ false }
{
    Arg::new(alloc, name)
        .long(long)
        .help(help)
        .action(ArgAction::Set)
}

// Returns what was found on the command line.
fn wanted_in<'a>(alloc: Global, matches: &ArgMatches<'a>) -> Result<Wanted<'a>, AllocError>
    ensures users { IfOk result (λ wanted. users_wanted wanted ≡ users_in (subcommand_rows_of matches.now)) }
    ensures task { IfOk result (λ wanted. task_wanted wanted.task ≡ task_in (subcommand_rows_of matches.now)) }
{
    match matches.subcommand() {
        Some((name, inner)) => {
            let users = user_names(alloc, inner)?;
            let task = task_found(name, inner);
            Ok(Wanted { users, task })
        }
        None => Ok(Wanted {
            users: Vec::new(alloc),
            task: Task::Batch(BatchWords {
                heap: None,
                is_hinted: false,
                limits: NO_LIMITS,
            }),
        }),
    }
}

fn task_found<'a>(name: &str, matches: &ArgMatches<'a>) -> Task<'a>
    ensures { task_wanted result ≡ task_among name.now (rows_of (found_of matches.now)) }
{
    if name == "serve" {
        return Task::Service(service_found(matches));
    }
    if name == "repl" {
        return Task::Prompt(prompt_found(matches));
    }
    if name == "keys" {
        return Task::Keys(keys_found(matches));
    }
    if name == "control" {
        return Task::Request(text_option(matches, "PATH"));
    }
    if name == "grade" {
        return Task::Grade(grading_found(matches));
    }
    match word_named(name) {
        Some(word) => Task::Keep(Keep {
            word,
            folder: text_option(matches, "FOLDER"),
        }),
        None => batch_found(matches),
    }
}

fn batch_found<'a>(matches: &ArgMatches<'a>) -> Task<'a>
    ensures { task_wanted result ≡ batch_among (text_among (codes "VALUES") (rows_of (found_of matches.now)))
        (number_among (codes "BYTES") (rows_of (found_of matches.now)))
        (is_among (codes "HINTS") (rows_of (found_of matches.now)))
        (limits_among (rows_of (found_of matches.now))) }
{
    let heap = number_option(matches, "BYTES");
    let is_hinted = has_flag(matches, "HINTS");
    let limits = limits_found(matches);
    match text_option(matches, "VALUES") {
        Some(values) => Task::Costs(CostsWords {
            values,
            heap,
            limits,
        }),
        None => Task::Batch(BatchWords {
            heap,
            is_hinted,
            limits,
        }),
    }
}

fn prompt_found(matches: &ArgMatches<'_>) -> PromptWords
    ensures { prompt_wanted result ≡ prompt_among (rows_of (found_of matches.now)) }
{
    PromptWords {
        is_hinted: has_flag(matches, "HINTS"),
        has_files: has_flag(matches, "FILES"),
        limits: limits_found(matches),
    }
}

fn service_found<'a>(matches: &ArgMatches<'a>) -> Service<'a>
    ensures { service_wanted result ≡ service_among (rows_of (found_of matches.now)) }
{
    Service {
        port: number_option(matches, "PORT"),
        workers: number_option(matches, "WORKERS"),
        connections: number_option(matches, "CONNECTIONS"),
        web: number_option(matches, "WEB"),
        web_host: text_option(matches, "HOST"),
        lessons: text_option(matches, "LESSONS"),
        idle: number_option(matches, "SECONDS"),
        first_line: number_option(matches, "FIRST"),
        is_logged: has_flag(matches, "LOG"),
        stats: text_option(matches, "FILE"),
        keep: text_option(matches, "FOLDER"),
        keys: text_option(matches, "KEYS"),
        user_header: text_option(matches, "HEADER"),
        bind: text_option(matches, "BIND"),
        limits: limits_found(matches),
        users: text_option(matches, "USERS"),
        is_check: has_flag(matches, "CHECK"),
        operator: operator_found(matches),
    }
}

fn keys_found<'a>(matches: &ArgMatches<'a>) -> NewKeys<'a>
    ensures { keys_wanted result ≡ keys_among (rows_of (found_of matches.now)) }
{
    NewKeys {
        file: text_option(matches, "FILE"),
        is_renewed: has_flag(matches, "RENEW"),
        page: text_option(matches, "ADDRESS"),
    }
}

pub(crate) fn number_option(matches: &ArgMatches<'_>, name: &str) -> Option<usize>
    ensures { result ≡ number_among name.now (rows_of (found_of matches.now)) }
{
    matches.get_one(name)
}

pub(crate) fn text_option<'a>(matches: &ArgMatches<'a>, name: &str) -> Option<&'a str>
    ensures { option_map (λ text. text.now) result ≡ text_among name.now (rows_of (found_of matches.now)) }
{
    matches.get_str(name)
}

pub(crate) fn has_flag(matches: &ArgMatches<'_>, name: &str) -> bool
    ensures { result ≡ is_among name.now (rows_of (found_of matches.now)) }
{
    match matches.get_strs(name) {
        Some(texts) => match texts.first() {
            Some(text) => *text == "true",
            None => false,
        },
        None => false,
    }
}

fn user_names<'a>(alloc: Global, matches: &ArgMatches<'a>) -> Result<Vec<&'a str>, AllocError>
    ensures { IfOk result (λ users. map (λ user. user.now) users.items
        ≡ users_among (rows_of (found_of matches.now))) }
{
    match matches.get_strs("USER") {
        Some(names) => Vec::from_slice(alloc, names),
        None => Ok(Vec::new(alloc)),
    }
}
