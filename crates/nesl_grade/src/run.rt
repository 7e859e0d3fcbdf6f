//! A whole grading: the exercise and the submissions are read, graded and reported on.
ghost use Rattle.std.specs.Prelude.{◌<◌};

use crate::adviser::Adviser;
use crate::class::{Extent, Grader};
use crate::details::refused_forms;
use crate::examined::Examined;
use crate::files::{Desk, FileFault, Found};
use crate::grade::examined_by;
use crate::kept::{KeptFault, kept_forms};
use nesl_exercise::exercise::{Exercise, parse_exercise};
use nesl_exercise::fault::ExerciseFault;
use nesl_gradebook::book::{Book, Submission, Submitted};
use nesl_gradebook::class_page::class_page_of;
use nesl_gradebook::csv_text::csv_of;
use nesl_gradebook::json::json_of;
use nesl_gradebook::junit::junit_of;
use nesl_gradebook::page::page_of;
use nesl_gradebook::table::table_of;
use nesl_session::limits::Limits;
use std::alloc::{AllocError, AllocFailed, Global};
use std::fs::{self, File};
use std::io::{Eprint, Print};
use std::rt::Files;
use std::thread::Threads;
use thiserror::Error;

/// The number of submissions that each thread grades before the progress is shown.
const SHARE: usize = 8;

/// How the grades are written.
#[derive(Clone, Copy, PartialEq, Eq, Debug)]
pub enum ReportLayout {
    Table,
    Csv,
    Json,
    Junit,
}

/// What is to be graded, and how.
#[derive(Clone, Copy)]
pub struct GradeOrder<'a> {
    pub limits: Limits,
    /// The path of the exercise.
    pub exercise: &'a str,
    /// The paths of submissions, or of folders of them.
    pub paths: &'a [&'a str],
    pub report: ReportLayout,
    /// The new folder for pages, if there are to be pages.
    pub html: Option<&'a str>,
    pub threads: usize,
    /// Whether the exercise's own solution is graded, too.
    pub is_try: bool,
    /// Whether the number of submissions that are graded is shown on standard error.
    pub shows_progress: bool,
}

/// The file of the kept session of a user.
#[derive(Drop)]
pub struct KeptFile {
    pub user: String,
    pub bytes: Vec<u8>,
}

/// The kept sessions of a class, and the number of those that could not be read, which is reported already.
#[derive(Drop)]
pub struct KeptClass {
    pub files: Vec<KeptFile>,
    pub unread: u64,
}

/// Why a grading ended early.
#[derive(Clone, Copy, PartialEq, Eq, Debug, Error)]
pub enum GradeFault {
    /// What is wrong is reported already.
    #[error("grade: nothing was graded")]
    Reported,
    #[error("grade: some files could not be read, and weren't graded")]
    Unread,
    #[error("grade: no submission")]
    NoSubmission,
    #[error("grade: write fault")]
    Write,
    #[error("grade: no memory")]
    Memory,
}

impl GradeFault {
    /// The exit status.
    pub fn status(&self) -> u8 {
        match self {
            GradeFault::NoSubmission => 2,
            GradeFault::Reported | GradeFault::Unread | GradeFault::Write | GradeFault::Memory => 1,
        }
    }
}

impl From<AllocError> for GradeFault {
    fn from(_error: AllocError) -> Self {
        GradeFault::Memory
    }
}

impl<T: Drop> From<AllocFailed<T>> for GradeFault {
    fn from(_error: AllocFailed<T>) -> Self {
        GradeFault::Memory
    }
}

/// Grades submissions by an exercise, and writes the report. Each submission that can be read is graded, and its grade
/// is reported, even if others can't be read. Kept sessions come after the submissions that the order names. If there
/// are to be pages, this needs a stack for accounts.
pub fn run<
    R: Files<File = File> + Print + Eprint + Threads + Alloc + Clone + Drop + Sync,
    A: Adviser + Sync,
>(
    rt: &R,
    alloc: Global,
    order: &GradeOrder<'_>,
    kept: KeptClass,
    adviser: &A,
) -> Result<(), GradeFault> {
    let desk = Desk { rt, alloc };
    let exercise = read_exercise(&desk, order.exercise)?;
    require_usable(&desk, order, &exercise, adviser)?;
    let mut found = Found {
        submissions: Vec::new(alloc),
        unread: kept.unread,
    };
    find_all(&desk, order, &exercise, &mut found)?;
    add_kept(&desk, kept.files, &mut found)?;
    require_some(&found)?;
    let grader = Grader {
        alloc,
        limits: order.limits,
        exercise: &exercise,
        adviser,
        extent: match order.html {
            Some(_) => Extent::Details,
            None => Extent::Outcomes,
        },
    };
    grade_all(rt, order, &grader, found.submissions.as_mut_slice())?;
    grader.explain_all(found.submissions.as_mut_slice())?;
    let book = Book {
        exercise: order.exercise.as_bytes(),
        tests: exercise.tests.as_slice(),
        submissions: found.submissions.as_slice(),
    };
    write_report(rt, alloc, order.report, &book)?;
    write_pages(&desk, order.html, &book)?;
    if found.unread > 0 {
        return Err(GradeFault::Unread);
    }
    Ok(())
}

fn read_exercise<R: Files<File = File> + Eprint + Alloc + Clone + Drop>(
    desk: &Desk<'_, R>,
    path: &str,
) -> Result<Exercise, GradeFault> {
    let text = match desk.read(path) {
        Ok(text) => text,
        Err(fault) => {
            desk.report(path, fault);
            return Err(GradeFault::Reported);
        }
    };
    match parse_exercise(desk.alloc, text.as_slice()) {
        Ok(exercise) => Ok(exercise),
        Err(ExerciseFault::Memory) => Err(GradeFault::Memory),
        Err(fault) => {
            let _ = eprintln!(desk.rt; "grade: {path}: {fault}").is_ok();
            Err(GradeFault::Reported)
        }
    }
}

// Fails if a session refuses what the exercise gives, or if a solution is to be graded and there is none.
fn require_usable<R: Files<File = File> + Eprint + Alloc + Clone + Drop, A: Adviser>(
    desk: &Desk<'_, R>,
    order: &GradeOrder<'_>,
    exercise: &Exercise,
    adviser: &A,
) -> Result<(), GradeFault> {
    if order.is_try && exercise.solution.is_empty() {
        let _ = eprintln!(desk.rt; "grade: {0}: it has no solution", order.exercise).is_ok();
        return Err(GradeFault::Reported);
    }
    let none = Submitted::Kept(Vec::new(desk.alloc));
    let Examined { limits, given, .. } = examined_by(desk.alloc, order.limits, exercise, &none)?;
    let alone = Examined {
        limits,
        given: Vec::new(desk.alloc),
        lines: given,
    };
    let refusals = refused_forms(desk.alloc, adviser, &alone)?;
    match refusals.first() {
        None => Ok(()),
        Some(refusal) => {
            desk.report_refusal(order.exercise, refusal)?;
            Err(GradeFault::Reported)
        }
    }
}

// Adds the submissions of the order.
fn find_all<R: Files<File = File> + Eprint + Alloc + Clone + Drop>(
    desk: &Desk<'_, R>,
    order: &GradeOrder<'_>,
    exercise: &Exercise,
    found: &mut Found,
) -> Result<(), GradeFault> {
    if order.is_try {
        let solution = solution_of(desk.alloc, exercise)?;
        found.submissions.push(solution)?;
    }
    for path in order.paths {
        desk.add(found, *path)?;
    }
    Ok(())
}

fn solution_of(alloc: Global, exercise: &Exercise) -> Result<Submission, AllocError> {
    let name = Vec::from_slice(alloc, b"solution")?;
    let text = Vec::from_slice(alloc, exercise.solution.as_slice())?;
    Ok(Submission::new(name, Submitted::Text(text)))
}

// Adds kept sessions. A file that isn't one is reported.
fn add_kept<R: Eprint>(
    desk: &Desk<'_, R>,
    files: Vec<KeptFile>,
    found: &mut Found,
) -> Result<(), AllocError> {
    for file in files {
        match kept_forms(desk.alloc, file.bytes.as_slice()) {
            Ok(forms) => {
                let name = file.user.into_bytes();
                found.submissions.push(Submission::new(name, forms))?;
            }
            Err(KeptFault::Memory) => return Err(AllocError),
            Err(KeptFault::Strange) => {
                desk.report(file.user.as_str(), FileFault::Strange);
                found.unread = found.unread.saturating_add(1);
            }
        }
    }
    Ok(())
}

// Fails if there is no submission at all.
fn require_some(found: &Found) -> Result<(), GradeFault> {
    if !found.submissions.is_empty() {
        return Ok(());
    }
    Err(if found.unread > 0 {
        GradeFault::Reported
    } else {
        GradeFault::NoSubmission
    })
}

// Grades all submissions, and shows how many are graded.
fn grade_all<R: Eprint + Threads + Sync, A: Adviser + Sync>(
    rt: &R,
    order: &GradeOrder<'_>,
    grader: &Grader<'_, A>,
    submissions: &mut [Submission],
) -> Result<(), GradeFault> {
    let threads = if order.threads == 0 { 1 } else { order.threads };
    let share = threads.saturating_mul(SHARE);
    let all = submissions.len();
    let mut done = 0usize;
    for part in submissions.chunks_mut(if share == 0 { 1 } else { share }) {
        done = done.saturating_add(part.len());
        grader.grade_all(rt, part, threads);
        if order.shows_progress {
            let _ = eprint!(rt; "\rgraded {done} of {all}").is_ok();
        }
    }
    if order.shows_progress {
        let _ = eprintln!(rt; "").is_ok();
    }
    require_graded(submissions)
}

fn require_graded(submissions: &[Submission]) -> Result<(), GradeFault> {
    for submission in submissions {
        if submission.graded.is_none() {
            return Err(GradeFault::Memory);
        }
    }
    Ok(())
}

fn write_report<R: Print>(
    rt: &R,
    alloc: Global,
    report: ReportLayout,
    book: &Book<'_>,
) -> Result<(), GradeFault> {
    let text = match report {
        ReportLayout::Table => table_of(alloc, book),
        ReportLayout::Csv => csv_of(alloc, book),
        ReportLayout::Json => json_of(alloc, book),
        ReportLayout::Junit => junit_of(alloc, book),
    };
    let text = text?;
    match rt.write_all(text.as_slice()) {
        Ok(()) => Ok(()),
        Err(_) => Err(GradeFault::Write),
    }
}

// Writes a page for each submission, and one for the class, into a new folder.
fn write_pages<R: Files<File = File> + Eprint + Alloc + Clone + Drop>(
    desk: &Desk<'_, R>,
    folder: Option<&str>,
    book: &Book<'_>,
) -> Result<(), GradeFault> {
    let Some(folder) = folder else {
        return Ok(());
    };
    if let Err(error) = fs::create_dir(desk.rt, folder) {
        desk.report(folder, FileFault::from(error));
        return Err(GradeFault::Write);
    }
    let class_page = class_page_of(desk.alloc, book)?;
    write_page(desk, folder, "index", class_page.as_slice())?;
    for (place, submission) in book.submissions.iter().enumerate() {
        let page = page_of(desk.alloc, book, submission)?;
        let number = place.saturating_add(1).to_string(desk.alloc)?;
        write_page(desk, folder, number.as_str(), page.as_slice())?;
    }
    Ok(())
}

fn write_page<R: Files<File = File> + Eprint + Alloc + Clone + Drop>(
    desk: &Desk<'_, R>,
    folder: &str,
    stem: &str,
    page: &[u8],
) -> Result<(), GradeFault> {
    let mut path = desk.joined(folder, stem)?;
    path.push_str(".html")?;
    match desk.write_new(path.as_str(), page) {
        Ok(()) => Ok(()),
        Err(fault) => {
            desk.report(path.as_str(), fault);
            Err(GradeFault::Write)
        }
    }
}
