//! Gradings of submissions.

use crate::disk::Disk;
use nesl_cli::run::{GradeOffer, LIMITS};
use nesl_cost_session::account_lines;
use nesl_grade::adviser::Adviser;
use nesl_grade::run::{self, GradeFault, GradeOrder, KeptClass, KeptFile};
use nesl_gradebook::book::Remark;
use nesl_hints::hint_below;
use nesl_house::roster::is_user_name;
use nesl_kept::folder::{KeptFolders, PlaceFault};
use nesl_session::Fault;
use nesl_session::session::Session;
use nesl_words::grade_words;
use std::alloc::{AllocError, Global};
use std::fs::File;
use std::io::{Eprint, Print};
use std::process::ExitCode;
use std::rt::Files;
use std::thread::Threads;
use std::time::Clock;

/// The hints and the accounts of the prompt.
#[derive(Clone, Copy)]
struct Hints;

impl Adviser for Hints {
    fn hint(
        &self,
        alloc: Global,
        session: &Session,
        form: &[u8],
        fault: Fault,
    ) -> Result<Option<Remark>, AllocError> {
        match hint_below(alloc, session, form, fault)? {
            Some(hint) => Ok(Some(Remark {
                start: hint.place.start,
                end: hint.place.end,
                sentence: hint.sentence,
            })),
            None => Ok(None),
        }
    }

    fn account(
        &self,
        alloc: Global,
        session: &Session,
        form: &[u8],
    ) -> Result<Vec<u8>, AllocError> {
        let exp = match form.strip_suffix(b";".as_slice()) {
            Some(exp) => exp,
            None => form,
        };
        let lines = account_lines(alloc, session, exp)?;
        let mut text = Vec::new(alloc);
        for line in &lines {
            text.extend_from_slice(line.bytes())?;
            text.push(b'\n')?;
        }
        Ok(text)
    }
}

/// Grades submissions, and returns the exit status.
pub fn run_grading<
    R: Files<File = File> + Print + Eprint + Threads + Clock + Alloc + Clone + Drop + Sync,
>(rt: &R, alloc: Global, offer: &GradeOffer<'_>, shows_progress: bool) -> ExitCode {
    match grade(rt, alloc, offer, shows_progress) {
        Ok(()) => ExitCode::SUCCESS,
        Err(fault) => {
            let _ = rt.eprintln(fault).is_ok();
            ExitCode::from(fault.status())
        }
    }
}

fn grade<R: Files<File = File> + Print + Eprint + Threads + Clock + Alloc + Clone + Drop + Sync>(
    rt: &R,
    alloc: Global,
    offer: &GradeOffer<'_>,
    shows_progress: bool,
) -> Result<(), GradeFault> {
    let grading = &offer.grading;
    let order = GradeOrder {
        limits: LIMITS,
        exercise: exercise_of(grading.exercise),
        paths: offer.submissions.as_slice(),
        report: report_of(grading.report),
        html: grading.html,
        threads: grading.jobs.unwrap_or(1),
        is_try: grading.is_try,
        shows_progress,
    };
    let kept = match grading.kept {
        Some(folder) => read_class(rt, alloc, folder)?,
        None => KeptClass {
            files: Vec::new(alloc),
            unread: 0,
        },
    };
    run::run(rt, alloc, &order, kept, &Hints)
}

// Reads the kept sessions of a folder. What can't be read is reported.
fn read_class<R: Files<File = File> + Clock + Eprint + Alloc + Clone + Drop>(
    rt: &R,
    alloc: Global,
    folder: &str,
) -> Result<KeptClass, GradeFault> {
    let disk = Disk { rt };
    let mut class = KeptClass {
        files: Vec::new(alloc),
        unread: 0,
    };
    let names = match disk.names(alloc, folder) {
        Ok(names) => names.texts,
        Err(fault) => {
            report(rt, folder, fault);
            return Err(GradeFault::Reported);
        }
    };
    for user in names {
        if is_user_name(user.as_bytes()) {
            match disk.read(alloc, folder, user.as_str()) {
                Ok(bytes) => class.files.push(KeptFile { user, bytes })?,
                Err(PlaceFault::Memory) => return Err(GradeFault::Memory),
                Err(fault) => {
                    report(rt, user.as_str(), fault);
                    class.unread = class.unread.saturating_add(1);
                }
            }
        }
    }
    Ok(class)
}

// Reports why a folder or the file of a user can't be read.
fn report<R: Eprint>(rt: &R, name: &str, fault: PlaceFault) {
    let _ = eprintln!(rt; "grade: {name}: {fault}").is_ok();
}

// The path of the exercise. Where there is none, no file has this one.
fn exercise_of(path: Option<&str>) -> &str {
    match path {
        Some(path) => path,
        None => "",
    }
}

fn report_of(report: grade_words::Report) -> run::ReportLayout {
    match report {
        grade_words::Report::Table => run::ReportLayout::Table,
        grade_words::Report::Csv => run::ReportLayout::Csv,
        grade_words::Report::Json => run::ReportLayout::Json,
        grade_words::Report::Junit => run::ReportLayout::Junit,
    }
}
