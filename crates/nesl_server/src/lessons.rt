//! The lessons of a teacher, for the page of a service.

use nesl_cli::failure::{Failure, LessonsRefusal};
use nesl_cli::run::{LIMITS, Offer};
use nesl_kept::folder::{KeptFolders, PlaceFault};
use nesl_lessons::lesson::{Exchange, Lesson, lessons_json};
use nesl_prompt::shelf::{Shelf, ShelfFault};
use nesl_session::session::Session;
use std::alloc::{AllocError, Global};
use std::io::Eprint;
use std::str;

/// The lessons of a folder, each with the name of its file.
#[derive(Drop)]
struct Course {
    names: Vec<String>,
    lessons: Vec<Lesson>,
}

impl Course {
    fn add(&mut self, name: String, lesson: Lesson) -> Result<(), AllocError> {
        self.names.push(name)?;
        self.lessons.push(lesson)?;
        Ok(())
    }
}

/// Returns the lessons of the folder that is offered in JSON, if one is. A check runs their blocks, too, and fails if a
/// reply is another than a lesson shows. The text is never freed: the process serves it to its end.
pub fn read<'a, R: Eprint, F: KeptFolders + Shelf>(
    rt: &R,
    alloc: Global,
    offer: &Offer<'a>,
    folders: &F,
) -> Result<Option<&'a str>, Failure<'a>> {
    let Some(folder) = offer.service.lessons else {
        return Ok(None);
    };
    match read_checked(rt, alloc, offer, folders, folder) {
        Ok(text) => Ok(Some(text)),
        Err(refusal) => Err(Failure::Lessons(folder, refusal)),
    }
}

// Reads the lessons of a folder, and checks them if a check is asked for.
fn read_checked<'a, R: Eprint, F: KeptFolders + Shelf>(
    rt: &R,
    alloc: Global,
    offer: &Offer<'a>,
    folders: &F,
    folder: &str,
) -> Result<&'a str, LessonsRefusal> {
    let course = read_course(rt, alloc, folders, folder)?;
    if offer.service.is_check {
        check(rt, alloc, &course)?;
    }
    let json = lessons_json(alloc, course.lessons.as_slice())?;
    let bytes: &'a [u8] = json.into_bytes().leak();
    match str::from_utf8(bytes) {
        Ok(text) => Ok(text),
        Err(_) => Err(LessonsRefusal::Encoding),
    }
}

// Reads the lessons of a folder, in the order of their names. Files whose names don't end in `.md` are no lessons, and
// neither is one that says what the folder has.
fn read_course<R: Eprint, F: KeptFolders + Shelf>(
    rt: &R,
    alloc: Global,
    folders: &F,
    folder: &str,
) -> Result<Course, LessonsRefusal> {
    let mut course = Course {
        names: Vec::new(alloc),
        lessons: Vec::new(alloc),
    };
    for name in folders.names(alloc, folder)?.texts {
        if is_lesson(name.as_str()) {
            let lesson = read_lesson(rt, alloc, folders, folder, name.as_str())?;
            course.add(name, lesson)?;
        }
    }
    if course.lessons.is_empty() {
        return Err(LessonsRefusal::Empty);
    }
    Ok(course)
}

fn is_lesson(name: &str) -> bool {
    name.as_bytes().ends_with(b".md") && name != "README.md"
}

// Reads a lesson. Why it can't be read is reported with its name.
fn read_lesson<R: Eprint, F: Shelf>(
    rt: &R,
    alloc: Global,
    shelf: &F,
    folder: &str,
    name: &str,
) -> Result<Lesson, LessonsRefusal> {
    let path = format!(in alloc; "{folder}/{name}")?;
    match shelf.read(alloc, path.as_str()) {
        Ok(bytes) => match str::from_utf8(bytes.as_slice()) {
            Ok(text) => Ok(Lesson::read(alloc, text)?),
            Err(_) => {
                let _ = eprintln!(rt; "lessons: {name}").is_ok();
                Err(LessonsRefusal::Encoding)
            }
        },
        Err(fault) => {
            let _ = eprintln!(rt; "lessons: {name}: {fault}").is_ok();
            Err(refusal_of(fault))
        }
    }
}

// Returns why lessons are refused of which one can't be read.
fn refusal_of(fault: ShelfFault) -> LessonsRefusal {
    match fault {
        ShelfFault::Memory => LessonsRefusal::Memory,
        ShelfFault::Absent => LessonsRefusal::Place(PlaceFault::Absent),
        ShelfFault::Folder => LessonsRefusal::Place(PlaceFault::Folder),
        ShelfFault::Link => LessonsRefusal::Place(PlaceFault::Link),
        ShelfFault::Irregular => LessonsRefusal::Place(PlaceFault::Irregular),
        _ => LessonsRefusal::Place(PlaceFault::Refused),
    }
}

// Runs the blocks of lessons, each lesson in a session of its own. Reports each reply that differs.
fn check<R: Eprint>(rt: &R, alloc: Global, course: &Course) -> Result<(), LessonsRefusal> {
    let mut count: u64 = 0;
    for (name, lesson) in course.names.iter().zip(course.lessons.iter()) {
        let differing = differing_in(rt, alloc, name.as_str(), lesson)?;
        count = count.saturating_add(differing);
    }
    if count > 0 {
        return Err(LessonsRefusal::Replies(count));
    }
    Ok(())
}

// Runs the blocks of a lesson. Returns the number of replies that differ from those shown.
fn differing_in<R: Eprint>(
    rt: &R,
    alloc: Global,
    name: &str,
    lesson: &Lesson,
) -> Result<u64, AllocError> {
    let mut session = Session::new(alloc, LIMITS)?;
    let mut count: u64 = 0;
    for exchange in lesson.exchanges(alloc)? {
        let Exchange { form, reply } = exchange;
        let said = say(alloc, &mut session, form.as_str())?;
        let got = said.as_slice().trim_ascii();
        if !reply.is_empty() && got != reply.as_bytes().trim_ascii() {
            let got = String::from_utf8_lossy(alloc, got)?;
            let _ = eprintln!(rt;
                "lessons: {name}: {form} is answered {got} and not {reply}"
            ).is_ok();
            count = count.saturating_add(1);
        }
    }
    Ok(count)
}

// Runs a form, line by line, and returns the answer to its last line.
fn say(alloc: Global, session: &mut Session, form: &str) -> Result<Vec<u8>, AllocError> {
    let mut last = "";
    for (place, line) in form.split('\n').enumerate() {
        if place > 0 {
            let part = format!(in alloc; "{last}\\")?;
            let _ = session.line(alloc, part.as_bytes());
        }
        last = line;
    }
    Vec::from_slice(alloc, session.line(alloc, last.as_bytes()).bytes())
}
