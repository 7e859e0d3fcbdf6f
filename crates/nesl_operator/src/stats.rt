//! The file of counters.

use crate::facts::{Facts, Resident};
use nesl_metrics::line::write_line;
use nesl_prompt::shelf::ShelfFault;
use nesl_system::replace::Replace;
use std::alloc::Global;
use std::sync::{Arc, Mutex, Wait};
use std::thread;
use std::thread::Threads;
use std::time::{Clock, Duration};

/// How many seconds pass between two writes of the file.
const SECONDS: u64 = 10;

/// The content of the file, and its path.
#[derive(Drop)]
struct Sheet {
    path: String,
    facts: Arc<Facts>,
    /// Whether the file was written for the last time.
    is_over: bool,
}

/// The file of counters. A thread of its own replaces it every ten seconds.
#[derive(Drop)]
pub struct Stats<'x, R> {
    rt: &'x R,
    alloc: Global,
    sheet: Arc<Mutex<Sheet>>,
}

impl Sheet {
    // Writes the current counters into the file.
    fn write<R: Replace + Clock + Resident>(
        &self,
        rt: &R,
        alloc: Global,
    ) -> Result<(), ShelfFault> {
        let mut text = write_line(alloc, &self.facts.counters, &self.facts.moment(rt))?;
        text.push_str("\n")?;
        rt.replace(alloc, self.path.as_str(), text.as_str())
    }
}

impl<'x, R: Threads + Wait + Clock + Replace + Resident + Clone + Send + Drop + 'static> Stats<
    'x,
    R,
> {
    /// Writes the file, and starts the thread that writes it every ten seconds.
    pub fn new(
        rt: &'x R,
        alloc: Global,
        path: &str,
        facts: Arc<Facts>,
    ) -> Result<Stats<'x, R>, ShelfFault> {
        let sheet = Sheet {
            path: String::from_str(alloc, path)?,
            facts,
            is_over: false,
        };
        sheet.write(rt, alloc)?;
        let sheet = Arc::new(alloc, Mutex::new(sheet))?;
        let theirs = Arc::try_clone(&sheet)?;
        let own = rt.clone()?;
        let write = move || write_now_and_then(&own, alloc, &theirs);
        match thread::spawn(rt, write) {
            Ok(_) => Ok(Stats { rt, alloc, sheet }),
            Err(_) => Err(ShelfFault::Memory),
        }
    }
}

impl<R: Wait + Clock + Replace + Resident> Stats<'_, R> {
    /// Writes the file for the last time.
    pub fn close(self) {
        let Stats { rt, alloc, sheet } = self;
        let mut sheet = sheet.lock(rt);
        sheet.is_over = true;
        let _ = sheet.write(rt, alloc).is_ok();
    }
}

// Writes the file every `SECONDS` seconds, until it was written for the last time. After a failure it tries again after
// the same time.
fn write_now_and_then<R: Wait + Clock + Replace + Resident>(
    rt: &R,
    alloc: Global,
    sheet: &Mutex<Sheet>,
) {
    for _ in rt.forever() {
        thread::sleep(rt, Duration::from_secs(SECONDS));
        let sheet = sheet.lock(rt);
        if sheet.is_over {
            break;
        }
        let _ = sheet.write(rt, alloc).is_ok();
    }
}
