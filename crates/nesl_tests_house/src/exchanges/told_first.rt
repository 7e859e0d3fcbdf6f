//! The gate of a connection is entered by a line before the line is evaluated, when nothing of its answer is written.
use crate::exchanges::devices::tape_of;
use crate::granting::Granting;
use crate::sample::table;
use nesl_eval_helpers::{Gate, Place};
use nesl_line::device::Device;
use nesl_line::exchange::End;
use nesl_line::serve::serve;
use std::io;
use std::io::Write;
use std::sync::atomic::{AtomicU64, Ordering};

// How many bytes were written, how many lines and halves were entered, and how often too early or too late.
#[derive(Drop)]
struct Watch {
    written: AtomicU64,
    lines: AtomicU64,
    halves: AtomicU64,
    wrong: AtomicU64,
}

impl Watch {
    fn new() -> Watch {
        Watch {
            written: AtomicU64::new(0),
            lines: AtomicU64::new(0),
            halves: AtomicU64::new(0),
            wrong: AtomicU64::new(0),
        }
    }

    fn counts(&self) -> (u64, u64, u64, u64) {
        (
            self.written.load(Ordering::SeqCst),
            self.lines.load(Ordering::SeqCst),
            self.halves.load(Ordering::SeqCst),
            self.wrong.load(Ordering::SeqCst),
        )
    }

    // Whether a line is entered when all answers before it are written and nothing more, and before its own halves.
    fn is_in_time(&self) -> bool {
        let wanted = match self.lines.fetch_add(1, Ordering::SeqCst) {
            0 => (9, 0),
            1 => (40, 0),
            2 => (79, 2),
            _ => (118, 4),
        };
        let written = self.written.load(Ordering::SeqCst);
        (written, self.halves.load(Ordering::SeqCst)) == wanted
    }
}

impl Gate for Watch {
    fn enter(&self, place: Place) {
        let is_right = match place {
            Place::Line(line) => line == 0 && self.is_in_time(),
            Place::Half(..) => {
                self.halves.fetch_add(1, Ordering::SeqCst);
                true
            }
        };
        if !is_right {
            self.wrong.fetch_add(1, Ordering::SeqCst);
        }
    }
}

#[derive(Drop)]
struct Watched<'a> {
    watch: &'a Watch,
}

impl Write for Watched<'_> {
    fn write(&mut self, buf: &[u8]) -> io::Result<usize> {
        let n = buf.len().min(7);
        self.watch.written.fetch_add(n as u64, Ordering::SeqCst);
        Ok(n)
    }

    fn flush(&mut self) -> io::Result<()> {
        Ok(())
    }
}

// Four lines after the first one. The answers have 9, 31, 39, 39 and 31 bytes; each apply-to-each is halved once.
const SAID: &[u8] = b"user ann
2;
{a * a : a in [1, 2]};
{a * a : a in [1, 2]};
3;
";

#[test]
fn a_line_is_entered_before_it_is_evaluated(rt: HostRuntime) {
    let table = table(rt.alloc()).expect(&rt, "memory");
    let watch = Watch::new();
    let mut reader = Device::new(tape_of(SAID, 1000));
    let mut writer = Device::new(Watched { watch: &watch });
    let served = serve(
        &rt,
        rt.alloc(),
        &mut reader,
        &mut writer,
        &table,
        &Granting::always(),
        &watch,
    );
    let is_served = served.lines == 5 && served.end == End::Input;
    assert!(rt; is_served && watch.counts() == (149, 4, 4, 0));
}
