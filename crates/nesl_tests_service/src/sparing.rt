//! Helpers that are asked for only where they pay, by a clock that the tests set.
use nesl_eval_helpers::sparing::Sparing;
use nesl_eval_helpers::{Advice, Asker, Common, Helpers};
use std::slice::Iter;
use std::sync::atomic::{AtomicU64, Ordering};
use std::time::{Clock, Duration};
use std::{io, mem};

// Shows a microsecond until it is set.
#[derive(Drop)]
struct Still {
    at: AtomicU64,
}

impl Still {
    fn new() -> Still {
        Still {
            at: AtomicU64::new(1),
        }
    }

    fn pass(&self, micros: u64) {
        self.at.fetch_add(micros, Ordering::SeqCst);
    }
}

impl Clock for Still {
    fn monotonic(&self) -> io::Result<Duration> {
        Ok(Duration::from_micros(self.at.load(Ordering::SeqCst)))
    }

    fn since_1970(&self) -> io::Result<Duration> {
        Ok(Duration::ZERO)
    }

    fn sleep(&self, _duration: Duration) {}
}

// Grants whatever is asked for.
#[derive(Clone, Copy)]
struct Granting;

struct Permit {
    seal: (),
}

impl Helpers for Granting {
    type Permit = Permit;

    fn ask(&self) -> Option<Permit> {
        Some(Permit { seal: () })
    }

    fn done(&self, permit: Permit) {
        let Permit { seal: () } = permit;
    }
}

// The fuel of a line, and what each interval here takes of it.
const FUEL: u64 = 1_000_000;

const WORK: u64 = 100_000;

fn ask<H: Helpers>(sparing: &H, asker: Asker) -> Option<H::Permit> {
    match sparing.advise(asker) {
        Advice::Pass => None,
        Advice::Ask => sparing.ask_for(asker),
        Advice::AskUnlessInColumns => sparing.ask_for(asker),
    }
}

// Ends an interval and this many halves of it, if it had a helper.
fn end<H: Helpers>(sparing: &H, permit: Option<H::Permit>, halves: u32) {
    if let Some(permit) = permit {
        for _ in 0..halves {
            sparing.end_half();
        }
        sparing.done(permit);
    }
}

// A line of one interval, by the microseconds that it takes alone and with a helper. Whether it had one.
fn is_helped<H: Helpers>(
    clock: &Still,
    sparing: &H,
    asker: Asker,
    alone: u64,
    helped: u64,
) -> bool {
    sparing.begin();
    let permit = ask(sparing, asker);
    let is_helped = permit.is_some();
    clock.pass(if is_helped { helped } else { alone });
    end(sparing, permit, 2);
    sparing.end(FUEL - WORK);
    is_helped
}

// Rows `PROCESSORS WORKERS: PART; PART .. => TOLD`. A part is a count and steps, which are taken this many times. A
// step is a letter, and a number or two that are parted by a dot. Capital letters are about the interval at hand: `M1`
// is its mark, `S16` its size and twice its smaller half, `L8` its smaller half, `U4000` the fuel that is used, `H1`
// its height, `V1000` its levels and `T0` its turns, as all of them are at first. The others are:
//
// - `i400.200`: a line of it that takes 400 microseconds alone, and 200 with a helper. `+` tells that it had one, and
//   `-` that it had none;
// - `b` and `e` begin and end a line; the fuel that is used follows `e`, and also `t`, which ends what is timed;
// - `h`: whether it has a helper, with halves that end at once; `d` ends a half of another;
// - `p400`: 400 microseconds pass;
// - `q4000.2`: whether it asks again, with that fuel used and this height; `w` the height of what is timed, or `.`;
// - `f`: the connection is another one, and `x` another one of two that go on.
//
// Between `A` and `Z` its helper is kept, of which a half ends by itself, and so between `a` and `z` with both halves.
const ROWS: &str = "2 1: 4 i400.200; 1 M2; 9 i290.200 => --++---------
2 1: 1 b h q4000.1 q4001.2 q4001.1 p29 T1 U5000 S15 h q10000.1 q10001.1 p29 U10000 S13 h q20001.1 p58; \
1 U20000 S12 A q1000000.1 p174 d Z e100000 => ---+--+-++-
4 3: 1 S1000; 2 i4000.2000; 1 S2000 i8000.4000 S500 i2000.1000; \
1 b S800 A S249 h M2 S800 h M1 S249 V993 h S990 V986 h S251 V1000 a p2000 z d Z e100000 => ----+----+
2 1: 4 i2000.2000 i20.20; 1 i2000.2000 => ---------
2 1: 9 b h p9000 e2000 => ---------
2 1: 58 i8000.9500 => --+++-+----------------++++-------------------------------
2 1: 23 i8000.9500; 1 i8000.6500; 22 i8000.9500 => --+++-+----------------+++++----------------++
2 1: 2 i8000.8500; 10 i8000.8500 i8000.6500 => --+++-++++++++++++++++
2 1: 2 i8000.1; 2 i8000.11499; 1 i8000.7501; 2 i8000.7000 => --+++-+
2 1: 2 i8000.1; 2 i8000.11499; 1 i8000.7502 i128000.1 i8000.1 i8000.1 => --+++--+
2 1: 2 i8000.1; 2 i8000.11499; 1 i8000.7502 i127999.1 i8000.1 i8000.1 => --+++---
2 1: 2 i400.1; 1 i400.574 i400.1 => --++
2 1: 2 i400.1; 1 i400.575 i3200.1 i400.1 => --+-+
2 1: 70 i1000.500 => --+++-+++++++++++++++++++++++++++++++-+++++++++++++++++++++++++++++++-
2 1: 5 i1000.140 => --+--
2 8: 2 i2000.1000; 1 x b x i2000.1000 x e0 x; 1 b A h d a p1200 z Z e100000; 1 i2000.1000 => ---+-++
2 1: 2 b h w M2 H2 h M1 H1 p400 e100000; 1 M2 i400.200 M1 i400.200 => -1--1--+
2 1: 2 b h p20 t100000 w M2 H2 U100000 h p400 e200000 M1 H1 U0; 1 i20.20 M2 i400.200 => -.--.--+
2 1: 1 S1000; 2 i4000.2000; 1 b L124 h S249 h S900 a p1800 z e100000; 1 b S1000 L125 h e100000 => ----++
2 1: 4 f i400.200 => --++
2 0: 9 i9000.9000 => ---------";

// Two connections, of which one is at hand, the interval at hand, and the marks that are wanted of the steps to come.
#[derive(Drop)]
struct Desk<'x> {
    clock: &'x Still,
    common: &'x Common,
    workers: u32,
    sparing: Sparing<'x, Still, Granting>,
    other: Sparing<'x, Still, Granting>,
    asker: Asker,
    wanted: Iter<'x, u8>,
    are_right: bool,
}

impl<'x> Desk<'x> {
    fn new(clock: &'x Still, common: &'x Common, workers: u32, wanted: &'x str) -> Desk<'x> {
        Desk {
            clock,
            common,
            workers,
            sparing: Sparing::new(clock, Granting, workers, common),
            other: Sparing::new(clock, Granting, workers, common),
            asker: Asker {
                mark: 1,
                size: 16,
                least: 8,
                fuel: FUEL,
                height: 1,
                levels: 1000,
                taken: 0,
            },
            wanted: wanted.as_bytes().iter(),
            are_right: true,
        }
    }

    // Takes the steps of a part as often as it says.
    fn run(&mut self, part: &str) {
        let (count, steps) = part.split_once(' ').unwrap_or(("0", part));
        for _ in 0..count.parse::<u64>().unwrap_or(0) {
            self.run_keeping(steps);
        }
    }

    // Takes steps, and keeps a helper for those between `A` and `Z`.
    fn run_keeping(&mut self, steps: &str) {
        let Some((before, rest)) = steps.split_once(" A ") else {
            return self.run_within(steps);
        };
        let (within, after) = rest.split_once(" Z ").unwrap_or((rest, ""));
        self.run_all(before);
        let permit = ask(&self.sparing, self.asker);
        self.tell_whether(permit.is_some());
        self.run_within(within);
        end(&self.sparing, permit, 1);
        self.run_all(after);
    }

    // Takes steps, and keeps a helper for those between `a` and `z`.
    fn run_within(&mut self, steps: &str) {
        let Some((before, rest)) = steps.split_once(" a ") else {
            return self.run_all(steps);
        };
        let (within, after) = rest.split_once(" z").unwrap_or((rest, ""));
        self.run_all(before);
        let permit = ask(&self.sparing, self.asker);
        self.tell_whether(permit.is_some());
        self.run_all(within);
        end(&self.sparing, permit, 2);
        self.run_all(after);
    }

    fn run_all(&mut self, steps: &str) {
        for step in steps.split(' ') {
            if let [letter, digits @ ..] = step.as_bytes() {
                let numbers = numbers_of(str::from_utf8(digits).unwrap_or(""));
                if letter.is_ascii_uppercase() {
                    self.set(*letter, numbers.0);
                } else {
                    self.act(*letter, numbers);
                }
            }
        }
    }

    fn set(&mut self, letter: u8, number: u64) {
        match letter {
            b'M' => self.asker.mark = number,
            b'S' => {
                self.asker.size = number;
                self.asker.least = number / 2;
            }
            b'L' => self.asker.least = number,
            b'U' => self.asker.fuel = FUEL.saturating_sub(number),
            b'H' => self.asker.height = number as usize,
            b'V' => self.asker.levels = number,
            _ => self.asker.taken = number as usize,
        }
    }

    fn act(&mut self, letter: u8, (first, second): (u64, u64)) {
        let left = FUEL.saturating_sub(first);
        match letter {
            b'b' => self.sparing.begin(),
            b'e' => self.sparing.end(left),
            b't' => self.sparing.end_timed(left),
            b'd' => self.sparing.end_half(),
            b'p' => self.clock.pass(first),
            b'x' => mem::swap(&mut self.sparing, &mut self.other),
            b'f' => {
                self.sparing = Sparing::new(self.clock, Granting, self.workers, self.common);
            }
            b'w' => {
                let height = self.sparing.timed_at();
                self.tell(mark_of(height));
            }
            _ => {
                let is_so = self.is_so(letter, first, second);
                self.tell_whether(is_so);
            }
        }
    }

    // What a step tells that is about whether something is so.
    fn is_so(&self, letter: u8, first: u64, second: u64) -> bool {
        let sparing = &self.sparing;
        match letter {
            b'i' => is_helped(self.clock, sparing, self.asker, first, second),
            b'q' => sparing.asks_again(FUEL.saturating_sub(first), second as usize),
            _ => {
                let permit = ask(sparing, self.asker);
                let has_helper = permit.is_some();
                end(sparing, permit, 2);
                has_helper
            }
        }
    }

    fn tell_whether(&mut self, is_so: bool) {
        self.tell(if is_so { b'+' } else { b'-' });
    }

    // Tells a mark, which is to be the one that is wanted next.
    fn tell(&mut self, mark: u8) {
        self.are_right &= self.wanted.next().copied() == Some(mark);
    }
}

// The mark for the height of what is timed.
fn mark_of(height: Option<usize>) -> u8 {
    match height {
        Some(height) => b'0' + (height % 10) as u8,
        None => b'.',
    }
}

fn numbers_of(digits: &str) -> (u64, u64) {
    let (first, second) = digits.split_once('.').unwrap_or((digits, ""));
    (
        first.parse::<u64>().unwrap_or(0),
        second.parse::<u64>().unwrap_or(0),
    )
}

// Whether a row's steps tell the marks that it wants, and no more.
fn holds(row: &str) -> bool {
    let (asked, wanted) = row.split_once(" => ").unwrap_or((row, ""));
    let (machine, parts) = asked.split_once(": ").unwrap_or((asked, ""));
    let (processors, workers) = machine.split_once(' ').unwrap_or((machine, ""));
    let clock = Still::new();
    let common = Common::new(processors.parse::<usize>().unwrap_or(0));
    let workers = workers.parse::<u32>().unwrap_or(0);
    let mut desk = Desk::new(&clock, &common, workers, wanted);
    for part in parts.split("; ") {
        desk.run(part);
    }
    desk.are_right && desk.wanted.next().is_none()
}

#[test]
fn helpers_are_asked_for_where_they_pay(rt: HostRuntime) {
    for row in ROWS.lines() {
        assert!(rt; holds(row), "{row}");
    }
}
