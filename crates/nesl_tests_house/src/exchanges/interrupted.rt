//! Reads, writes and flushes that signals interrupt.
use crate::exchanges::devices::{Paper, Tape, blank_paper, tape_of};
use crate::sample::house;
use nesl_line::batch::batch;
use nesl_line::device::{Device, Sink, Source};
use nesl_line::exchange::{End, Ran};
use std::io;
use std::io::{Read, Write};

// Is interrupted this many times before each call.
#[derive(Drop)]
struct Interrupted<T> {
    inner: T,
    times: u32,
    left: u32,
}

impl<T> Interrupted<T> {
    fn new(inner: T, times: u32) -> Interrupted<T> {
        Interrupted {
            inner,
            times,
            left: times,
        }
    }

    // One call more.
    fn begin(&mut self) -> io::Result<()> {
        if self.left == 0 {
            self.left = self.times;
            return Ok(());
        }
        self.left -= 1;
        Err(io::Error::from(io::ErrorKind::Interrupted))
    }
}

impl Read for Interrupted<Tape<'_>> {
    fn read(&mut self, buf: &mut [u8]) -> io::Result<usize> {
        self.begin()?;
        self.inner.read(buf)
    }
}

impl Write for Interrupted<Paper> {
    fn write(&mut self, buf: &[u8]) -> io::Result<usize> {
        self.begin()?;
        self.inner.write(buf)
    }

    fn flush(&mut self) -> io::Result<()> {
        self.begin()?;
        self.inner.flush()
    }
}

#[test]
fn interrupted_calls_are_made_again(rt: HostRuntime) {
    for times in [0, 1, 5] {
        let mut house = house(rt.alloc()).expect(&rt, "memory");
        let tape = tape_of(b"user ann\n2 * 3 + 1;\nx", 7);
        let mut reader = Device::new(Interrupted::new(tape, times));
        let mut writer = Device::new(Interrupted::new(blank_paper(rt.alloc()), times));
        let ran = batch(rt.alloc(), &mut reader, &mut writer, &mut house);
        let wanted = Ran {
            lines: 3,
            end: End::Input,
        };
        let failures = (Source::failures(&reader), Sink::failures(&writer));
        let is_whole = ran == wanted && failures == (0, 0);
        let told = "user ann\nit = 7 : int (work 5, depth 5)\nfault syntax (work 0)\n";
        let paper = writer.into_inner().inner;
        let is_told = paper.bytes.as_slice() == told.as_bytes() && paper.flushes == 3;
        assert!(rt; is_whole && is_told, "{times}");
    }
}
