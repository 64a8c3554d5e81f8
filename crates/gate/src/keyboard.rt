//! `gate bench`: lines of settings and steps as they come, the record's lines as they are made, refusals on standard error. What a line gives is
//! `live`'s; here lines are gathered from reads, and what they give is written before the next read, and before a refusal is said.

ghost use Rattle.std.specs.Prelude.{◌≡◌, ◌+◌, ◌≤◌, ◌++◌, IfOk, take};
ghost use Rattle.gate.specs.Held.{IsPrefixLen};

use crate::words::{put_out, say_failure, say_refusal};
use crate::{Problem, zeros};
use arrayvec::ArrayVec;
use live::Live;
use settings::Refusal;
use std::io::{Input, Read};

/// What a line gives, within its buffer.
fn give_line(live: &mut Live, line: &[u8], out: &mut [u8]) -> Result<usize, Refusal>
    ensures { IfOk result (λ bytes. IsPrefixLen bytes out.new) }
{
    live.take_line(line, out)
}

/// And the end of the input.
fn give_last(live: &Live, out: &mut [u8]) -> Result<usize, Refusal>
    ensures { IfOk result (λ bytes. IsPrefixLen bytes out.new) }
{
    live.finish(out)
}

/// What is to go out: the first `pending` bytes.
#[derive(Drop)]
struct Window {
    bytes: [u8; 8192],
    pending: usize,
    ghost within: { pending ≤ 8192 },
}

impl Window {
    fn new() -> Window {
        Window {
            bytes: zeros::<8192>(),
            pending: 0,
        }
    }

    /// What is to go out is written.
    fn flush<R: Print + Eprint + AllocGlobal>(&mut self, rt: &R) -> Result<(), Problem>
        ensures { self.new.pending ≡ 0 }
    {
        let pending = self.pending;
        self.pending = 0;
        put_out(rt, &self.bytes[..pending])
    }

    /// Space for the longest lines that go out at once: the record's head and its last line.
    fn make_room<R: Print + Eprint + AllocGlobal>(&mut self, rt: &R) -> Result<(), Problem>
        ensures { self.new.pending + 240 ≤ 8192 }
    {
        if self.pending + 240 <= self.bytes.len() {
            return Ok(());
        }
        self.flush(rt)
    }

    /// What a line gives is to go out.
    fn take_line(&mut self, live: &mut Live, line: &[u8]) -> Result<(), Refusal> {
        self.pending += give_line(live, line, &mut self.bytes[self.pending..])?;
        Ok(())
    }

    /// And what the end of the input gives.
    fn take_last(&mut self, live: &Live) -> Result<(), Refusal> {
        self.pending += give_last(live, &mut self.bytes[self.pending..])?;
        Ok(())
    }
}

/// The bench at the keyboard: so much of the present line as shows its meaning, what is to go out, the lines ended, and whether one was refused.
#[derive(Drop)]
struct Keyboard<'a, R> {
    rt: &'a R,
    live: Live,
    line: ArrayVec<u8, 1001>,
    window: Window,
    lines: u64,
    refused: bool,
}

impl<'a, R: Print + Eprint + AllocGlobal> Keyboard<'a, R> {
    fn new(rt: &'a R) -> Keyboard<'a, R> {
        Keyboard {
            rt,
            live: Live::fresh(),
            line: ArrayVec::new(),
            window: Window::new(),
            lines: 0,
            refused: false,
        }
    }

    /// These bytes after those that are held, as many as there is space for.
    fn hold(&mut self, bytes: &[u8])
        ensures { self.new.line.items ≡ take 1001 (self.old.line.items ++ bytes.now) }
    {
        let room = self.line.remaining_capacity();
        let more = &bytes[..bytes.len().min(room)];
        self.line.try_extend_from_slice(more).unwrap();
    }

    /// The line that is held has ended: its lines of the record are to go out, or its refusal is said.
    fn take_line(&mut self) -> Result<(), Problem> {
        let room = self.window.make_room(self.rt);
        let taken = self.window.take_line(&mut self.live, self.line.as_slice());
        self.line.clear();
        self.lines = self.lines.wrapping_add(1);
        let Err(refusal) = taken else {
            return room;
        };
        let written = self.window.flush(self.rt);
        say_refusal(
            self.rt,
            self.lines,
            refusal,
            "no settings and no step, or not in its place",
        );
        self.refused = true;
        written
    }

    /// The bytes of a read: lines of any length. All that they give is written.
    fn take(&mut self, bytes: &[u8]) -> Result<(), Problem> {
        for part in bytes.split_inclusive(|byte| *byte == b'\n') {
            match part {
                [line @ .., b'\n'] => {
                    self.hold(line);
                    self.take_line()?;
                }
                _ => self.hold(part),
            }
        }
        self.window.flush(self.rt)
    }

    /// A line without its byte 10, at the end of the input.
    fn take_last(&mut self) -> Result<(), Problem> {
        if self.line.is_empty() {
            return Ok(());
        }
        self.take_line()
    }

    /// The record's last line goes out.
    fn give_end(&mut self) -> Result<(), Problem> {
        // The last write decides: the flush after these writes all that a failed one left.
        let _ = self.window.make_room(self.rt);
        let _ = self.window.take_last(&self.live);
        self.window.flush(self.rt)
    }

    /// The end of the input.
    fn end(&mut self) -> Result<(), Problem> {
        let _ = self.take_last();
        self.give_end()?;
        if self.refused {
            return Err(Problem::Refused);
        }
        Ok(())
    }
}

/// Standard input, read as it comes.
pub(crate) fn bench_input<R: Input + Print + Eprint + AllocGlobal>(rt: &R) -> Result<(), Problem> {
    let mut keyboard = Keyboard::new(rt);
    let mut input = rt.reader();
    let mut chunk = [0u8; 4096];
    for _ in 0..u64::MAX {
        match input.read(&mut chunk) {
            Ok(0) => return keyboard.end(),
            Ok(n) => keyboard.take(&chunk[..n])?,
            Err(e) => return Err(say_failure(rt, "standard input", e)),
        }
    }
    Err(Problem::Failed)
}
