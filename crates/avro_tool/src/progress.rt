//! How far an input is read, reported on standard error while it is read.

use avro_device::{DeviceFault, Input};
use std::fmt;
use std::io::{Cursor, Write};
use std::time::{Clock, Instant};

/// The least time between two lines, in milliseconds.
const PAUSE: u128 = 250;

/// How many bytes a line has at the most.
const CAPACITY: usize = 96;

/// An input whose progress is reported: a line that is rewritten at most four times a second, and once at
/// the end. A standard error that fails changes nothing.
#[derive(Drop)]
pub(crate) struct Watched<I, C, E> {
    input: I,
    clock: C,
    err: E,
    meter: Meter,
}

/// How far an input is read.
#[derive(Clone, Copy)]
struct Meter {
    read: u64,
    /// Whether anything was read, or the end.
    is_begun: bool,
    /// The length of the whole, if it is known.
    length: Option<u64>,
    begun: Option<Instant>,
    /// How many milliseconds after the beginning the last line was written.
    told: u128,
    /// How long the last line was.
    width: usize,
}

impl<I: Input, C: Clock, E: Write> Watched<I, C, E> {
    /// An input of which nothing is read.
    pub(crate) fn new(input: I, length: Option<u64>, clock: C, err: E) -> Watched<I, C, E> {
        let begun = Instant::now(&clock).ok();
        Watched {
            input,
            clock,
            err,
            meter: Meter {
                read: 0,
                is_begun: false,
                length,
                begun,
                told: 0,
                width: 0,
            },
        }
    }

    /// Reports for the last time how far the input was read, if it can be read.
    pub(crate) fn finish(&mut self) {
        if !self.meter.is_begun {
            return;
        }
        let millis = self.meter.elapsed(&self.clock);
        self.meter.tell(millis.unwrap_or(0), &mut self.err, "\n");
    }
}

impl<I: Input, C: Clock, E: Write> Input for Watched<I, C, E> {
    ghost gives = { λ s bytes t. I.gives s.input bytes t.input };

    ghost ended = { λ s. I.ended s.input };

    ghost failures = { λ s. I.failures s.input };

    ghost none = { λ s. I.none s.input };

    ghost chain = { λ s t u front back. I.chain s.input t.input u.input front back };

    fn take(&mut self, buffer: &mut [u8]) -> Result<usize, DeviceFault> {
        let count = self.input.take(buffer)?;
        note(&mut self.meter, &self.clock, &mut self.err, count);
        Ok(count)
    }
}

/// Notes that so many bytes more were read, and reports it if that is due.
fn note<C: Clock, E: Write>(meter: &mut Meter, clock: &C, err: &mut E, count: usize) {
    meter.is_begun = true;
    meter.read = meter.read.saturating_add(count as u64);
    let Some(millis) = meter.elapsed(clock) else {
        return;
    };
    if millis.saturating_sub(meter.told) >= PAUSE {
        meter.told = millis;
        meter.tell(millis, err, "");
    }
}

impl Meter {
    /// How many milliseconds have passed, if the clock can be read.
    fn elapsed<C: Clock>(&self, clock: &C) -> Option<u128> {
        let now = Instant::now(clock).ok()?;
        Some(now.duration_since(self.begun?).as_millis())
    }

    /// Writes the line in place of the one before it, by one write.
    fn tell<E: Write>(&mut self, millis: u128, err: &mut E, end: &str) {
        let mut line = Cursor::new([0; CAPACITY]);
        let speed = per_second(self.read, millis);
        let _ = match self.length {
            Some(length) => write!(
                line,
                "\r{}",
                Measured {
                    read: self.read,
                    length,
                    speed
                }
            ),
            None => write!(line, "\r{}, {}/s", Amount(self.read), Amount(speed)),
        };
        let width = line.position() as usize;
        for _ in width..self.width {
            let _ = write!(line, " ");
        }
        let _ = write!(line, "{end}");
        self.width = width;
        let len = (line.position() as usize).min(CAPACITY);
        let _ = err.write_all(&line.get_ref()[..len]);
        let _ = err.flush();
    }
}

/// How many bytes are read in a second.
fn per_second(read: u64, millis: u128) -> u64 {
    let speed = u128::from(read) * 1000 / millis.max(1);
    u64::try_from(speed).unwrap_or(u64::MAX)
}

/// How far an input of a known length is read.
#[derive(Clone, Copy)]
struct Measured {
    read: u64,
    length: u64,
    speed: u64,
}

impl fmt::Display for Measured {
    fn fmt<W: fmt::Write>(&self, f: &mut fmt::Formatter<W>) -> fmt::Result {
        let percent = percent_of(self.read, self.length);
        let left = self.length.saturating_sub(self.read) / self.speed.max(1);
        let whole = Amount(self.length);
        let speed = Amount(self.speed);
        write!(f, "{percent} % of {whole}, {speed}/s, {left} s left")
    }
}

/// How much of a length is read, in percent.
fn percent_of(read: u64, length: u64) -> u128 {
    if length <= read {
        return 100;
    }
    u128::from(read) * 100 / u128::from(length)
}

/// A number of bytes, in the greatest unit of which there is one.
#[derive(Clone, Copy)]
struct Amount(u64);

/// The units, each a thousand times the one before.
const UNITS: [&str; 6] = ["kB", "MB", "GB", "TB", "PB", "EB"];

impl fmt::Display for Amount {
    fn fmt<W: fmt::Write>(&self, f: &mut fmt::Formatter<W>) -> fmt::Result {
        let mut whole = self.0;
        let mut rest = 0;
        let mut unit = "B";
        for greater in &UNITS {
            if whole < 1000 {
                break;
            }
            rest = whole % 1000;
            whole /= 1000;
            unit = greater;
        }
        let tenths = rest / 100;
        if whole < 10 && unit != "B" {
            write!(f, "{whole}.{tenths} {unit}")
        } else {
            write!(f, "{whole} {unit}")
        }
    }
}
