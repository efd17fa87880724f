//! The progress of long work, in one line of a terminal.
use std::io::IsTerminal;
use std::time::Instant;

// How many milliseconds the work runs before a line is shown.
const FIRST: u64 = 1000;

// How many milliseconds pass between two lines.
const BETWEEN: u64 = 500;

// After how many bytes the clock is read again: a call of it for each record would cost more than the record.
const UNREAD: u64 = 16384;

/// How many bytes were processed, and how fast, for a line on standard error that is written over by `\r`.
///
/// It is shown only if standard error is a terminal and standard output isn't, and only after a second: then twice a second at most. It
/// writes nothing to standard output, allocates nothing and starts no thread; if the clock or a write fails, the line is left out.
#[derive(Drop)]
pub struct Progress {
    // when the work began; nothing if no line is shown
    begin: Option<Instant>,
    bytes: u64,
    // bytes since the clock was read
    unread: u64,
    // when the line was written last, in milliseconds since the beginning
    written: Option<u64>,
}

impl Progress {
    /// Progress of work that begins now.
    pub fn new(rt: &HostRuntime) -> Progress {
        let mut progress = Progress::hidden();
        if rt.stderr().is_terminal() && !rt.stdout().is_terminal() {
            progress.begin = Instant::now(rt).ok();
        }
        progress
    }

    /// Progress that is never shown.
    pub fn hidden() -> Progress {
        Progress {
            begin: None,
            bytes: 0,
            unread: 0,
            written: None,
        }
    }

    // How many milliseconds the work has run, if a line may be due.
    fn elapsed(&self, rt: &HostRuntime) -> Option<u64> {
        let Some(begin) = &self.begin else {
            return None;
        };
        match begin.elapsed(rt) {
            Ok(time) => Some(u64::try_from(time.as_millis()).unwrap_or(u64::MAX)),
            Err(_) => None,
        }
    }

    // Whether the line is due.
    fn is_due(&self, now: u64) -> bool {
        match self.written {
            Some(written) => now.saturating_sub(written) >= BETWEEN,
            None => now >= FIRST,
        }
    }

    /// Counts bytes that were processed, and writes the line if it is due.
    pub fn step(&mut self, rt: &HostRuntime, bytes: u64) {
        if self.begin.is_none() {
            return;
        }
        self.bytes = self.bytes.saturating_add(bytes);
        self.unread = self.unread.saturating_add(bytes);
        if self.unread < UNREAD {
            return;
        }
        self.unread = 0;
        if let Some(now) = self.elapsed(rt) {
            if self.is_due(now) {
                self.written = Some(now);
                write_line(rt, self.bytes, now);
            }
        }
    }

    /// Takes the line away, if one is shown. Call it before anything else is written to standard error, and at the end.
    pub fn end(&mut self, rt: &HostRuntime) {
        if self.written.is_some() {
            self.written = None;
            // as wide as the line; where it can't be written, the line stays
            let _ = eprint!(rt; "\r{:40}\r", "");
        }
    }
}

// Writes the line, of one width: megabytes, and megabytes a second, in tenths.
fn write_line(rt: &HostRuntime, bytes: u64, milliseconds: u64) {
    let tenths = bytes / 100_000;
    // tenths of a megabyte a second are hundreds of bytes a millisecond
    let rate = bytes.checked_div(milliseconds).unwrap_or(0) / 100;
    let (whole, part) = (tenths / 10, tenths % 10);
    let (fast, slow) = (rate / 10, rate % 10);
    // progress alone isn't worth a failure
    let _ = eprint!(rt; "\r{whole:9}.{part} MB, {fast:6}.{slow} MB/s");
}
