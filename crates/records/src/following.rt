//! Following a log: printing it, and then what is appended to it.
ghost use Rattle.std.specs.Prelude.{◌-◌, ◌<◌, IsTrue, IfOk, IfErr};
ghost use Rattle.journal.specs.Store.{EndsBefore};
ghost use Rattle.records.specs.Statuses.{IsFaultStatus};

use crate::entries::{MOST, OUTPUT, open_file, say_error, say_failed, say_no_memory, status_of};
use crate::naming::{Identity, MOVED};
use crate::showing::write_rest;
use crate::words::Wanted;
use help::Progress;
use journal::stores::{Store, Stored};
use journal_scan::Scan;
use std::io::{self, BufWriter, Write};
use std::thread::sleep;
use std::time::Duration;

// How many milliseconds pass between two looks at a log.
const PAUSE: u64 = 250;

// How many of the last bytes that were read of a log are looked at again.
const SEEN: usize = 64;

// The last bytes that were read of a log, and their offset.
#[derive(Drop)]
struct Seen {
    from: u64,
    count: usize,
    bytes: [u8; SEEN],
}

impl Seen {
    // The bytes before an offset; nothing if a read failed.
    fn before<S: Store>(store: &mut S, at: u64) -> Option<Seen> {
        let from = at.saturating_sub(SEEN as u64);
        let mut bytes = [0u8; SEEN];
        let wanted = ((at - from) as usize).min(SEEN);
        let count = store.read_at(from, &mut bytes[..wanted])?;
        Some(Seen { from, count, bytes })
    }

    // Whether there are other bytes now; nothing if a read failed.
    fn is_other<S: Store>(&self, store: &mut S) -> Option<bool> {
        let mut now = [0u8; SEEN];
        let wanted = self.count.min(SEEN);
        let count = store.read_at(self.from, &mut now[..wanted])?;
        Some(now[..count] != self.bytes[..count])
    }
}

// Whether a log is shorter than what was read of it.
fn is_cut_off<S: Store>(store: &mut S, at: u64) -> bool
    ensures { IsTrue result → EndsBefore (S.line store.old).told (at - 1) }
{
    let mut room = [0u8; 1];
    at > 0 && matches!(store.read_at(at - 1, &mut room), Some(0))
}

// How the part of a log that was shown has changed, if it has.
fn changed<S: Store>(store: &mut S, at: u64, seen: &Seen) -> Option<&'static str> {
    if is_cut_off(store, at) {
        return Some("cut off: it is shorter than what was shown");
    }
    match seen.is_other(store) {
        Some(false) => None,
        Some(true) => Some("written anew: what was shown last isn't there now"),
        None => Some("read failed"),
    }
}

// A log that is followed: its name, and the file that was opened by it.
#[derive(Clone, Copy, Drop)]
struct Followed<'a> {
    rt: &'a HostRuntime,
    path: &'a str,
    identity: Identity,
}

// Shows what the scan still finds, and returns the last bytes of that, or the status if it stops. The bytes are read before the last
// lines are printed, so that what is done to the log in answer to these lines is noticed.
fn look<S: Store>(
    log: Followed<'_>,
    scan: &mut Scan,
    store: &mut S,
    wanted: Wanted<'_>,
) -> io::Result<Result<Seen, u8>>
    ensures { IfOk result (λ seen. IfErr seen (λ status. IsFaultStatus status)) }
{
    let rt = log.rt;
    let Ok(mut printed) = BufWriter::new(rt.alloc(), io::writer(rt)) else {
        return Ok(Err(say_no_memory(rt, OUTPUT)));
    };
    let hidden = &mut Progress::hidden();
    let shown = write_rest(rt, hidden, scan, store, &mut printed, wanted, &mut 0);
    let seen = Seen::before(store, scan.at());
    printed.flush()?;
    if let Some(e) = shown? {
        return Ok(Err(status_of(rt, log.path, e)));
    }
    match seen {
        Some(seen) => Ok(Ok(seen)),
        None => Ok(Err(say_failed(rt, log.path, &"read failed"))),
    }
}

// Writes that a log's name leads to another file, or to none, if it does. Returns the status.
fn say_moved(log: Followed<'_>) -> u8
    ensures { 0 < result → IsFaultStatus result }
{
    match log.identity.has_moved(log.rt, log.path) {
        Ok(false) => 0,
        Ok(true) => say_failed(log.rt, log.path, &MOVED),
        Err(e) => say_error(log.rt, log.path, &e),
    }
}

// Shows what the scan still finds, and then what is appended, until the log has changed, or its name leads elsewhere.
fn follow_on<S: Store>(
    log: Followed<'_>,
    scan: &mut Scan,
    store: &mut S,
    wanted: Wanted<'_>,
) -> io::Result<u8>
    ensures { IfOk result (λ status. IsFaultStatus status) }
{
    for _ in 0..u64::MAX {
        let seen = match look(log, scan, store, wanted)? {
            Ok(seen) => seen,
            Err(status) => return Ok(status),
        };
        match say_moved(log) {
            0 => {}
            failed => return Ok(failed),
        }
        sleep(log.rt, Duration::from_millis(PAUSE));
        if let Some(what) = changed(store, scan.at(), &seen) {
            return Ok(say_failed(log.rt, log.path, &what));
        }
    }
    Ok(say_failed(log.rt, log.path, &"looked at too often"))
}

/// Prints a log, and looks four times a second for what was appended to it. Returns the status, once that fails.
pub fn follow(rt: &HostRuntime, path: &str, wanted: Wanted<'_>) -> io::Result<u8>
    ensures { IfOk result (λ status. IsFaultStatus status) }
{
    let file = match open_file(rt, path, false) {
        Ok(file) => file,
        Err(status) => return Ok(status),
    };
    let identity = match Identity::of(&file) {
        Ok(identity) => identity,
        Err(e) => return Ok(say_error(rt, path, &e)),
    };
    let mut store = Stored::new(file);
    match Scan::new(rt.alloc(), MOST, 0) {
        Ok(mut scan) => follow_on(
            Followed { rt, path, identity },
            &mut scan,
            &mut store,
            wanted,
        ),
        Err(e) => Ok(status_of(rt, path, e)),
    }
}
