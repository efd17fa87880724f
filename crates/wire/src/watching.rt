//! The mode `watch`: on a terminal pictures, each drawn over the last; elsewhere lines.
use crate::devices::{read_some, say};
use crate::failure::{CLOCK_FAULT, Failure};
use help::{moves_cursor, wants_colour};
use std::env;
use std::thread::sleep;
use std::time::{Duration, Instant};
use wire_lib::receive::Reading;
use wire_lib::watching::picture::{View, damage_lines, picture};
use wire_lib::watching::rate::WINDOW;
use wire_lib::watching::screen::Screen;
use wire_lib::watching::table::{DAMAGES, Table};
use wire_lib::watching::viewer::Viewer;

/// The most bytes of one read. After fewer the next read may block.
const ROOM: usize = 4096;

/// After a read of fewer bytes the line isn't busy. A terminal returns less than `ROOM` on a busy line too: it buffers 4095 bytes.
const FEW: usize = 1024;

// std can't tell whether more bytes are there, so after a picture the program waits. Ten a second are enough for a person, and a line
// buffers more than comes in a tenth of a second.
/// How many milliseconds a picture stays at least, except for the last one.
const STANDS: u64 = 100;

/// What was shown, how, and when.
#[derive(Drop)]
struct Showing {
    begin: Instant,
    /// When the last picture was drawn, in milliseconds.
    drawn: u64,
    /// Whether pictures are drawn.
    is_terminal: bool,
    /// Whether damage is red.
    colour: bool,
    screen: Screen,
    view: View,
    /// Lines that aren't written yet.
    lines: Vec<u8>,
}

// std can tell whether standard output is a terminal, but not its size.
/// The number in a variable of the environment, or `otherwise`; also if it is 0, as where a terminal doesn't know its size.
fn number_of(rt: &HostRuntime, name: &str, otherwise: usize) -> usize {
    match env::var(rt, name) {
        Ok(digits) => match digits.as_str().parse::<usize>() {
            Ok(number) if number > 0 => number,
            _ => otherwise,
        },
        Err(_) => otherwise,
    }
}

impl Showing {
    /// Nothing was shown yet.
    fn new(rt: &HostRuntime) -> Result<Showing, Failure> {
        let Ok(begin) = Instant::now(rt) else {
            return Err(CLOCK_FAULT);
        };
        // beside the kinds: the first line, `..`, the number of damages, the damages, and the cursor's line
        let others = DAMAGES + 4;
        Ok(Showing {
            begin,
            drawn: 0,
            is_terminal: moves_cursor(rt),
            colour: wants_colour(rt),
            screen: Screen::new(),
            view: View {
                columns: number_of(rt, "COLUMNS", 80),
                kinds: number_of(rt, "LINES", 24).saturating_sub(others),
                window: None,
            },
            lines: Vec::new(rt.alloc()),
        })
    }

    /// The time since the beginning, in milliseconds.
    fn now(&self, rt: &HostRuntime) -> Result<u64, Failure> {
        match self.begin.elapsed(rt) {
            Ok(time) => Ok(u64::try_from(time.as_millis()).unwrap_or(u64::MAX)),
            Err(_) => Err(CLOCK_FAULT),
        }
    }

    /// The current window of time.
    fn window(&self, rt: &HostRuntime) -> Result<u64, Failure> {
        Ok(self.now(rt)? / WINDOW)
    }

    /// Draws a picture.
    fn draw(&mut self, rt: &HostRuntime, table: &Table) -> Result<(), Failure> {
        self.drawn = self.now(rt)?;
        let view = View {
            window: Some(self.drawn / WINDOW),
            ..self.view
        };
        let lines = picture(rt.alloc(), table, view)?;
        self.lines.clear();
        let red = if self.colour { damage_lines(table) } else { 0 };
        let plain = lines.len().saturating_sub(red);
        self.screen.draw(&lines, plain, &mut self.lines)?;
        self.write(rt)
    }

    /// Writes the lines, and clears them.
    fn write(&mut self, rt: &HostRuntime) -> Result<(), Failure> {
        say(rt, &self.lines)?;
        self.lines.clear();
        Ok(())
    }

    /// Shows on a terminal the result of a read of `count` bytes. A picture is drawn if the next read may block, or the last picture has stayed long
    /// enough; after a few bytes it stays that long, while more come.
    fn show(&mut self, rt: &HostRuntime, table: &Table, count: usize) -> Result<(), Failure> {
        self.lines.clear();
        if count < ROOM || self.now(rt)?.saturating_sub(self.drawn) >= STANDS {
            self.draw(rt, table)?;
        }
        if count < FEW {
            sleep(rt, Duration::from_millis(STANDS));
        }
        Ok(())
    }

    /// Shows the end: on a terminal the last picture, elsewhere the table.
    fn end(&mut self, rt: &HostRuntime, table: &Table) -> Result<(), Failure> {
        if self.is_terminal {
            return self.draw(rt, table);
        }
        self.write(rt)?;
        for line in &picture(rt.alloc(), table, self.view)? {
            self.lines.extend_from_slice(line)?;
            self.lines.push(b'\n')?;
        }
        self.write(rt)
    }
}

/// Watches standard input to its end, and returns whether all were messages.
pub fn watch(rt: &HostRuntime, reading: Reading<'_>) -> Result<bool, Failure> {
    let mut viewer = Viewer::new(reading)?;
    let mut shown = Showing::new(rt)?;
    let mut room = [0u8; ROOM];
    for _ in 0..u64::MAX {
        let count = match read_some(rt, &mut room) {
            Ok(count) => count,
            Err(failure) => {
                // as of a port that was unplugged: what came before is shown
                shown.end(rt, &viewer.table)?;
                return Err(failure);
            }
        };
        if count == 0 {
            break;
        }
        let window = shown.window(rt)?;
        let pushed = viewer.push(room.get(..count).unwrap_or(&[]), window, &mut shown.lines);
        if !shown.is_terminal {
            // out of memory those before what found none
            shown.write(rt)?;
        }
        pushed?;
        if shown.is_terminal {
            shown.show(rt, &viewer.table, count)?;
        }
    }
    let is_good = viewer.finish(&mut shown.lines)?;
    shown.end(rt, &viewer.table)?;
    Ok(is_good)
}
