//! Pictures on a terminal, each drawn over the last.
//!
//! The terminal's height and width aren't known. So the cursor moves over existing lines and stops at the first and last one, and the
//! terminal cuts what is too wide: wrapping is off while a picture is drawn, so it keeps its height.
ghost use Rattle.std.specs.Prelude.{◌≡◌, ℕ, List, ◌++◌, length, OnOk, OnErr};
ghost use Rattle.wire_lib.specs.Drawn.{repeated, line_over, lines_over, drawn};

use std::alloc::AllocError;

/// Moves the cursor up one line; it stays at the first one.
pub const UP: &[u8] = b"\x1b[A";

/// Moves to the start of the line, and turns wrapping off: the terminal cuts lines at its width.
pub const BEGIN: &[u8] = b"\r\x1b[?7l";

/// Clears a line from its start. After a line as wide as the terminal it would clear the last character.
pub const CLEAR: &[u8] = b"\x1b[K";

/// Goes to the next line; after the last one the terminal makes a new one, and its first line scrolls out.
pub const NEXT: &[u8] = b"\r\n";

/// Moves to the start of the line below; it stays in the last one.
pub const DOWN: &[u8] = b"\r\x1b[B";

/// Clears the lines below, and turns wrapping on again.
pub const END: &[u8] = b"\x1b[J\x1b[?7h";

/// Begins the colour of damage, red.
pub const RED: &[u8] = b"\x1b[31m";

/// Ends a colour.
pub const PLAIN: &[u8] = b"\x1b[0m";

/// The last picture on a terminal, above the cursor.
#[derive(Clone, Copy, Debug, PartialEq, Eq, Drop)]
pub struct Screen {
    /// How many lines it has; 0 before the first.
    pub height: usize,
}

/// Appends bytes `times` times.
fn put_times(out: &mut Vec<u8>, bytes: &[u8], times: usize) -> Result<(), AllocError>
    ensures { OnOk result (out.new.items ≡ out.old.items ++ repeated times bytes.now) }
{
    let mut left = times;
    while left > 0 {
        out.extend_from_slice(bytes)?;
        left -= 1;
    }
    Ok(())
}

/// Appends what draws a line over the one at the cursor, with or without colour.
fn put_line(out: &mut Vec<u8>, line: &[u8], is_red: bool) -> Result<(), AllocError>
    ensures { OnOk result (out.new.items ≡ out.old.items ++ line_over is_red line.now) }
{
    out.extend_from_slice(CLEAR)?;
    if is_red {
        out.extend_from_slice(RED)?;
        out.extend_from_slice(line)?;
        out.extend_from_slice(PLAIN)?;
    } else {
        out.extend_from_slice(line)?;
    }
    out.extend_from_slice(DOWN)
}

/// Appends what draws lines over those at the cursor, all but the first `plain` in red.
fn put_lines(out: &mut Vec<u8>, lines: &[Vec<u8>], plain: usize) -> Result<(), AllocError>
    ensures { OnOk result (out.new.items ≡ out.old.items ++ lines_over plain lines.now) }
{
    let mut left = plain;
    for line in lines {
        put_line(out, line, left == 0)?;
        left = left.saturating_sub(1);
    }
    Ok(())
}

impl Screen {
    /// Returns a screen without a picture.
    pub fn new() -> Screen
        ensures { result.height ≡ 0 }
    {
        Screen { height: 0 }
    }

    /// Appends what draws these lines over the last picture and leaves the cursor below them: all but the first `plain` in red.
    ///
    /// New terminal lines are made only for as many lines as the picture has more than the last one. So a terminal that is lower than
    /// the picture shows its first lines, and no picture fills the scrollback.
    ///
    /// # Errors
    /// Out of memory: the screen is unchanged, and what was appended must not be written.
    ///
    /// # Allocates
    /// What `out` grows by.
    pub fn draw(
        &mut self,
        lines: &[Vec<u8>],
        plain: usize,
        out: &mut Vec<u8>,
    ) -> Result<(), AllocError>
        ensures drawn { OnOk result (out.new.items ≡ out.old.items
            ++ drawn self.old.height plain lines.now) }
        ensures height { OnOk result (self.new.height ≡ length lines.now) }
        ensures unchanged { OnErr result (self.new ≡ self.old) }
    {
        put_times(out, NEXT, lines.len().saturating_sub(self.height))?;
        put_times(out, UP, lines.len().max(self.height))?;
        out.extend_from_slice(BEGIN)?;
        put_lines(out, lines, plain)?;
        out.extend_from_slice(END)?;
        self.height = lines.len();
        Ok(())
    }
}
