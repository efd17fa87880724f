//! A table of messages as printable lines.
ghost use Rattle.std.specs.Prelude.{◌≡◌, ◌+◌, ◌<◌, ◌++◌, [], ◌∷◌, codes, length, string_bytes, map, IfOk, OnOk};
ghost use Rattle.wire_lib.specs.Pictures.{FitInColumns, AppendsLines, line_in, line_bytes, rate_text, row_text, row_texts, head_text, damage_count, damage_texts, picture_texts};

use crate::watching::printable::printable;
use crate::watching::table::{Row, Table};
use std::alloc::{AllocError, Global};

/// How a table is shown.
#[derive(Clone, Copy, Debug, PartialEq, Eq, Drop)]
pub struct View {
    /// The maximum width of a line, in columns.
    pub columns: usize,
    /// The maximum number of kinds that are shown.
    pub kinds: usize,
    /// The current window of time; without it no rates are shown.
    pub window: Option<u64>,
}

/// Appends a text as a printable line.
fn put_line(
    alloc: Global,
    lines: &mut Vec<Vec<u8>>,
    columns: usize,
    text: &str,
) -> Result<(), AllocError>
    requires { FitInColumns columns lines.old.items }
    ensures fits { OnOk result (FitInColumns columns lines.new.items) }
    ensures text { OnOk result (AppendsLines columns (text.now ∷ [])
        lines.old.items lines.new.items) }
{
    Ok(lines.push(printable(alloc, text.trim_end(), columns)?)?)
}

/// The rate per second with one decimal, by the number in a window of two seconds.
fn per_second(alloc: Global, came: u64) -> Result<String, AllocError>
    ensures { IfOk result (λ text. string_bytes text ≡ rate_text came) }
{
    format!(in alloc; "{}.{}", came / 2, came % 2 * 5)
}

/// The text of a row: its kind, the number of messages, the rate, and the last one.
fn said(alloc: Global, row: &Row, window: Option<u64>) -> Result<String, AllocError>
    ensures { IfOk result (λ text. string_bytes text ≡ row_text window row.now) }
{
    let (name, last) = (row.name.as_str(), row.last.as_str());
    let count = row.count;
    match window {
        Some(window) => {
            let speed = per_second(alloc, row.rate.in_the_last(window))?;
            format!(in alloc; "{name:<16} {count:>9} {speed:>9}  {last}")
        }
        None => format!(in alloc; "{name:<16} {count:>9}  {last}"),
    }
}

/// The line above the rows.
fn head(view: View) -> &'static str
    ensures { result.now ≡ head_text view.window }
{
    match view.window {
        Some(_) => "message              count     per s  last",
        None => "message              count  last",
    }
}

/// Appends the text of a row.
fn put_row(alloc: Global, lines: &mut Vec<Vec<u8>>, row: &Row, view: View) -> Result<(), AllocError>
    requires { FitInColumns view.columns lines.old.items }
    ensures fits { OnOk result (FitInColumns view.columns lines.new.items) }
    ensures text { OnOk result (AppendsLines view.columns (row_text view.window row.now ∷ [])
        lines.old.items lines.new.items) }
{
    let text = said(alloc, row, view.window)?;
    put_line(alloc, lines, view.columns, text.as_str())
}

/// Appends the kinds of which a message came; `..` in place of those that are too many.
fn put_rows(
    alloc: Global,
    lines: &mut Vec<Vec<u8>>,
    rows: &[Row],
    view: View,
) -> Result<(), AllocError>
    requires { FitInColumns view.columns lines.old.items }
    ensures fits { OnOk result (FitInColumns view.columns lines.new.items) }
    ensures texts { OnOk result (AppendsLines view.columns
        (row_texts view.window rows.now view.kinds) lines.old.items lines.new.items) }
{
    let mut left = view.kinds;
    for row in rows {
        if row.count == 0 {
            continue;
        }
        if left == 0 {
            return put_line(alloc, lines, view.columns, "..");
        }
        left -= 1;
        put_row(alloc, lines, row, view)?;
    }
    Ok(())
}

/// Appends the number of damages.
fn put_count(
    alloc: Global,
    lines: &mut Vec<Vec<u8>>,
    columns: usize,
    damaged: u64,
) -> Result<(), AllocError>
    requires { FitInColumns columns lines.old.items }
    ensures fits { OnOk result (FitInColumns columns lines.new.items) }
    ensures text { OnOk result (AppendsLines columns (damage_count damaged ∷ [])
        lines.old.items lines.new.items) }
{
    let text = format!(in alloc; "{:<16} {:>9}", "no message", damaged)?;
    put_line(alloc, lines, columns, text.as_str())
}

/// Appends the text of a damage.
fn put_damage(
    alloc: Global,
    lines: &mut Vec<Vec<u8>>,
    columns: usize,
    told: &str,
) -> Result<(), AllocError>
    requires { FitInColumns columns lines.old.items }
    ensures fits { OnOk result (FitInColumns columns lines.new.items) }
    ensures text { OnOk result (AppendsLines columns ((codes "  " ++ told.now) ∷ [])
        lines.old.items lines.new.items) }
{
    let text = format!(in alloc; "  {told}")?;
    put_line(alloc, lines, columns, text.as_str())
}

/// Appends the number of damages, and the last ones.
fn put_damages(
    alloc: Global,
    lines: &mut Vec<Vec<u8>>,
    table: &Table,
    view: View,
) -> Result<(), AllocError>
    requires { FitInColumns view.columns lines.old.items }
    ensures fits { OnOk result (FitInColumns view.columns lines.new.items) }
    ensures texts { OnOk result (AppendsLines view.columns
        (damage_texts table.now) lines.old.items lines.new.items) }
{
    if table.damaged == 0 {
        return Ok(());
    }
    put_count(alloc, lines, view.columns, table.damaged)?;
    for told in &table.damages {
        put_damage(alloc, lines, view.columns, told.as_str())?;
    }
    Ok(())
}

/// Returns how many lines of a picture, its last ones, are about damage: one for each text that is kept, and one for their number;
/// none without damage.
pub fn damage_lines(table: &Table) -> usize
    ensures none { table.now.damaged ≡ 0 → result ≡ 0 }
    ensures some { 0 < table.now.damaged → result ≡ length table.now.damages.items + 1 }
{
    if table.damaged == 0 {
        return 0;
    }
    table.damages.len().saturating_add(1)
}

/// Returns a table as printable lines, of at most as many bytes as the view has columns: a head, each kind of which a message came (a
/// line `..` for those beyond the view's number), and then the number of damages with the last ones.
///
/// # Errors
/// Out of memory.
///
/// # Allocates
/// The lines. A text at a time is freed.
pub fn picture(alloc: Global, table: &Table, view: View) -> Result<Vec<Vec<u8>>, AllocError>
    ensures fits { IfOk result (λ lines. FitInColumns view.columns lines.items) }
    ensures texts { IfOk result (λ lines. line_bytes lines.items
        ≡ map (line_in view.columns) (picture_texts view table.now)) }
{
    let mut lines = Vec::new(alloc);
    put_line(alloc, &mut lines, view.columns, head(view))?;
    put_rows(alloc, &mut lines, &table.rows, view)?;
    put_damages(alloc, &mut lines, table, view)?;
    Ok(lines)
}
