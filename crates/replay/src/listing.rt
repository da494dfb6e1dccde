// The never-written list in the transcript: which positions it names, and the line of its runs.
ghost use Rattle.std.specs.Prelude.{◌<◌, ◌≤◌};

use crate::printing::Run;
use lists::list::{LIST_LENGTH, ROW_LIMIT, ROWS_AT};
use lists::rows::{Span, row_at};
use std::io;
use std::io::Write;

// More runs are shortened.
const MOST_RUNS: usize = 16;

// How many rows a list has.
fn row_count(list: &[u8; LIST_LENGTH]) -> usize
    ensures { result ≤ ROW_LIMIT }
{
    (octets::numbers::u32_at(list, 0) as usize).min(ROW_LIMIT)
}

// Row i of those that a list has room for.
fn row(list: &[u8; LIST_LENGTH], i: usize) -> Span
    requires { i < ROW_LIMIT }
{
    row_at(&list[ROWS_AT..], i)
}

// Whether a list names a position.
pub(crate) fn named(list: &[u8; LIST_LENGTH], position: usize) -> bool {
    for i in 0..row_count(list) {
        let span = row(list, i);
        if span.from <= position && position < span.to {
            return true;
        }
    }
    false
}

// The positions that a good list names, in runs; nothing where it names none.
pub(crate) fn show<W: Write>(out: &mut W, list: &[u8; LIST_LENGTH]) -> io::Result<()> {
    let count = row_count(list);
    if count == 0 {
        return Ok(());
    }
    write!(out, "    never written:")?;
    let shown = count.min(MOST_RUNS);
    for i in 0..shown {
        let span = row(list, i);
        if span.from < span.to {
            let run = Run {
                first: span.from,
                last: span.to - 1,
            };
            write!(out, " {run}")?;
        }
    }
    if shown < count {
        write!(out, " ... and {} more", count - shown)?;
    }
    writeln!(out)
}
