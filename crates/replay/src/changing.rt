// Which bytes of a buffer a request changed, on an output.
ghost use Rattle.std.specs.Prelude.{◌≡◌, ◌≤◌, length};

use crate::printing::Run;
use std::io;
use std::io::Write;

const BLOCK: usize = 64;

// The end of the whole blocks of unchanged bytes from `at` on. Most bytes of a buffer stay, and passing them over one by one
// takes much longer.
fn blocks_end(before: &[u8], after: &[u8], at: usize) -> usize
    requires { (at ≤ length before.now) × (length before.now ≡ length after.now) }
    ensures { (at ≤ result) × (result ≤ length before.now) }
{
    let count = (before.len() - at) / BLOCK;
    for i in 0..count {
        let from = at + BLOCK * i;
        let to = from + BLOCK;
        if !octets::strings::same(&before[from..to], &after[from..to]) {
            return from;
        }
    }
    at + BLOCK * count
}

// Where a run of changed or of unchanged bytes that goes on at `at` ends.
fn run_end(before: &[u8], after: &[u8], at: usize, changed: bool) -> usize
    requires { (at ≤ length before.now) × (length before.now ≡ length after.now) }
    ensures { (at ≤ result) × (result ≤ length before.now) }
{
    let from = if changed {
        at
    } else {
        blocks_end(before, after, at)
    };
    for i in from..before.len() {
        if (before[i] != after[i]) != changed {
            return i;
        }
    }
    before.len()
}

// The positions at which the two differ, in runs.
pub(crate) fn show<W: Write>(out: &mut W, before: &[u8], after: &[u8]) -> io::Result<()>
    requires { length before.now ≡ length after.now }
{
    write!(out, "    bytes changed:")?;
    let mut at = run_end(before, after, 0, false);
    if at == before.len() {
        write!(out, " none")?;
    }
    // A turn for each run, and a run has no fixed length.
    while at < before.len() {
        let end = run_end(before, after, at + 1, true);
        let run = Run {
            first: at,
            last: end - 1,
        };
        write!(out, " {run}")?;
        at = run_end(before, after, end, false);
    }
    writeln!(out)
}
