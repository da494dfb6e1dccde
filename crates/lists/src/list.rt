// The list as bytes, judged where it lies.
ghost use Rattle.std.specs.Prelude.{◌≡◌, ◌&&◌, ◌+◌, ◌*◌, ◌≤◌, length};
ghost use Rattle.octets.specs.Lists.{every};
ghost use Rattle.octets.specs.Strings.{all_zero};
ghost use Rattle.stretches.specs.Stretches.{rising};
ghost use Rattle.stretches.specs.List.{row_limit, row_size, rows_from, zero_in, list_ok};
ghost use Rattle.lists.specs.Spans.{span_ok};

use crate::rows::{ROW_SIZE, Span, row_at};

// The length of a list, the most rows it has, and where they begin.
pub const LIST_LENGTH: usize = 2052;

pub const ROW_LIMIT: usize = 256;

pub const ROWS_AT: usize = 4;

// From so many bytes on, a test for zeros is worth a call.
const LONG: usize = 16;

// Whether each byte is 0. A list's rows may be a byte each, and a call for each takes longer than looking at them here.
fn zeros(s: &[u8]) -> bool
    ensures { result ≡ all_zero s.now }
{
    if s.len() < LONG {
        s.iter().all(|byte| *byte == 0)
    } else {
        octets::strings::all_zero(s)
    }
}

// Whether a row is not empty, starts at `low` or above, ends inside the data, and names only zeros.
#[tactic(auto, unfolding(crate::specs::Spans::span_ok))]
fn row_ok(row: Span, low: usize, d: &[u8]) -> bool
    ensures { result ≡ span_ok low row d.now }
{
    low <= row.from && row.from < row.to && row.to <= d.len() && zeros(&d[row.from..row.to])
}

// Whether the n rows of a table are in order, apart, inside the data, and name only zeros.
fn rows_ok(t: &[u8], n: usize, d: &[u8]) -> bool
    requires { (row_size * n ≤ length t.now) × (n ≤ row_limit) }
    ensures { result ≡ (rising 0 (rows_from n 0 t.now) (length d.now)
        && every (zero_in d.now) (rows_from n 0 t.now)) }
{
    let mut low = 0;
    for i in 0..n {
        let row = row_at(t, i);
        if !row_ok(row, low, d) {
            return false;
        }
        low = row.to + 1;
    }
    true
}

// Row 16 does not apply.
pub fn list_ok(l: &[u8], d: &[u8]) -> bool
    ensures { result ≡ list_ok l.now d.now }
{
    if l.len() != LIST_LENGTH {
        return false;
    }
    let n = octets::numbers::u32_at(l, 0) as usize;
    if ROW_LIMIT < n {
        return false;
    }
    let end = ROWS_AT + ROW_SIZE * n;
    octets::strings::all_zero(&l[end..]) && rows_ok(&l[ROWS_AT..end], n, d)
}
