// What a request's writes and its cut make of the list, before the container is written: row 13 is judged on it.
ghost use Rattle.std.specs.Prelude.{◌≡◌, cond, ◌≤◌, leb, length};
ghost use Rattle.std.proofs.Math.Option.{none};
ghost use Rattle.format.specs.Layout.{limit};
ghost use Rattle.requests.specs.Forms.{PartedIn, writes_in, cut_in};
ghost use Rattle.stretches.specs.List.{list_length, row_limit, stretches_of, list_bytes};
ghost use Rattle.stretches.specs.Claims.{Storable};
ghost use Rattle.lists.specs.Tables.{rows_of, Ready};
ghost use Rattle.listed_slot.specs.Following.{followed_by};

use lists::list::ROW_LIMIT;
use lists::rows::{Rows, TABLE_SIZE};
use requests::cursors::ENTRY_SIZE;
use requests::forms::Parted;
use requests::offsets::position;
use writes::sizes::grown;

// The table of the writes, an entry at a time: each is one pass over the rows. The size of the data after them.
fn follow_writes(rows: &mut Rows, q: &[u8], t: Parted, size: usize) -> usize
    requires { PartedIn q.now t × ((size ≤ limit) × Storable (rows_of rows.old) size) }
    ensures rows_after { rows_of rows.new
        ≡ followed_by (writes_in t q.now) none size (rows_of rows.old) }
    ensures ready { Ready rows.new result }
{
    let mut cursor = t.writes.first;
    let mut after = size;
    for _ in 0..t.writes.count {
        let entry = cursor.entry(q, ENTRY_SIZE);
        let place = position(entry.offset, after);
        rows.write_over(after, place, entry.count);
        after = grown(after, place, entry.count);
        cursor = entry.next;
    }
    after
}

// The writes, then the cut.
fn follow(rows: &mut Rows, q: &[u8], t: Parted, size: usize)
    requires { PartedIn q.now t × ((size ≤ limit) × Storable (rows_of rows.old) size) }
    ensures { rows_of rows.new
        ≡ followed_by (writes_in t q.now) (cut_in t.cut) size (rows_of rows.old) }
{
    let written = follow_writes(rows, q, t, size);
    if let Some(length) = t.cut {
        rows.cut_to(written, length);
    }
}

// Moves the list by the writes and the cut, unless it would have too many rows; whether it did.
pub(crate) fn write_list(l: &mut [u8], q: &[u8], t: Parted, size: usize) -> bool
    requires { PartedIn q.now t
        × ((size ≤ limit) × ((length l.old ≡ list_length) × Storable (stretches_of l.old) size)) }
    ensures value { result ≡ leb (length
        (followed_by (writes_in t q.now) (cut_in t.cut) size (stretches_of l.old))) row_limit }
    ensures l_after { l.new ≡ cond result (list_bytes
        (followed_by (writes_in t q.now) (cut_in t.cut) size (stretches_of l.old)))
        l.old }
{
    let mut rows = Rows {
        bytes: [0; TABLE_SIZE],
        count: 0,
    };
    rows.load(l);
    follow(&mut rows, q, t, size);
    let count = rows.len();
    if ROW_LIMIT < count {
        return false;
    }
    rows.store(l);
    true
}
