// The rows of a list in memory while a request is judged: what a write and a cut make of them.
ghost use Rattle.std.specs.Prelude.{◌≡◌, ◌++◌, ◌+◌, ◌*◌, ◌≤◌, ◌<◌, length};
ghost use Rattle.octets.specs.Facts.{Fits32};
ghost use Rattle.stretches.specs.Stretches.{below, above, joined, written_over};
ghost use Rattle.stretches.specs.List.{list_length, row_limit, row_size, row_count, stretches_of, list_bytes};
ghost use Rattle.lists.specs.Spans.{span_at, chosen};

use crate::list::{LIST_LENGTH, ROWS_AT};

// A row: start 4, length 4.
pub const ROW_SIZE: usize = 8;

// A list has at most 256 rows, each of a request's 16 writes adds one at most, and a pass may hold one back.
pub const TABLE_SIZE: usize = ROW_SIZE * 273;

// The positions from one up to another, which is not among them; none where it is not above.
#[derive(Clone, Copy)]
pub struct Span {
    pub from: usize,
    pub to: usize,
}

// Row i.
pub fn row_at(t: &[u8], i: usize) -> Span
    requires { (row_size * i + row_size ≤ length t.now) × Fits32 i }
    ensures { result ≡ span_at (row_size * i) t.now }
{
    let at = ROW_SIZE * i;
    let start = octets::numbers::u32_at(t, at) as usize;
    let count = octets::numbers::u32_at(t, at + 4) as usize;
    Span {
        from: start,
        to: start + count,
    }
}

// The first of two spans unless it is empty.
#[tactic(auto, unfolding(crate::specs::Spans::chosen))]
fn choose(first: Span, other: Span) -> Span
    ensures { result ≡ chosen first other }
{
    if first.from < first.to { first } else { other }
}

// Rows, one behind the other at the front of the bytes, as in a list.
#[derive(Drop)]
pub struct Rows {
    pub bytes: [u8; TABLE_SIZE],
    pub count: usize,
}

impl Rows {
    ghost use Rattle.lists.specs.Tables.{table_rows, rows_of, Pushed, Ready, Ordered};

    // Becomes the rows of a list. In place, since what is handed back by value stands on the stack twice.
    pub fn load(&mut self, l: &[u8])
        requires { (length l.now ≡ list_length) × (row_count l.now ≤ row_limit) }
        ensures { rows_of self.new ≡ stretches_of l.now }
    {
        octets::moves::copy_part(&mut self.bytes, 0, &l[ROWS_AT..]);
        self.count = octets::numbers::u32_at(l, 0) as usize;
    }

    // The rows as a list.
    #[tactic(auto, using(crate::proofs::StoreLaws::counted))]
    pub fn store(&self, l: &mut [u8])
        requires { (length l.old ≡ list_length) × (length (rows_of self.now) ≤ row_limit) }
        ensures { l.new ≡ list_bytes (rows_of self.now) }
    {
        let used = ROW_SIZE * self.count;
        octets::numbers::put_u32(l, 0, self.count as u32);
        octets::moves::copy_part(l, ROWS_AT, &self.bytes[..used]);
        octets::moves::clear_part(l, ROWS_AT + used, LIST_LENGTH);
    }

    // How many there are.
    #[tactic(auto, using(crate::proofs::StoreLaws::counted))]
    pub fn len(&self) -> usize
        ensures { result ≡ length (rows_of self.now) }
    {
        self.count
    }

    // A span as one row more, if it is not empty.
    fn push(&mut self, s: Span)
        requires { (self.old.count < table_rows) × Fits32 s.to }
        ensures { Pushed self.old s self.new }
    {
        if s.from < s.to {
            let at = ROW_SIZE * self.count;
            octets::numbers::put_u32(&mut self.bytes, at, s.from as u32);
            octets::numbers::put_u32(&mut self.bytes, at + 4, (s.to - s.from) as u32);
            self.count += 1;
        }
    }

    // The positions from a up to e are taken out, in one pass. A row is split in two at most once, so that each turn puts
    // one row at most, where one has been read: what is left of the row above e is held back for the next turn.
    #[tactic(auto, using(crate::proofs::StoreLaws::counted))]
    fn take_out(&mut self, a: usize, e: usize)
        requires { Ordered self.old × (a ≤ e) }
        ensures { rows_of self.new ≡ below a (rows_of self.old) ++ above e (rows_of self.old) }
    {
        let n = self.count;
        self.count = 0;
        let mut held = Span { from: 0, to: 0 };
        for i in 0..n {
            let row = row_at(&self.bytes, i);
            let low = Span {
                from: row.from,
                to: a.min(row.to),
            };
            self.push(choose(low, held));
            held = Span {
                from: e.max(row.from),
                to: row.to,
            };
        }
        self.push(held);
    }

    // The gap from a size up to a position behind it is added; a row that ends at the size is made longer.
    #[tactic(auto, using(crate::proofs::StoreLaws::counted))]
    fn add_gap(&mut self, size: usize, at: usize)
        requires { Ready self.old size × ((size < at) × Fits32 at) }
        ensures { rows_of self.new ≡ joined size at (rows_of self.old) }
    {
        if 0 < self.count {
            let i = self.count - 1;
            let last = row_at(&self.bytes, i);
            if last.to == size {
                self.count = i;
                self.push(Span {
                    from: last.from,
                    to: at,
                });
                return;
            }
        }
        self.push(Span { from: size, to: at });
    }

    // After a write of `count` bytes on data of a size.
    pub fn write_over(&mut self, size: usize, at: usize, count: usize)
        requires { Ready self.old size × (Fits32 at × Fits32 count) }
        ensures { rows_of self.new ≡ written_over size at count (rows_of self.old) }
    {
        if count == 0 {
            return;
        }
        if size < at {
            self.add_gap(size, at);
        } else {
            self.take_out(at, at + count);
        }
    }

    // After a cut of data of a size.
    pub fn cut_to(&mut self, size: usize, m: usize)
        requires { Ready self.old size }
        ensures { rows_of self.new ≡ below m (rows_of self.old) }
    {
        self.take_out(m, m.max(size));
    }
}
