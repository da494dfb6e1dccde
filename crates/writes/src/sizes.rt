// Sizes before anything is written: a size that exists only on the way is never materialised.
ghost use Rattle.std.specs.Prelude.{◌≡◌, ◌≤◌, ◌<◌};
ghost use Rattle.format.specs.Layout.{limit};
ghost use Rattle.rules.specs.Writing.{grow, placed};
ghost use Rattle.rules.specs.Sizes.{cut_size, size_all};
ghost use Rattle.requests.specs.Forms.{PartedIn, writes_in, cut_in};
ghost use Rattle.writes.specs.Sizes.{gap_end, last_gap, reached_by, bare_by};

use requests::cursors::ENTRY_SIZE;
use requests::forms::Parted;
use requests::offsets::{position, resolve};

// The size after one write, for crates above too.
pub fn grown(size: usize, position: usize, count: usize) -> usize
    requires { (position < 4294967296) × (count < 4294967296) }
    ensures { result ≡ grow size position count }
{
    if count == 0 {
        return size;
    }
    size.max(position + count)
}

// The end of the last gap after one write.
fn gap_end(end: usize, size: usize, position: usize, count: usize) -> usize
    ensures { result ≡ gap_end end size position count }
{
    if 0 < count && size < position {
        position
    } else {
        end
    }
}

// The size after the writes, if every offset resolves, each on the size that the writes before it give.
pub fn reach(q: &[u8], t: Parted, size: usize) -> Option<usize>
    requires { PartedIn q.now t × (size ≤ limit) }
    ensures { result ≡ reached_by (writes_in t q.now) size }
{
    let mut cursor = t.writes.first;
    let mut after = size;
    for _ in 0..t.writes.count {
        let entry = cursor.entry(q, ENTRY_SIZE);
        let place = resolve(entry.offset, after)?;
        after = grown(after, place, entry.count);
        cursor = entry.next;
    }
    Some(after)
}

// What the writes lead to on the way: the size after them, and where the last gap ends that they leave, behind which
// they cover all that they add.
#[derive(Clone, Copy)]
struct Walked {
    size: usize,
    gap: usize,
}

// The table of the writes, whatever its offsets name: one that names no position counts as 0, as in the rules.
fn walk(q: &[u8], t: Parted, size: usize) -> Walked
    requires { PartedIn q.now t × (size ≤ limit) }
    ensures size { result.size ≡ size_all (placed (writes_in t q.now) size) size }
    ensures gap { result.gap ≡ last_gap (placed (writes_in t q.now) size) size size }
{
    let mut cursor = t.writes.first;
    let mut after = size;
    let mut gap = size;
    for _ in 0..t.writes.count {
        let entry = cursor.entry(q, ENTRY_SIZE);
        let place = position(entry.offset, after);
        gap = gap_end(gap, after, place, entry.count);
        after = grown(after, place, entry.count);
        cursor = entry.next;
    }
    Walked { size: after, gap }
}

// The size after the writes, whatever their offsets name.
pub fn size_reached(q: &[u8], t: Parted, size: usize) -> usize
    requires { PartedIn q.now t × (size ≤ limit) }
    ensures { result ≡ size_all (placed (writes_in t q.now) size) size }
{
    walk(q, t, size).size
}

// How many of the bytes that the data grows by, to f bytes, must be cleared: the writes fill the others.
pub(crate) fn bare(q: &[u8], t: Parted, size: usize, f: usize) -> usize
    requires { PartedIn q.now t × (size ≤ limit) × (size ≤ f) }
    ensures { result ≡ bare_by (writes_in t q.now) size f }
{
    walk(q, t, size).gap.min(f) - size
}

// The size after the cut, if any.
#[tactic(auto, unfolding(rules::specs::Sizes::cut_size))]
pub fn cut_size(size: usize, cut: Option<usize>) -> usize
    ensures { result ≡ cut_size (cut_in cut) size }
{
    cut.map_or(size, |length| length.min(size))
}
