// A container's data rewritten in place: slack is used before the count moves, and a cut leaves the count where it is.
ghost use Rattle.std.specs.Prelude.{◌≡◌, ℕ, ◌+◌, ◌≤◌, length};
ghost use Rattle.format.specs.Layout.{data_at, limit};
ghost use Rattle.format.specs.Parts.{parts_of, encode};
ghost use Rattle.format.specs.Judging.{Known};
ghost use Rattle.rules.specs.Writing.{placed};
ghost use Rattle.rules.specs.Outcomes.{after};
ghost use Rattle.requests.specs.Forms.{PartedIn, writes_in, write_in};
ghost use Rattle.writes.specs.Rewrite.{Turns, kept, with_size, with_fields, overlaid, Final};

use crate::overlay::overlay_all;
use crate::sizes::bare;
use crate::stretch::{free, lift};
use format::layout::{DATA_AT, Frame, OFFSET_AT, SIZE_AT};
use requests::forms::Parted;

// The data size goes into the head.
fn put_size(c: &mut [u8], size: usize)
    requires { data_at ≤ length c.old }
    ensures { (o k : ℕ) → Turns o k (with_size size) kept c.old c.new }
{
    octets::numbers::put_u64(c, SIZE_AT, size as u64);
}

// The data size and the place of the count go into the head.
fn put_fields(c: &mut [u8], frame: Frame)
    requires { data_at ≤ length c.old }
    ensures { (o k : ℕ) → Turns o k (with_fields frame.size frame.offset) kept
        c.old c.new }
{
    put_size(c, frame.size);
    octets::numbers::put_u64(c, OFFSET_AT, frame.offset as u64);
}

// The writes go into the first f bytes of data and slack, f being the final size of the data.
fn write_data(c: &mut [u8], f: usize, q: &[u8], t: Parted, size: usize)
    requires { (data_at + f ≤ length c.old) × PartedIn q.now t × (size ≤ limit) }
    ensures { (o k : ℕ) → data_at + f ≤ o → Turns o k kept
        (overlaid (placed (writes_in t q.now) size) f) c.old c.new }
{
    let e = DATA_AT + f;
    overlay_all(&mut c[DATA_AT..e], q, t, size);
}

// The data grows past its slack, to its final size f. The fields come last.
fn lengthen(c: &mut [u8], frame: Frame, q: &[u8], t: Parted, f: usize)
    requires { Known c.old frame × PartedIn q.now t × Final q.now t frame f (length c.old)
        × (frame.offset ≤ data_at + f) }
    ensures { c.new ≡ encode (after (parts_of c.old) (write_in t q.now)) }
{
    let size = frame.size;
    let z = bare(q, t, size, f);
    lift(c, frame, f, z);
    write_data(c, f, q, t, size);
    put_fields(c, frame.resized(f));
}

// The data grows inside its slack, whose bytes are zeros, to its final size f. The size comes last.
fn fill(c: &mut [u8], frame: Frame, q: &[u8], t: Parted, f: usize)
    requires { Known c.old frame × PartedIn q.now t × Final q.now t frame f (length c.old)
        × (frame.size ≤ f) × (data_at + f ≤ frame.offset) }
    ensures { c.new ≡ encode (after (parts_of c.old) (write_in t q.now)) }
{
    let size = frame.size;
    write_data(c, f, q, t, size);
    put_size(c, f);
}

// The data is cut to its final size f. The size comes first.
fn shorten(c: &mut [u8], frame: Frame, q: &[u8], t: Parted, f: usize)
    requires { Known c.old frame × PartedIn q.now t × Final q.now t frame f (length c.old)
        × (f ≤ frame.size) }
    ensures { c.new ≡ encode (after (parts_of c.old) (write_in t q.now)) }
{
    let size = frame.size;
    put_size(c, f);
    free(c, frame, f);
    write_data(c, f, q, t, size);
}

// The data becomes f bytes long, its final size, by the writes and the cut. The stores come in such an order that
// between any two of them no well-formed container has a byte of a lease in its data.
pub fn rewrite(c: &mut [u8], frame: Frame, q: &[u8], t: Parted, f: usize)
    requires { Known c.old frame × PartedIn q.now t × Final q.now t frame f (length c.old) }
    ensures { c.new ≡ encode (after (parts_of c.old) (write_in t q.now)) }
{
    let size = frame.size;
    if f < size {
        shorten(c, frame, q, t, f);
        return;
    }
    if frame.offset - DATA_AT < f {
        lengthen(c, frame, q, t, f);
        return;
    }
    if size < f {
        fill(c, frame, q, t, f);
        return;
    }
    write_data(c, f, q, t, size);
}
