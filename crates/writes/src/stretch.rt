// What grows past the slack takes count and extra leases along, and what a cut frees becomes zeros. What clears and
// moves is lent one stretch of the container from a data end on, and knows nothing of containers.
ghost use Rattle.std.specs.Prelude.{◌≡◌, ℕ, ◌+◌, ◌-◌, ◌≤◌, length, take, drop, replicate};
ghost use Rattle.format.specs.Layout.{data_at, limit};
ghost use Rattle.format.specs.View.{tail_size};
ghost use Rattle.writes.specs.Rewrite.{Turns, kept, freed};
ghost use Rattle.writes.specs.Stretch.{data_end_of, Fits, Refits};

use format::layout::Frame;

// The t bytes behind s zeros go to the end, and the first z bytes are zeros then. Whoever writes fills the others
// before the end.
fn raise(p: &mut [u8], s: usize, z: usize, t: usize)
    requires { (s + t ≤ length p.old) × (z + t ≤ length p.old) × (take s p.old ≡ replicate s 0) }
    ensures { (take z p.new ≡ replicate z 0)
        × (drop (length p.old - t) p.new ≡ take t (drop s p.old)) }
{
    let end = p.len() - t;
    octets::moves::move_up(p, s, end, t);
    octets::moves::clear_part(p, s, s.max(z));
}

// The data gets room for f bytes, past its slack. Of those that it grows by, the first z are zeros then.
pub(crate) fn lift(c: &mut [u8], frame: Frame, f: usize, z: usize)
    requires { Fits frame f c.old × (frame.offset ≤ data_at + f) × (z ≤ f - frame.size) }
    ensures { Refits frame.offset (data_at + f) (tail_size frame.extras) (data_end_of frame + z)
        c.old c.new }
{
    let after = frame.resized(f);
    let from = frame.data_end();
    let to = after.used();
    let s = frame.offset - from;
    let k = frame.tail_size();
    raise(&mut c[from..to], s, z, k);
}

// The data keeps its first f bytes, and the others become slack.
pub(crate) fn free(c: &mut [u8], frame: Frame, f: usize)
    requires { (f ≤ frame.size) × (data_end_of frame ≤ length c.old) × (length c.old ≤ limit) }
    ensures { (o k : ℕ) → data_end_of frame ≤ o
        → Turns o k kept (freed f frame.size) c.old c.new }
{
    let after = frame.resized(f);
    let from = after.data_end();
    let to = frame.data_end();
    octets::moves::clear(&mut c[from..to]);
}
