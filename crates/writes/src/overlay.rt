// The writes put into data that already has its final size.
ghost use Rattle.std.specs.Prelude.{◌≡◌, map, ◌-◌, ◌≤◌, length, take};
ghost use Rattle.format.specs.Layout.{limit};
ghost use Rattle.rules.specs.Writing.{write_at, write_all, placed};
ghost use Rattle.rules.specs.Sizes.{clip};
ghost use Rattle.requests.specs.Forms.{PartedIn, writes_in};

use crate::sizes::grown;
use requests::cursors::ENTRY_SIZE;
use requests::forms::Parted;
use requests::offsets::position;

// One write, clipped to the data: nothing where it begins past the end.
fn overlay_one(d: &mut [u8], position: usize, bytes: &[u8])
    ensures { d.new
        ≡ write_at d.old position (take (length d.old - position) bytes.now) }
{
    if d.len() <= position {
        return;
    }
    let n = (d.len() - position).min(bytes.len());
    octets::moves::copy_part(d, position, &bytes[..n]);
}

// The writes in order, each clipped to the data; `size` is the size that their offsets are resolved on.
pub(crate) fn overlay_all(d: &mut [u8], q: &[u8], t: Parted, size: usize)
    requires { PartedIn q.now t × (size ≤ limit) }
    ensures { d.new
        ≡ write_all (map (clip (length d.old)) (placed (writes_in t q.now) size))
        d.old }
{
    let mut cursor = t.writes.first;
    let mut bodies = t.bodies;
    let mut after = size;
    for _ in 0..t.writes.count {
        let entry = cursor.entry(q, ENTRY_SIZE);
        let place = position(entry.offset, after);
        let body = bodies.body(q, entry.count);
        overlay_one(d, place, body.bytes(q));
        after = grown(after, place, entry.count);
        bodies = body.next;
        cursor = entry.next;
    }
}
