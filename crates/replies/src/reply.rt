// The reply: a table of 4-byte lengths, then the pieces.
ghost use Rattle.std.specs.Prelude.{◌≡◌, ◌≤◌, length};
ghost use Rattle.octets.specs.Moves.{put};
ghost use Rattle.format.specs.Layout.{limit};
ghost use Rattle.rules.specs.Testing.{reply_of};
ghost use Rattle.requests.specs.Forms.{TableIn};
ghost use Rattle.replies.specs.Pieces.{pieces_in};

use crate::pieces::{LENGTH_SIZE, piece};
use requests::forms::Table;
use requests::offsets::position;

// The whole reply at the front of the reply space, each length and its piece in one pass; the bytes after it stay.
pub fn write_reply(d: &[u8], q: &[u8], t: Table, r: &mut [u8])
    requires { TableIn q.now t × (length d.now ≤ limit)
        × (length (reply_of (pieces_in t q.now d.now)) ≤ length r.old) }
    ensures { r.new ≡ put 0 (reply_of (pieces_in t q.now d.now)) r.old }
{
    let mut cursor = t.first;
    let mut behind = LENGTH_SIZE * t.count;
    for i in 0..t.count {
        let entry = cursor.entry(q, t.stride);
        let part = piece(d, position(entry.offset, d.len()), entry.count);
        octets::numbers::put_u32(r, LENGTH_SIZE * i, part.len() as u32);
        octets::moves::copy_part(r, behind, part);
        behind += part.len();
        cursor = entry.next;
    }
}
