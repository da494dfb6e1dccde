// What the entries of a table ask of the data: positions and pieces. The data is lent, and nothing is copied.
ghost use Rattle.std.specs.Prelude.{◌≡◌, ◌≤◌, length, take, drop};
ghost use Rattle.format.specs.Layout.{limit};
ghost use Rattle.requests.specs.Forms.{TableIn};
ghost use Rattle.rules.specs.Testing.{reply_of};
ghost use Rattle.replies.specs.Pieces.{measured_of, pieces_in};

use requests::forms::Table;
use requests::offsets::{position, resolve};

// The width of a piece's length in a reply.
pub const LENGTH_SIZE: usize = 4;

// At most n bytes from a position on, stopping at the end of data.
pub(crate) fn piece(d: &[u8], position: usize, n: usize) -> &[u8]
    ensures { result.now ≡ take n (drop position d.now) }
{
    let rest = d.get(position..).unwrap_or(&[]);
    rest.get(..n).unwrap_or(rest)
}

// The length of the reply, if every offset of a table resolves. One pass over the table.
pub fn measure(d: &[u8], q: &[u8], t: Table) -> Option<usize>
    requires { TableIn q.now t × (length d.now ≤ limit) }
    ensures { result ≡ measured_of t q.now d.now }
{
    let mut cursor = t.first;
    let mut length = 0;
    for _ in 0..t.count {
        let entry = cursor.entry(q, t.stride);
        let position = resolve(entry.offset, d.len())?;
        let found = piece(d, position, entry.count).len();
        length += LENGTH_SIZE + found;
        cursor = entry.next;
    }
    Some(length)
}

// The length of the reply, whatever its offsets name: one that names no position counts as 0, as in the rules.
pub fn reply_length(d: &[u8], q: &[u8], t: Table) -> usize
    requires { TableIn q.now t × (length d.now ≤ limit) }
    ensures { result ≡ length (reply_of (pieces_in t q.now d.now)) }
{
    let mut cursor = t.first;
    let mut sum = 0;
    for _ in 0..t.count {
        let entry = cursor.entry(q, t.stride);
        let found = piece(d, position(entry.offset, d.len()), entry.count).len();
        sum += LENGTH_SIZE + found;
        cursor = entry.next;
    }
    sum
}
