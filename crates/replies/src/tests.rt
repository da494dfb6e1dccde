// The tests of a test-and-write.
ghost use Rattle.std.specs.Prelude.{◌≡◌};
ghost use Rattle.octets.specs.Lists.{every};
ghost use Rattle.octets.specs.Strings.{sign_of};
ghost use Rattle.rules.specs.Testing.{decides, holds};
ghost use Rattle.requests.specs.Forms.{PartedIn, tests_in};

use crate::pieces::piece;
use requests::forms::Parted;
use requests::offsets::position;
use std::cmp::Ordering;

// What an opcode makes of how a piece stands to its specimen. An opcode stays a number: `decides` gives every byte a
// meaning, and an enum would list the numbers that the arms name here.
fn decide(opcode: u8, order: Ordering) -> bool
    ensures { result ≡ decides opcode (sign_of order) }
{
    match opcode {
        1 => order.is_lt(),
        2 => order.is_le(),
        3 => order.is_eq(),
        4 => order.is_ne(),
        5 => order.is_ge(),
        _ => order.is_gt(),
    }
}

// Every test holds: each piece against its specimen, the specimens standing one after the other.
pub fn all_hold(d: &[u8], q: &[u8], t: Parted) -> bool
    requires { PartedIn q.now t }
    ensures { result ≡ every (holds d.now) (tests_in t q.now) }
{
    let mut cursor = t.tests.first;
    let mut specimens = t.specimens;
    for _ in 0..t.tests.count {
        let test = cursor.test(q);
        let entry = test.entry;
        let part = piece(d, position(entry.offset, d.len()), entry.count);
        let specimen = specimens.body(q, test.specimen);
        let order = octets::strings::compare(part, specimen.bytes(q));
        if !decide(test.opcode, order) {
            return false;
        }
        cursor = test.next;
        specimens = specimen.next;
    }
    true
}
