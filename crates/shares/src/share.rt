// The checker: outcomes 0 and 21 to 29, the edition, and the parts as parts of the caller's slice.
ghost use Rattle.std.specs.Prelude.{◌≡◌, true, ◌+◌, ◌≤◌, eqb, length};
ghost use Rattle.container.specs.Data.{beyond, data_lent};
ghost use Rattle.share_format.specs.Facts.{PartsInside};
ghost use Rattle.share_format.specs.Header.{version_of, edition_of, header_size, bounds_of};
ghost use Rattle.share_format.specs.Editions.{is_mdmf, part_number};
ghost use Rattle.shares.specs.Share.{refused, bounds_at, checked_at, checked_of, share_part, part_at};
ghost use Rattle.shares.specs.Share.{checked_container, container_part, container_part_at};
ghost use Rattle.octets.specs.Facts.{Fits64};

use rules::outcomes::Refusal;
use share_format::header::Edition;
use share_format::parts::Part;
use share_format::{bounds, header};
use share_judging::judging;

// MDMF, as the answer's edition has it.
pub const MDMF: u32 = header::MDMF_VERSION as u32;

// The C interface's record: the outcome's number, the edition, and the boundaries of the parts (all 0 on a refusal).
// SDMF has six parts, so that its last two boundaries are the same.
#[repr(C)]
#[derive(Clone, Copy)]
pub struct Checked {
    pub number: u32,
    pub edition: u32,
    pub bounds: [u64; 8],
}

impl Checked {
    // The edition that the answer names, by its version byte.
    fn named(&self) -> Edition
        ensures { is_mdmf result ≡ eqb self.now.edition (version_of true) }
    {
        if self.edition == MDMF {
            Edition::Mdmf
        } else {
            Edition::Sdmf
        }
    }
}

fn refused(edition: Edition, number: u32) -> Checked
    ensures { result ≡ refused (is_mdmf edition) number }
{
    Checked {
        number,
        edition: edition.version() as u32,
        bounds: [0; 8],
    }
}

// The boundaries of a share that begins at byte `base` of the caller's slice.
fn bounds_at(s: &[u8], edition: Edition, base: u64) -> [u64; 8]
    requires { (is_mdmf edition ≡ edition_of s.now) × (header_size (is_mdmf edition) ≤ length s.now)
        × PartsInside (bounds_of (is_mdmf edition) s.now) (length s.now) × Fits64 (base + length s.now) }
    ensures { result ≡ bounds_at base s.now }
{
    let bounds = header::bounds(s, edition);
    [
        base + bounds[0],
        base + bounds[1],
        base + bounds[2],
        base + bounds[3],
        base + bounds[4],
        base + bounds[5],
        base + bounds[6],
        base + bounds[7],
    ]
}

fn checked_at(s: &[u8], base: u64) -> Checked
    requires { Fits64 (base + length s.now) }
    ensures { result ≡ checked_at base s.now }
{
    let edition = Edition::of(s);
    match judging::outcome(s) {
        Ok(()) => Checked {
            number: 0,
            edition: edition.version() as u32,
            bounds: bounds_at(s, edition, base),
        },
        Err(fault) => refused(edition, fault.number()),
    }
}

pub fn check(s: &[u8]) -> Checked
    ensures { result ≡ checked_of s.now }
{
    checked_at(s, 0)
}

// The share in a container's data, which goes to the checker as it stands; bounds count from the container's start.
pub fn check_container(c: &[u8]) -> Checked
    ensures { result ≡ checked_container c.now }
{
    match container::data::find_data(c) {
        Ok(lent) => checked_at(&c[lent.from..lent.to], lent.from as u64),
        Err(flaw) => refused(Edition::Sdmf, Refusal::from(flaw).number()),
    }
}

// A part of a share, that very part of the slice; on a refusal each is empty, at the slice's start. SDMF has no spare
// bytes, so that part is empty.
pub fn part(s: &[u8], part: Part) -> &[u8]
    ensures bytes { result.now ≡ share_part (part_number part (edition_of s.now)) s.now }
    ensures place { result.ref_ptr
        ≡ beyond s.entry.ref_ptr (part_at (part_number part (edition_of s.now)) s.now) }
{
    let checked = check(s);
    let edition = checked.named();
    bounds::part(s, checked.bounds, part.number(edition))
}

// The same of the share in a container, as a part of the container.
pub fn container_part(c: &[u8], part: Part) -> &[u8]
    ensures bytes { result.now
        ≡ container_part (part_number part (edition_of (data_lent c.now))) c.now }
    ensures place { result.ref_ptr
        ≡ beyond c.entry.ref_ptr
        (container_part_at (part_number part (edition_of (data_lent c.now))) c.now) }
{
    let checked = check_container(c);
    let edition = checked.named();
    bounds::part(c, checked.bounds, part.number(edition))
}
