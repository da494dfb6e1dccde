// Changes to one lease place of a well-formed container, in place: no other byte is touched but the count. Buffer and
// frame stay two parameters, as no struct that knows the one to be the other's keeps knowing it while a place changes.
ghost use Rattle.std.specs.Prelude.{◌≡◌, [], ◌∷◌, ◌++◌, ◌+◌, ◌*◌, ◌≤◌, ◌<◌, length, set};
ghost use Rattle.octets.specs.Moves.{put};
ghost use Rattle.octets.specs.Numbers.{digits};
ghost use Rattle.format.specs.Layout.{leases_of, used_length, record_size, fixed_places, count_size, extras_at, lease_limit};
ghost use Rattle.format.specs.Layout.{limit, records};
ghost use Rattle.format.specs.Parts.{no_lease};
ghost use Rattle.rules.specs.Leasing.{extended, drop_tail, trim};
ghost use Rattle.format.specs.Judging.{Known};
ghost use Rattle.leases.specs.Changes.{leased_as};

use format::layout::{EXPIRY_AT, Frame, RECORD_SIZE};

// The lease at place i keeps the later of the two expiries.
pub(crate) fn extend(c: &mut [u8], frame: Frame, i: usize, expiry: u32)
    requires { Known c.old frame × (i < fixed_places + frame.extras) }
    ensures { c.new ≡ leased_as c.old (extended expiry (leases_of c.old) i) }
{
    let p = frame.place_at(i);
    let old = octets::numbers::u32_at(c, p + EXPIRY_AT);
    if old < expiry {
        octets::numbers::put_u32(c, p + EXPIRY_AT, expiry);
    }
}

// The record goes to place i.
pub(crate) fn put_record(c: &mut [u8], frame: Frame, i: usize, lease: &[u8])
    requires { Known c.old frame × (i < fixed_places + frame.extras) × (length lease.now ≡ record_size) }
    ensures { c.new
        ≡ leased_as c.old (set (leases_of c.old) i lease.now) }
{
    let p = frame.place_at(i);
    octets::moves::copy_part(c, p, lease);
}

// The record becomes a new extra lease.
pub(crate) fn append_record(c: &mut [u8], frame: Frame, lease: &[u8])
    requires { Known c.old frame × (used_length frame.offset (frame.extras + 1) ≤ length c.old)
        × (length lease.now ≡ record_size) }
    ensures { c.new ≡ leased_as c.old (leases_of c.old
        ++ (lease.now ∷ [])) }
{
    octets::moves::copy_part(c, frame.used(), lease);
    octets::numbers::put_u32(c, frame.offset, (frame.extras + 1) as u32);
}

// The empty extras at the tail are dropped: their bytes are zero already, so only the count says so.
pub fn drop_tail(c: &mut [u8], frame: Frame)
    requires { (frame.offset ≤ limit) × (frame.extras ≤ lease_limit)
        × (extras_at frame.offset + record_size * frame.extras ≤ length c.old) }
    ensures { c.new ≡ put frame.offset
        (digits count_size (length (trim (records frame.extras (extras_at frame.offset) c.old))))
        c.old }
{
    let left = crate::places::kept(c, frame.extras_at(), frame.extras);
    octets::numbers::put_u32(c, frame.offset, left as u32);
}

// Place i becomes empty, and with it the empty extras at the tail are dropped.
pub(crate) fn drop_record(c: &mut [u8], frame: Frame, i: usize)
    requires { Known c.old frame × (i < fixed_places + frame.extras) }
    ensures { c.new
        ≡ leased_as c.old (drop_tail (set (leases_of c.old) i no_lease)) }
{
    let p = frame.place_at(i);
    octets::moves::clear_part(c, p, p + RECORD_SIZE);
    drop_tail(c, frame);
}
