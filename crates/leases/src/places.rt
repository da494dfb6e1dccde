// The lease places: the four, then the extras. Nothing here writes.
ghost use Rattle.std.specs.Prelude.{◌≡◌, ◌+◌, ◌*◌, ◌≤◌, ◌<◌, [], length, take, drop, get_or, IfSome};
ghost use Rattle.format.specs.Container.{held};
ghost use Rattle.format.specs.Layout.{leases_of, records, record_size, secret_size, lease_limit, fixed_places};
ghost use Rattle.rules.specs.Leasing.{vacant, first_of, present, trim};
ghost use Rattle.format.specs.Judging.{Known};
ghost use Rattle.leases.specs.Places.{has_token, found_of};

use format::layout::{FIXED_PLACES, Frame, LEASES_AT, RECORD_SIZE, SECRET_SIZE};

// The place that begins at p holds a lease.
pub fn is_held(c: &[u8], p: usize) -> bool
    requires { p + record_size ≤ length c.now }
    ensures { result ≡ held (take record_size (drop p c.now)) }
{
    octets::numbers::u32_at(c, p) != 0
}

// How many of the n places from p on hold a lease.
fn count_held(c: &[u8], from: usize, n: usize) -> usize
    requires { (from + record_size * n ≤ length c.now) × (n ≤ lease_limit) }
    ensures { result ≡ present (records n from c.now) }
{
    let mut count = 0;
    for i in 0..n {
        if is_held(c, from + RECORD_SIZE * i) {
            count += 1;
        }
    }
    count
}

// How many of the n places from p on are left when the empty ones at the tail are dropped.
pub(crate) fn kept(c: &[u8], from: usize, n: usize) -> usize
    requires { (from + record_size * n ≤ length c.now) × (n ≤ lease_limit) }
    ensures { result ≡ length (trim (records n from c.now)) }
{
    for i in (0..n).rev() {
        if is_held(c, from + RECORD_SIZE * i) {
            return i + 1;
        }
    }
    0
}

// The lease places of a well-formed container: the four, then the extras.
#[derive(Clone, Copy)]
pub struct Places<'a> {
    pub c: &'a [u8],
    pub frame: Frame,
    ghost known: { Known c.now frame },
}

impl<'a> Places<'a> {
    // How many places there are.
    fn len(&self) -> usize
        ensures { result ≡ length (leases_of self.now.c.now) }
    {
        FIXED_PLACES + self.frame.extras
    }

    // Where place i begins.
    fn at(&self, i: usize) -> usize
        requires { i < length (leases_of self.now.c.now) }
        ensures inside { result + record_size ≤ length self.now.c.now }
        ensures place { take record_size (drop result self.now.c.now) ≡ get_or (leases_of self.now.c.now) i [] }
    {
        self.frame.place_at(i)
    }

    fn is_held(&self, i: usize) -> bool
        requires { i < length (leases_of self.now.c.now) }
        ensures { result ≡ held (get_or (leases_of self.now.c.now) i []) }
    {
        is_held(self.c, self.at(i))
    }

    // Place i holds a lease with that token in the bytes from `field` on; all of them are compared.
    fn has_token(&self, i: usize, field: usize, token: &[u8]) -> bool
        requires { (i < length (leases_of self.now.c.now)) × (field + secret_size ≤ record_size)
            × (length token.now ≡ secret_size) }
        ensures { result ≡ has_token field token.now (get_or (leases_of self.now.c.now) i []) }
    {
        let p = self.at(i);
        if !is_held(self.c, p) {
            return false;
        }
        let a = p + field;
        let e = a + SECRET_SIZE;
        // The token's length is named here, so that the compiler knows both.
        octets::strings::same(&self.c[a..e], &token[..SECRET_SIZE])
    }

    // The first lease with that token.
    pub(crate) fn with_token(&self, field: usize, token: &[u8]) -> Option<usize>
        requires { (field + secret_size ≤ record_size) × (length token.now ≡ secret_size) }
        ensures first { result ≡ found_of (first_of (has_token field token.now) (leases_of self.now.c.now)) }
        ensures inside { IfSome result (λ i. i < fixed_places + self.now.frame.extras) }
    {
        (0..self.len()).find(|&i| self.has_token(i, field, token))
    }

    // The first empty place.
    pub(crate) fn vacant(&self) -> Option<usize>
        ensures first { result ≡ found_of (first_of vacant (leases_of self.now.c.now)) }
        ensures inside { IfSome result (λ i. i < fixed_places + self.now.frame.extras) }
    {
        (0..self.len()).find(|&i| !self.is_held(i))
    }

    // The leases present.
    pub fn count(&self) -> usize
        ensures { result ≡ present (leases_of self.now.c.now) }
    {
        count_held(self.c, LEASES_AT, FIXED_PLACES)
            + count_held(self.c, self.frame.extras_at(), self.frame.extras)
    }
}
