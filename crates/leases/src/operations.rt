// Add, renew and cancel on a well-formed container.
ghost use Rattle.std.specs.Prelude.{◌≡◌, true, false, length};
ghost use Rattle.format.specs.Container.{held};
ghost use Rattle.format.specs.Layout.{expiry_of, renewal_of, leases_of, record_size, secret_size};
ghost use Rattle.rules.specs.Leasing.{renewed_by, knows};
ghost use Rattle.format.specs.Parts.{parts_of};
ghost use Rattle.rules.specs.Requests.{add, renew, cancel};
ghost use Rattle.format.specs.Judging.{Known};
ghost use Rattle.leases.specs.Operations.{done_of, lease_done, lease_container};

use crate::changes::{append_record, drop_record, extend, put_record};
use crate::places::Places;
use format::layout::{CANCEL_AT, Frame, LEASE_LIMIT, RENEWAL_AT};
use rules::outcomes::Refusal;

// A record whose token is new goes to the first empty place, else to a new extra. How many leases there are then, or
// why there is no place for it.
fn place_new(c: &mut [u8], frame: Frame, lease: &[u8]) -> Result<usize, Refusal>
    requires { Known c.old frame × (length lease.now ≡ record_size) × (held lease.now ≡ true)
        × (knows (renewed_by (renewal_of lease.now)) (leases_of c.old) ≡ false) }
    ensures value { done_of result ≡ lease_done (parts_of c.old) (add lease.now) }
    ensures c_after { c.new ≡ lease_container c.old (add lease.now) }
{
    let places = Places { c, frame };
    let count = places.count();
    if LEASE_LIMIT <= count {
        return Err(Refusal::LeasesFull);
    }
    match places.vacant() {
        Some(i) => {
            put_record(c, frame, i, lease);
            Ok(count + 1)
        }
        None => {
            if c.len() < frame.with_extra().used() {
                return Err(Refusal::NoRoom);
            }
            append_record(c, frame, lease);
            Ok(count + 1)
        }
    }
}

// A known renewal token keeps the later expiry. The record's token and expiry come beside it.
pub fn add_lease(
    c: &mut [u8],
    frame: Frame,
    lease: &[u8],
    token: &[u8],
    expiry: u32,
) -> Result<usize, Refusal>
    requires { Known c.old frame × (length lease.now ≡ record_size) × (held lease.now ≡ true)
        × (token.now ≡ renewal_of lease.now) × (expiry ≡ expiry_of lease.now) }
    ensures value { done_of result ≡ lease_done (parts_of c.old) (add lease.now) }
    ensures c_after { c.new ≡ lease_container c.old (add lease.now) }
{
    let places = Places { c, frame };
    match places.with_token(RENEWAL_AT, token) {
        Some(i) => {
            let count = places.count();
            extend(c, frame, i, expiry);
            Ok(count)
        }
        None => place_new(c, frame, lease),
    }
}

// The steps on a known token are those of an add; one function for both would take the request for its contract alone.
pub fn renew_lease(c: &mut [u8], frame: Frame, token: &[u8], expiry: u32) -> Result<usize, Refusal>
    requires { Known c.old frame × (length token.now ≡ secret_size) }
    ensures value { done_of result ≡ lease_done (parts_of c.old) (renew token.now expiry) }
    ensures c_after { c.new ≡ lease_container c.old (renew token.now expiry) }
{
    let places = Places { c, frame };
    let i = places
        .with_token(RENEWAL_AT, token)
        .ok_or(Refusal::NoLease)?;
    let count = places.count();
    extend(c, frame, i, expiry);
    Ok(count)
}

pub fn cancel_lease(c: &mut [u8], frame: Frame, token: &[u8]) -> Result<usize, Refusal>
    requires { Known c.old frame × (length token.now ≡ secret_size) }
    ensures value { done_of result ≡ lease_done (parts_of c.old) (cancel token.now) }
    ensures c_after { c.new ≡ lease_container c.old (cancel token.now) }
{
    let places = Places { c, frame };
    let i = places.with_token(CANCEL_AT, token).ok_or(Refusal::NoLease)?;
    let count = places.count();
    drop_record(c, frame, i);
    Ok(count - 1)
}
