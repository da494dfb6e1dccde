// The sweep: expired leases are let go, in place.
ghost use Rattle.std.specs.Prelude.{◌≡◌, map, ◌+◌, ◌*◌, ◌≤◌, length, take, drop};
ghost use Rattle.octets.specs.Moves.{put};
ghost use Rattle.octets.specs.Strings.{join};
ghost use Rattle.format.specs.Container.{held};
ghost use Rattle.format.specs.Layout.{lease_limit, leases_of, record_size, records};
ghost use Rattle.format.specs.Judging.{Known};
ghost use Rattle.rules.specs.Leasing.{present};
ghost use Rattle.rules.specs.Refusals.{answer_from};
ghost use Rattle.leases.specs.Changes.{leased_as};
ghost use Rattle.upkeep_rules.specs.Sweeping.{swept_place, swept, sweep_answer, swept_container};

use format::layout::{EXPIRY_AT, FIXED_PLACES, Frame, LEASES_AT, RECORD_SIZE};
use leases::changes::drop_tail;
use leases::places::is_held;
use rules::Answer;
use rules::outcomes::Refusal;

// The place that begins at p becomes empty if its lease has expired. Whether a lease is left.
fn sweep_place(c: &mut [u8], p: usize, time: u32) -> bool
    requires { p + record_size ≤ length c.old }
    ensures value { result ≡ held (swept_place time (take record_size (drop p c.old))) }
    ensures c_after { c.new
        ≡ put p (swept_place time (take record_size (drop p c.old))) c.old }
{
    if !is_held(c, p) {
        return false;
    }
    if time <= octets::numbers::u32_at(c, p + EXPIRY_AT) {
        return true;
    }
    octets::moves::clear_part(c, p, p + RECORD_SIZE);
    false
}

// The n places from `from` on, one by one; how many leases are left in them.
fn sweep_places(c: &mut [u8], from: usize, n: usize, time: u32) -> usize
    requires { (from + record_size * n ≤ length c.old) × (n ≤ lease_limit) }
    ensures value { result ≡ present (map (swept_place time) (records n from c.old)) }
    ensures c_after { c.new
        ≡ put from (join (map (swept_place time) (records n from c.old))) c.old }
{
    let mut count = 0;
    for i in 0..n {
        if sweep_place(c, from + RECORD_SIZE * i, time) {
            count += 1;
        }
    }
    count
}

// On a container that has been judged: the four places, the extras, and then the empty tail.
fn sweep_formed(c: &mut [u8], frame: Frame, time: u32) -> usize
    requires { Known c.old frame }
    ensures value { result ≡ present (swept time (leases_of c.old)) }
    ensures c_after { c.new ≡ leased_as c.old (swept time (leases_of c.old)) }
{
    let first = sweep_places(c, LEASES_AT, FIXED_PLACES, time);
    let more = sweep_places(c, frame.extras_at(), frame.extras, time);
    drop_tail(c, frame);
    first + more
}

// How many leases are left, or why the buffer stays as it was.
fn swept_leases(c: &mut [u8], time: u32) -> Result<usize, Refusal>
    ensures value { answer_from result ≡ sweep_answer c.old time }
    ensures c_after { c.new ≡ swept_container c.old time }
{
    let frame = format::judging::judge(c)?;
    Ok(sweep_formed(c, frame, time))
}

pub fn sweep(c: &mut [u8], time: u32) -> Answer
    ensures value { result ≡ sweep_answer c.old time }
    ensures c_after { c.new ≡ swept_container c.old time }
{
    swept_leases(c, time).into()
}
