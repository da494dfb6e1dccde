// Kind 1 on a well-formed container: the verdict, and what becomes of the container where it is accepted. Both ask for a
// judged container and a parted request instead of judging again.
ghost use Rattle.std.specs.Prelude.{◌≡◌, ◌≤◌, length};
ghost use Rattle.octets.specs.Strings.{same};
ghost use Rattle.format.specs.Layout.{least, secret_size, enabler_of};
ghost use Rattle.format.specs.Parts.{parts_of, encode};
ghost use Rattle.format.specs.Judging.{Known};
ghost use Rattle.rules.specs.Outcomes.{after};
ghost use Rattle.requests.specs.Cursors.{bytes_from};
ghost use Rattle.requests.specs.Forms.{BytesIn, PartedIn, write_in};
ghost use Rattle.verdicts.specs.Writing.{verdict_of, lengths_of, due_of, Tells, Decided};

use format::layout::{DATA_AT, ENABLER_AT, Frame, SECRET_SIZE, SIZE_AT};
use requests::cursors::Cursor;
use requests::forms::Parted;
use rules::outcomes::Refusal;

// What is due where every test holds: a reply of some length, and data of a final size.
#[derive(Clone, Copy, Debug, PartialEq, Eq)]
pub struct Due {
    pub reply: usize,
    pub size: usize,
}

// What a request comes to that nothing refuses. Where a test is false, a reply of some length is due alone.
#[derive(Clone, Copy, Debug, PartialEq, Eq)]
pub enum Verdict {
    TestFalse(usize),
    Accepted(Due),
}

// Whether the request names the container's write enabler.
fn enables(c: &[u8], q: &[u8], enabler: Cursor) -> bool
    requires { (least ≤ length c.now) × BytesIn q.now enabler secret_size }
    ensures { result ≡ same (bytes_from enabler secret_size q.now) (enabler_of c.now) }
{
    let sent = enabler.body(q, SECRET_SIZE);
    octets::strings::same(sent.bytes(q), &c[ENABLER_AT..SIZE_AT])
}

// What is due by the lengths alone, whatever else refuses the request; none where an offset reaches before byte 0.
pub fn lengths(c: &[u8], frame: Frame, q: &[u8], t: Parted) -> Option<Due>
    requires { Known c.now frame × PartedIn q.now t }
    ensures { result ≡ due_of (verdict_of (parts_of c.now) (write_in t q.now) 0) }
{
    let to = frame.data_end();
    let reply = replies::pieces::measure(&c[DATA_AT..to], q, t.tests)?;
    let reached = writes::sizes::reach(q, t, frame.size)?;
    let size = writes::sizes::cut_size(reached, t.cut);
    Some(Due { reply, size })
}

// Both lengths, whatever refuses the request: an offset that names no position counts as 0, as in the rules.
pub fn both_lengths(c: &[u8], frame: Frame, q: &[u8], t: Parted) -> Due
    requires { Known c.now frame × PartedIn q.now t }
    ensures { result ≡ lengths_of (verdict_of (parts_of c.now) (write_in t q.now) 0) }
{
    let to = frame.data_end();
    let reached = writes::sizes::size_reached(q, t, frame.size);
    Due {
        reply: replies::pieces::reply_length(&c[DATA_AT..to], q, t.tests),
        size: writes::sizes::cut_size(reached, t.cut),
    }
}

// The verdict. The room is judged on the final size: a size on the way to the cut is a number, never bytes.
pub fn verdict_of(
    c: &[u8],
    frame: Frame,
    q: &[u8],
    t: Parted,
    space: usize,
) -> Result<Verdict, Refusal>
    requires { Known c.now frame × PartedIn q.now t }
    ensures { Tells result (verdict_of (parts_of c.now) (write_in t q.now) space) }
{
    let to = frame.data_end();
    let d = &c[DATA_AT..to];
    let reply = replies::pieces::measure(d, q, t.tests).ok_or(Refusal::BeforeStart)?;
    let reached = writes::sizes::reach(q, t, frame.size).ok_or(Refusal::BeforeStart)?;
    if !enables(c, q, t.enabler) {
        return Err(Refusal::WrongEnabler);
    }
    if space < reply {
        return Err(Refusal::ShortReply);
    }
    if !replies::tests::all_hold(d, q, t) {
        return Ok(Verdict::TestFalse(reply));
    }
    let size = writes::sizes::cut_size(reached, t.cut);
    let after = frame.resized(size);
    if c.len() < after.used() {
        return Err(Refusal::NoRoom);
    }
    Ok(Verdict::Accepted(Due { reply, size }))
}

// What an accepted request makes of the container.
pub fn commit(c: &mut [u8], frame: Frame, q: &[u8], t: Parted, due: Due)
    requires { Decided c.old q.now frame t due }
    ensures { c.new ≡ encode (after (parts_of c.old) (write_in t q.now)) }
{
    writes::rewrite::rewrite(c, frame, q, t, due.size);
}
