// Apply beside a list: row 16 right after the container's judgement, row 13 behind the verdict.
ghost use Rattle.std.specs.Prelude.{◌≡◌, true, eqb};
ghost use Rattle.format.specs.Judging.{Known};
ghost use Rattle.format.specs.Layout.{data_of};
ghost use Rattle.requests.specs.Forms.{WriteRequest};
ghost use Rattle.verdicts.specs.Writing.{verdict_number};
ghost use Rattle.stretches.specs.List.{list_ok};
ghost use Rattle.listed_rules.specs.Outcomes.{answered_beside, container_beside, list_after, reply_beside};

use crate::following::write_list;
use container::requesting::apply_formed;
use format::layout::{DATA_AT, Frame};
use lists::list::list_ok;
use requests::forms::{Form, Parted};
use rules::Answer;
use rules::outcomes::Refusal;
use verdicts::writing::{Verdict, verdict_of};
use writing::settle;

// Whether nothing refuses the request and every test holds.
fn accepted(verdict: Result<Verdict, Refusal>) -> bool
    ensures { result ≡ eqb (verdict_number verdict) 0 }
{
    matches!(verdict, Ok(Verdict::Accepted(_)))
}

// Kind 1 beside a good list. Where the request is accepted and the rows fit, nothing refuses any more.
fn write_beside(
    c: &mut [u8],
    frame: Frame,
    l: &mut [u8],
    q: &[u8],
    t: Parted,
    r: &mut [u8],
) -> Answer
    requires { Known c.old frame × (WriteRequest q.now t × (list_ok l.old (data_of c.old) ≡ true)) }
    ensures value { result ≡ answered_beside c.old l.old q.now r.old }
    ensures c_after { c.new
        ≡ container_beside c.old l.old q.now r.old }
    ensures l_after { l.new ≡ list_after c.old l.old q.now r.old }
    ensures r_after { r.new ≡ reply_beside c.old l.old q.now r.old }
{
    let verdict = verdict_of(c, frame, q, t, r.len());
    if accepted(verdict) && !write_list(l, q, t, frame.size) {
        return Answer::refused(Refusal::TooManyStretches);
    }
    settle(c, frame, q, t, verdict, r)
}

// On a container that has been judged.
fn apply_judged(c: &mut [u8], frame: Frame, l: &mut [u8], q: &[u8], r: &mut [u8]) -> Answer
    requires { Known c.old frame }
    ensures value { result ≡ answered_beside c.old l.old q.now r.old }
    ensures c_after { c.new
        ≡ container_beside c.old l.old q.now r.old }
    ensures l_after { l.new ≡ list_after c.old l.old q.now r.old }
    ensures r_after { r.new ≡ reply_beside c.old l.old q.now r.old }
{
    let to = frame.data_end();
    if !list_ok(l, &c[DATA_AT..to]) {
        return Answer::refused(Refusal::BadList);
    }
    match requests::forms::form_of(q) {
        Some(Form::TestWrite(t)) => write_beside(c, frame, l, q, t, r),
        _ => apply_formed(c, frame, q, r),
    }
}

pub fn apply(c: &mut [u8], l: &mut [u8], q: &[u8], r: &mut [u8]) -> Answer
    ensures value { result ≡ answered_beside c.old l.old q.now r.old }
    ensures c_after { c.new
        ≡ container_beside c.old l.old q.now r.old }
    ensures l_after { l.new ≡ list_after c.old l.old q.now r.old }
    ensures r_after { r.new ≡ reply_beside c.old l.old q.now r.old }
{
    match format::judging::judge(c) {
        Ok(frame) => apply_judged(c, frame, l, q, r),
        Err(flaw) => Answer::refused(Refusal::from(flaw)),
    }
}
