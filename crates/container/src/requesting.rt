// Apply: any request bytes on any container bytes, with any reply space.
ghost use Rattle.std.specs.Prelude.{◌≡◌};
ghost use Rattle.format.specs.Judging.{Known};
ghost use Rattle.rules.specs.Outcomes.{answered, container_after, reply_after};

use format::layout::{Frame, RECORD_SIZE, SECRET_SIZE};
use leases::operations::{add_lease, cancel_lease, renew_lease};
use reading::read;
use requests::forms::Form;
use rules::Answer;
use rules::outcomes::Refusal;
use writing::test_and_write;

// On a container that has been judged, by the form of the request; for crates above too.
pub fn apply_formed(c: &mut [u8], frame: Frame, q: &[u8], r: &mut [u8]) -> Answer
    requires { Known c.old frame }
    ensures value { result ≡ answered c.old q.now r.old }
    ensures c_after { c.new ≡ container_after c.old q.now r.old }
    ensures r_after { r.new ≡ reply_after c.old q.now r.old }
{
    match requests::forms::form_of(q) {
        None => Answer::refused(Refusal::BadRequest),
        Some(Form::TestWrite(t)) => test_and_write(c, frame, q, t, r),
        Some(Form::Add(lease)) => {
            let whole = lease.whole.body(q, RECORD_SIZE);
            let renewal = lease.renewal.body(q, SECRET_SIZE);
            add_lease(c, frame, whole.bytes(q), renewal.bytes(q), lease.expiry).into()
        }
        Some(Form::Renew(at, expiry)) => {
            let token = at.body(q, SECRET_SIZE);
            renew_lease(c, frame, token.bytes(q), expiry).into()
        }
        Some(Form::Cancel(at)) => {
            let token = at.body(q, SECRET_SIZE);
            cancel_lease(c, frame, token.bytes(q)).into()
        }
        Some(Form::Read(t)) => read(c, frame, q, t, r),
    }
}

pub fn apply(c: &mut [u8], q: &[u8], r: &mut [u8]) -> Answer
    ensures value { result ≡ answered c.old q.now r.old }
    ensures c_after { c.new ≡ container_after c.old q.now r.old }
    ensures r_after { r.new ≡ reply_after c.old q.now r.old }
{
    match format::judging::judge(c) {
        Ok(frame) => apply_formed(c, frame, q, r),
        Err(flaw) => Answer::refused(flaw.into()),
    }
}
