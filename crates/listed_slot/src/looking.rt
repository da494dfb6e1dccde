// Reading a slot whose container and list are lent for reading only. A request that is no read counts as the empty
// request.
ghost use Rattle.std.specs.Prelude.{◌≡◌};
ghost use Rattle.format.specs.Judging.{Known};
ghost use Rattle.container.specs.Looking.{read_of};
ghost use Rattle.listed_rules.specs.Outcomes.{answered_beside, reply_beside};

use container::looking::read_formed;
use format::layout::{DATA_AT, Frame};
use lists::list::list_ok;
use rules::Answer;
use rules::outcomes::Refusal;

// On a container that has been judged.
fn read_judged(c: &[u8], frame: Frame, l: &[u8], q: &[u8], r: &mut [u8]) -> Answer
    requires { Known c.now frame }
    ensures value { result ≡ answered_beside c.now l.now (read_of q.now) r.old }
    ensures r_after { r.new
        ≡ reply_beside c.now l.now (read_of q.now) r.old }
{
    let to = frame.data_end();
    if !list_ok(l, &c[DATA_AT..to]) {
        return Answer::refused(Refusal::BadList);
    }
    read_formed(c, frame, q, r)
}

pub fn read_only(c: &[u8], l: &[u8], q: &[u8], r: &mut [u8]) -> Answer
    ensures value { result ≡ answered_beside c.now l.now (read_of q.now) r.old }
    ensures r_after { r.new
        ≡ reply_beside c.now l.now (read_of q.now) r.old }
{
    match format::judging::judge(c) {
        Ok(frame) => read_judged(c, frame, l, q, r),
        Err(flaw) => Answer::refused(Refusal::from(flaw)),
    }
}
