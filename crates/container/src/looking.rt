// Reading a container that is lent for reading only. A request that is no read counts as the empty request.
ghost use Rattle.std.specs.Prelude.{◌≡◌};
ghost use Rattle.format.specs.Judging.{Known};
ghost use Rattle.rules.specs.Outcomes.{answered, reply_after};
ghost use Rattle.container.specs.Looking.{Looks, read_of};

use format::layout::Frame;
use reading::read;
use requests::cursors::Cursor;
use requests::forms::{REQUEST_LIMIT, Table, read_form};
use requests::kinds::Kind;
use rules::Answer;
use rules::outcomes::Refusal;

// The table of a read; of the five kinds no other is taken apart.
fn table_of(q: &[u8]) -> Option<Table>
    ensures { Looks q.now result }
{
    if q.is_empty() {
        return None;
    }
    if REQUEST_LIMIT < q.len() {
        return None;
    }
    let first = Cursor::start().byte(q);
    match Kind::try_from(first.value).ok()? {
        Kind::Read => read_form(q, first.next),
        _ => None,
    }
}

// On a container that has been judged, for crates above too.
pub fn read_formed(c: &[u8], frame: Frame, q: &[u8], r: &mut [u8]) -> Answer
    requires { Known c.now frame }
    ensures value { result ≡ answered c.now (read_of q.now) r.old }
    ensures r_after { r.new ≡ reply_after c.now (read_of q.now) r.old }
{
    match table_of(q) {
        Some(t) => read(c, frame, q, t, r),
        None => Answer::refused(Refusal::BadRequest),
    }
}

pub fn read_only(c: &[u8], q: &[u8], r: &mut [u8]) -> Answer
    ensures value { result ≡ answered c.now (read_of q.now) r.old }
    ensures r_after { r.new ≡ reply_after c.now (read_of q.now) r.old }
{
    match format::judging::judge(c) {
        Ok(frame) => read_formed(c, frame, q, r),
        Err(flaw) => Answer::refused(flaw.into()),
    }
}
