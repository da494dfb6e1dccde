// Rows 21 to 29 of a share where it lies, in rising order, for both editions.
ghost use Rattle.std.specs.Prelude.{◌≡◌, true, ◌≤◌, ◌<◌, length};
ghost use Rattle.octets.specs.Rows.{first_row};
ghost use Rattle.share_format.specs.Editions.{is_mdmf};
ghost use Rattle.share_format.specs.Facts.{PartsInside};
ghost use Rattle.share_format.specs.Header.{header_size, required, segment_size, data_length};
ghost use Rattle.share_numbers.specs.Coding.{segment_ok};
ghost use Rattle.share_contents.specs.Faults.{outcome_of};
ghost use Rattle.share_judging.specs.Judging.{head_rows, laid_rows, body_rows, share_outcome};

use share_contents::contents;
use share_contents::faults::Fault;
use share_format::header::{Edition, Numbers};
use share_format::parts::Part;
use share_format::{bounds, header};
use share_numbers::{coding, order};

// Rows 21 to 24, which need no offset.
fn head_outcome(s: &[u8], edition: Edition) -> Result<(), Fault>
    ensures { outcome_of result ≡ first_row (head_rows (is_mdmf edition) s.now) }
{
    let size = edition.header_size();
    if (s.len() as u64) < size {
        return Err(Fault::Short);
    }
    if header::MDMF_VERSION < header::version(s) {
        return Err(Fault::Version);
    }
    let numbers = Numbers::read(s, edition);
    let k = numbers.required;
    if !coding::coding_ok(k, numbers.total) {
        return Err(Fault::Coding);
    }
    if !coding::segment_ok(edition, numbers.segment_size, k as u64, numbers.data_length) {
        return Err(Fault::SegmentSize);
    }
    Ok(())
}

// Rows 26 to 29 of a share whose offsets are in order: its parts are taken where they lie.
fn laid_outcome(s: &[u8], edition: Edition, bounds: [u64; 8]) -> Result<(), Fault>
    requires { (header_size (is_mdmf edition) ≤ length s.now) × (0 < required (is_mdmf edition) s.now)
        × (segment_ok (is_mdmf edition) (segment_size (is_mdmf edition) s.now) (required (is_mdmf edition) s.now)
        (data_length (is_mdmf edition) s.now) ≡ true)
        × PartsInside bounds (length s.now) }
    ensures { outcome_of result ≡ first_row (laid_rows (is_mdmf edition) bounds s.now) }
{
    contents::content_outcome(
        edition,
        Numbers::read(s, edition),
        bounds::part(s, bounds, Part::Chain.number(edition)),
        bounds::part(s, bounds, Part::Tree.number(edition)),
        bounds::part(s, bounds, Part::ShareData.number(edition)),
    )
}

// Rows 25 to 29. A share that comes here has its whole header, a k above 0 and a good segment size.
fn body_outcome(s: &[u8], edition: Edition) -> Result<(), Fault>
    requires { (header_size (is_mdmf edition) ≤ length s.now) × (0 < required (is_mdmf edition) s.now)
        × (segment_ok (is_mdmf edition) (segment_size (is_mdmf edition) s.now) (required (is_mdmf edition) s.now)
        (data_length (is_mdmf edition) s.now) ≡ true) }
    ensures { outcome_of result ≡ first_row (body_rows (is_mdmf edition) s.now) }
{
    let bounds = header::bounds(s, edition);
    if !order::placed_ok(edition, bounds) {
        return Err(Fault::Offsets);
    }
    if bounds[7] != s.len() as u64 {
        return Err(Fault::Offsets);
    }
    laid_outcome(s, edition, bounds)
}

// The lowest row that applies, if any.
pub fn outcome(s: &[u8]) -> Result<(), Fault>
    ensures { outcome_of result ≡ share_outcome s.now }
{
    let edition = Edition::of(s);
    head_outcome(s, edition)?;
    body_outcome(s, edition)
}
