// k and N, and the segment size: rows 23 and 24.
ghost use Rattle.std.specs.Prelude.{◌≡◌, ◌<◌, eqb, SomeIff};
ghost use Rattle.octets.specs.Facts.{Fits64};
ghost use Rattle.share_format.specs.Editions.{is_mdmf};
ghost use Rattle.share_format.specs.Parts.{least_multiple};
ghost use Rattle.share_numbers.specs.Coding.{coding_ok, segment_ok};

use share_format::header::Edition;

// The least multiple of k at or above n, where it fits 64 bits. One division: the library's own method makes two.
pub fn least_multiple(k: u64, n: u64) -> Option<u64>
    requires { 0 < k }
    ensures { SomeIff result (Fits64 (least_multiple k n)) (least_multiple k n) }
{
    let rest = n % k;
    if rest == 0 {
        Some(n)
    } else {
        n.checked_add(k - rest)
    }
}

// Row 23.
#[tactic(auto, unfolding(crate::specs::Coding::coding_ok))]
pub fn coding_ok(k: u8, n: u8) -> bool
    ensures { result ≡ coding_ok k n }
{
    0 < k && k <= n
}

// Row 24 for SDMF. A multiple that does not fit is no segment size.
fn is_least_multiple(segment: u64, k: u64, n: u64) -> bool
    requires { 0 < k }
    ensures { result ≡ eqb segment (least_multiple k n) }
{
    match least_multiple(k, n) {
        Some(multiple) => segment == multiple,
        None => false,
    }
}

// Row 24.
#[tactic(auto, using(crate::proofs::CodingLaws::segment_none), unfolding(crate::specs::Coding::segment_ok))]
pub fn segment_ok(edition: Edition, segment: u64, k: u64, data_length: u64) -> bool
    requires { 0 < k }
    ensures { result ≡ segment_ok (is_mdmf edition) segment k data_length }
{
    match edition {
        Edition::Sdmf => is_least_multiple(segment, k, data_length),
        Edition::Mdmf => segment % k == 0 && (segment != 0 || data_length == 0),
    }
}
