// The share writers: from numbers and parts to a share's bytes in lent space.
#![tactic(auto)]

ghost use Rattle.std.specs.Prelude.{◌≡◌, true, ◌++◌, ◌+◌, ◌≤◌, ◌<◌, leb, length, SomeIff};
ghost use Rattle.octets.specs.Facts.{Each, Fits64};
ghost use Rattle.octets.specs.Lists.{sum};
ghost use Rattle.octets.specs.Moves.{put};
ghost use Rattle.octets.specs.Strings.{join};
ghost use Rattle.share_format.specs.Bounds.{packed};
ghost use Rattle.share_format.specs.Editions.{is_mdmf};
ghost use Rattle.share_format.specs.Header.{header_size, number_fields, offset_fields};
ghost use Rattle.share_rules.specs.Writing.{sdmf_with, mdmf_with, segment_fits, bounds_fit, written_answer, space_after};
ghost use Rattle.share_writing.specs.Facts.{strings, sizes_of, segment_for, refusal_number, HeaderFits, Judges};
ghost use Rattle.share_writing.specs.declared.Refusal.TheVariants.{Share};

use octets::moves;
use share_contents::contents;
use share_contents::faults::Fault;
use share_format::header::{Edition, HASH_SIZE, Numbers};
use share_format::parts::Part;
use share_numbers::{coding, order};
use share_rules::Written;
use share_storing::fields;

// Why a share is not written: R or IV has another size, the space is too short, or the checker would refuse the share.
#[derive(Clone, Copy, Debug, PartialEq, Eq)]
pub(crate) enum Refusal {
    Fields,
    Space,
    Share(Fault),
}

impl Refusal {
    // The row's number.
    fn number(self) -> u32
        ensures { result ≡ refusal_number self }
    {
        match self {
            Refusal::Fields => 3,
            Refusal::Space => 7,
            Refusal::Share(fault) => fault.number(),
        }
    }
}

impl From<Fault> for Refusal {
    ghost from_gives = { λ fault refusal. refusal ≡ Share fault };

    fn from(fault: Fault) -> Refusal {
        Refusal::Share(fault)
    }
}

// Row 7. The parts are taken off the space one by one, so that no sum of their sizes is formed.
fn has_room(space: usize, header: usize, parts: &[&[u8]]) -> bool
    ensures { result ≡ leb (header + sum (sizes_of parts.now)) space }
{
    if space < header {
        return false;
    }
    let mut left = space - header;
    for part in parts {
        let n = part.len();
        if left < n {
            return false;
        }
        left -= n;
    }
    true
}

// The boundaries of these parts, packed tightly behind the header.
fn places(header: u64, parts: &[&[u8]]) -> [u64; 8]
    requires { (length parts.now ≡ 7) × Fits64 (header + sum (sizes_of parts.now)) }
    ensures { result ≡ packed header (sizes_of parts.now) }
{
    let mut bounds = [header; 8];
    for (i, part) in parts.iter().enumerate() {
        bounds[i + 1] = bounds[i] + part.len() as u64;
    }
    bounds
}

// Row 24, and the segment size: MDMF's is given, SDMF's follows.
fn segment_of(edition: Edition, given: u64, k: u64, data_length: u64) -> Option<u64>
    requires { 0 < k }
    ensures { SomeIff result
        (segment_fits (is_mdmf edition) (segment_for (is_mdmf edition) given k data_length) k data_length ≡ true)
        (segment_for (is_mdmf edition) given k data_length) }
{
    match edition {
        Edition::Sdmf => coding::least_multiple(k, data_length),
        Edition::Mdmf => coding::segment_ok(edition, given, k, data_length).then_some(given),
    }
}

// Row 25.
#[tactic(auto, unfolding(share_rules::specs::Writing::bounds_fit))]
fn bounds_fit(edition: Edition, bounds: [u64; 8]) -> bool
    requires { Each Fits64 bounds }
    ensures { result ≡ bounds_fit (is_mdmf edition) bounds }
{
    order::placed_ok(edition, bounds) && fields::offsets_fit(edition, bounds)
}

// What a share that is to be written has besides what is given: its numbers with the segment size, and the boundaries
// of the parts.
#[derive(Clone, Copy)]
pub(crate) struct Verdict {
    pub(crate) numbers: Numbers,
    pub(crate) bounds: [u64; 8],
}

// What the lowest row that applies says of a share, if any does. Its parts are given in the order in which they lie;
// the segment size is MDMF's.
fn verdict_of(
    edition: Edition,
    numbers: Numbers,
    root: &[u8],
    iv: &[u8],
    parts: &[&[u8]],
    space: usize,
) -> Result<Verdict, Refusal>
    requires { length parts.now ≡ 7 }
    ensures { Judges (is_mdmf edition) numbers root.now iv.now (strings parts.now) space result }
{
    if root.len() != HASH_SIZE {
        return Err(Refusal::Fields);
    }
    let iv_size = edition.iv_size();
    if iv.len() != iv_size {
        return Err(Refusal::Fields);
    }
    let header = edition.header_size();
    if !has_room(space, header as usize, parts) {
        return Err(Refusal::Space);
    }
    let k = numbers.required;
    if !coding::coding_ok(k, numbers.total) {
        return Err(Refusal::Share(Fault::Coding));
    }
    let found = segment_of(edition, numbers.segment_size, k as u64, numbers.data_length);
    let segment = found.ok_or(Refusal::Share(Fault::SegmentSize))?;
    let bounds = places(header, parts);
    if !bounds_fit(edition, bounds) {
        return Err(Refusal::Share(Fault::Offsets));
    }
    let numbers = Numbers {
        segment_size: segment,
        ..numbers
    };
    let chain = parts[Part::Chain.number(edition)];
    let tree = parts[Part::Tree.number(edition)];
    let share_data = parts[Part::ShareData.number(edition)];
    contents::content_outcome(edition, numbers, chain, tree, share_data)?;
    Ok(Verdict { numbers, bounds })
}

// Stores the parts one behind the other, from `from` on.
fn put_parts(d: &mut [u8], from: usize, parts: &[&[u8]])
    requires { from + length (join (strings parts.now)) ≤ length d.old }
    ensures { d.new ≡ put from (join (strings parts.now)) d.old }
{
    let mut at = from;
    for part in parts {
        moves::copy_part(d, at, part);
        at += part.len();
    }
}

// Writes a share that nothing refuses: the header, then the parts in the order in which they lie.
fn lay_out(
    d: &mut [u8],
    edition: Edition,
    verdict: Verdict,
    root: &[u8],
    iv: &[u8],
    parts: &[&[u8]],
)
    requires { HeaderFits (is_mdmf edition) root.now iv.now verdict.bounds (length d.old)
        × (header_size (is_mdmf edition) + length (join (strings parts.now)) ≤ length d.old) }
    ensures { d.new
        ≡ put 0
        (join (number_fields (is_mdmf edition) verdict.numbers.sequence root.now iv.now
        verdict.numbers.required verdict.numbers.total verdict.numbers.segment_size
        verdict.numbers.data_length)
        ++ (join (offset_fields (is_mdmf edition) verdict.bounds)
        ++ join (strings parts.now)))
        d.old }
{
    fields::put_header(d, edition, verdict.numbers, root, iv, verdict.bounds);
    put_parts(d, edition.header_size() as usize, parts);
}

// Writes the SDMF share that the numbers and parts determine into the front of the space. It has no seventh part.
pub fn write_sdmf(
    sequence: u64,
    root: &[u8],
    iv: &[u8],
    required: u8,
    total: u8,
    data_length: u64,
    key: &[u8],
    signature: &[u8],
    chain: &[u8],
    tree: &[u8],
    share_data: &[u8],
    private_key: &[u8],
    d: &mut [u8],
) -> Written
    ensures answer { result
        ≡ written_answer
        (sdmf_with sequence root.now iv.now required total data_length key.now
        signature.now chain.now tree.now share_data.now
        private_key.now)
        (length d.old) }
    ensures space { d.new
        ≡ space_after
        (sdmf_with sequence root.now iv.now required total data_length key.now
        signature.now chain.now tree.now share_data.now
        private_key.now)
        d.old }
{
    let parts = [key, signature, chain, tree, share_data, private_key, b""];
    let numbers = Numbers {
        sequence,
        required,
        total,
        segment_size: 0,
        data_length,
    };
    let judged = verdict_of(Edition::Sdmf, numbers, root, iv, &parts, d.len());
    match judged {
        Ok(verdict) => {
            lay_out(d, Edition::Sdmf, verdict, root, iv, &parts);
            Written {
                number: 0,
                length: verdict.bounds[7],
            }
        }
        Err(refusal) => Written {
            number: refusal.number(),
            length: 0,
        },
    }
}

// Writes the MDMF share that the numbers and parts determine into the front of the space. It has no IV.
pub fn write_mdmf(
    sequence: u64,
    root: &[u8],
    required: u8,
    total: u8,
    segment_size: u64,
    data_length: u64,
    private_key: &[u8],
    chain: &[u8],
    signature: &[u8],
    key: &[u8],
    spare: &[u8],
    share_data: &[u8],
    tree: &[u8],
    d: &mut [u8],
) -> Written
    ensures answer { result
        ≡ written_answer
        (mdmf_with sequence root.now required total segment_size data_length private_key.now
        chain.now signature.now key.now spare.now
        share_data.now tree.now)
        (length d.old) }
    ensures space { d.new
        ≡ space_after
        (mdmf_with sequence root.now required total segment_size data_length private_key.now
        chain.now signature.now key.now spare.now
        share_data.now tree.now)
        d.old }
{
    let parts = [private_key, chain, signature, key, spare, share_data, tree];
    let numbers = Numbers {
        sequence,
        required,
        total,
        segment_size,
        data_length,
    };
    let judged = verdict_of(Edition::Mdmf, numbers, root, b"", &parts, d.len());
    match judged {
        Ok(verdict) => {
            lay_out(d, Edition::Mdmf, verdict, root, b"", &parts);
            Written {
                number: 0,
                length: verdict.bounds[7],
            }
        }
        Err(refusal) => Written {
            number: refusal.number(),
            length: 0,
        },
    }
}
