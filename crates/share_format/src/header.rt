// The header's fields, each at its place in its edition's table (docs/RULES.md, S1 to S15, S34, S45 to S51).
ghost use Rattle.std.specs.Prelude.{◌≡◌, true, false, ◌≤◌, ◌<◌, length};
ghost use Rattle.share_format.specs.Editions.{is_mdmf, numbers_of};
ghost use Rattle.share_format.specs.Header.{edition_of, version_of, iv_size, header_size, required_at, version};
ghost use Rattle.share_format.specs.Header.{bounds_of};

use octets::numbers;

// The sizes of the fields: a hash, which R is; a salt, which IV is; a number; SDMF's first four offsets; all others.
pub const HASH_SIZE: usize = 32;

pub const SALT_SIZE: usize = 16;

const NUMBER_SIZE: usize = 8;

const OFFSET_SIZE: usize = 4;

pub const FAR_OFFSET_SIZE: usize = 8;

// Where each field begins, in the order of the table; root is R, required is k, total is N.
pub const VERSION_AT: usize = 0;

pub const SEQUENCE_AT: usize = VERSION_AT + 1;

pub const ROOT_AT: usize = SEQUENCE_AT + NUMBER_SIZE;

pub const IV_AT: usize = ROOT_AT + HASH_SIZE;

// MDMF has no IV, so that k and all behind it stand nearer to the front.
const SDMF_REQUIRED_AT: usize = IV_AT + SALT_SIZE;

const MDMF_REQUIRED_AT: usize = IV_AT;

// How far behind k the others stand.
pub const TO_TOTAL: usize = 1;

pub const TO_SEGMENT: usize = TO_TOTAL + 1;

pub const TO_LENGTH: usize = TO_SEGMENT + NUMBER_SIZE;

const TO_OFFSETS: usize = TO_LENGTH + NUMBER_SIZE;

// SDMF's offsets.
pub const SIGNATURE_FIELD: usize = SDMF_REQUIRED_AT + TO_OFFSETS;

pub const CHAIN_FIELD: usize = SIGNATURE_FIELD + OFFSET_SIZE;

pub const TREE_FIELD: usize = CHAIN_FIELD + OFFSET_SIZE;

pub const SHARE_DATA_FIELD: usize = TREE_FIELD + OFFSET_SIZE;

pub const PRIVATE_KEY_FIELD: usize = SHARE_DATA_FIELD + OFFSET_SIZE;

pub const END_FIELD: usize = PRIVATE_KEY_FIELD + FAR_OFFSET_SIZE;

const SDMF_SIZE: u64 = (END_FIELD + FAR_OFFSET_SIZE) as u64;

// MDMF's offsets, all of one size.
pub const MDMF_OFFSETS_AT: usize = MDMF_REQUIRED_AT + TO_OFFSETS;

const MDMF_SIZE: u64 = (MDMF_OFFSETS_AT + 8 * FAR_OFFSET_SIZE) as u64;

// The version bytes.
const SDMF_VERSION: u8 = 0;

pub const MDMF_VERSION: u8 = 1;

// The two editions of a share.
#[derive(Clone, Copy, Debug, PartialEq, Eq)]
pub enum Edition {
    Sdmf,
    Mdmf,
}

impl Edition {
    // The edition that the first byte names; any but MDMF's, and none, names SDMF.
    pub fn of(s: &[u8]) -> Edition
        ensures { is_mdmf result ≡ edition_of s.now }
    {
        if s.len() == 0 {
            return Edition::Sdmf;
        }
        if s[VERSION_AT] == MDMF_VERSION {
            Edition::Mdmf
        } else {
            Edition::Sdmf
        }
    }

    // The version byte.
    pub fn version(self) -> u8
        ensures { result ≡ version_of (is_mdmf self) }
    {
        match self {
            Edition::Sdmf => SDMF_VERSION,
            Edition::Mdmf => MDMF_VERSION,
        }
    }

    // The header's length; the first part stands after it.
    pub fn header_size(self) -> u64
        ensures { result ≡ header_size (is_mdmf self) }
    {
        match self {
            Edition::Sdmf => SDMF_SIZE,
            Edition::Mdmf => MDMF_SIZE,
        }
    }

    // MDMF has no IV.
    pub fn iv_size(self) -> usize
        ensures { result ≡ iv_size (is_mdmf self) }
    {
        match self {
            Edition::Sdmf => SALT_SIZE,
            Edition::Mdmf => 0,
        }
    }

    // Where k stands.
    fn required_at(self) -> usize
        ensures { result ≡ required_at (is_mdmf self) }
    {
        match self {
            Edition::Sdmf => SDMF_REQUIRED_AT,
            Edition::Mdmf => MDMF_REQUIRED_AT,
        }
    }
}

// The numbers that stand in a header, but for the version and the offsets.
#[derive(Clone, Copy, Debug, PartialEq, Eq)]
pub struct Numbers {
    pub sequence: u64,
    // k: how many shares are enough.
    pub required: u8,
    // N: how many shares there are.
    pub total: u8,
    pub segment_size: u64,
    pub data_length: u64,
}

impl Numbers {
    // The numbers as a share's header has them.
    pub fn read(s: &[u8], edition: Edition) -> Numbers
        requires { header_size (is_mdmf edition) ≤ length s.now }
        ensures { result ≡ numbers_of (is_mdmf edition) s.now }
    {
        let at = edition.required_at();
        Numbers {
            sequence: numbers::u64_at(s, SEQUENCE_AT),
            required: s[at],
            total: s[at + TO_TOTAL],
            segment_size: numbers::u64_at(s, at + TO_SEGMENT),
            data_length: numbers::u64_at(s, at + TO_LENGTH),
        }
    }
}

pub fn version(s: &[u8]) -> u8
    requires { 0 < length s.now }
    ensures { result ≡ version s.now }
{
    s[VERSION_AT]
}

// The boundaries of SDMF's parts. It has no seventh, so the end stands twice.
fn sdmf_bounds(s: &[u8]) -> [u64; 8]
    requires { header_size false ≤ length s.now }
    ensures { result ≡ bounds_of false s.now }
{
    let end = numbers::u64_at(s, END_FIELD);
    [
        SDMF_SIZE,
        numbers::u32_at(s, SIGNATURE_FIELD) as u64,
        numbers::u32_at(s, CHAIN_FIELD) as u64,
        numbers::u32_at(s, TREE_FIELD) as u64,
        numbers::u32_at(s, SHARE_DATA_FIELD) as u64,
        numbers::u64_at(s, PRIVATE_KEY_FIELD),
        end,
        end,
    ]
}

fn mdmf_bounds(s: &[u8]) -> [u64; 8]
    requires { header_size true ≤ length s.now }
    ensures { result ≡ bounds_of true s.now }
{
    [
        numbers::u64_at(s, MDMF_OFFSETS_AT),
        numbers::u64_at(s, MDMF_OFFSETS_AT + FAR_OFFSET_SIZE),
        numbers::u64_at(s, MDMF_OFFSETS_AT + 2 * FAR_OFFSET_SIZE),
        numbers::u64_at(s, MDMF_OFFSETS_AT + 3 * FAR_OFFSET_SIZE),
        numbers::u64_at(s, MDMF_OFFSETS_AT + 4 * FAR_OFFSET_SIZE),
        numbers::u64_at(s, MDMF_OFFSETS_AT + 5 * FAR_OFFSET_SIZE),
        numbers::u64_at(s, MDMF_OFFSETS_AT + 6 * FAR_OFFSET_SIZE),
        numbers::u64_at(s, MDMF_OFFSETS_AT + 7 * FAR_OFFSET_SIZE),
    ]
}

// The boundaries of the parts, as the header has them.
pub fn bounds(s: &[u8], edition: Edition) -> [u64; 8]
    requires { header_size (is_mdmf edition) ≤ length s.now }
    ensures { result ≡ bounds_of (is_mdmf edition) s.now }
{
    match edition {
        Edition::Sdmf => sdmf_bounds(s),
        Edition::Mdmf => mdmf_bounds(s),
    }
}
