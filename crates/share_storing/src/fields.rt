// The header's fields stored, each at its place in its edition's table (docs/RULES.md, S1 to S14, S46 to S50), and
// whether each offset fits its field.
ghost use Rattle.std.specs.Prelude.{◌≡◌, true, false, ◌++◌, ◌≤◌, length};
ghost use Rattle.octets.specs.Facts.{Each, Fits64};
ghost use Rattle.octets.specs.Moves.{put};
ghost use Rattle.octets.specs.Strings.{join};
ghost use Rattle.share_format.specs.Editions.{is_mdmf};
ghost use Rattle.share_format.specs.Header.{hash_size, iv_size, header_size, offsets_at, number_fields, offset_fields};
ghost use Rattle.share_format.specs.Header.{offsets_fit};
ghost use Rattle.share_storing.specs.Facts.{NarrowOffsets};

use octets::{moves, numbers};
use share_format::header::{
    CHAIN_FIELD, END_FIELD, Edition, FAR_OFFSET_SIZE, IV_AT, MDMF_OFFSETS_AT, Numbers,
    PRIVATE_KEY_FIELD, ROOT_AT, SEQUENCE_AT, SHARE_DATA_FIELD, SIGNATURE_FIELD, TO_LENGTH,
    TO_SEGMENT, TO_TOTAL, TREE_FIELD, VERSION_AT,
};

// The largest offset that four bytes hold.
const LAST_OFFSET: u64 = u32::MAX as u64;

// Stores the version and the numbers; MDMF's IV is empty.
fn put_numbers(d: &mut [u8], edition: Edition, numbers: Numbers, root: &[u8], iv: &[u8])
    requires { (header_size (is_mdmf edition) ≤ length d.old) × (length root.now ≡ hash_size)
        × (length iv.now ≡ iv_size (is_mdmf edition)) }
    ensures { d.new
        ≡ put 0
        (join (number_fields (is_mdmf edition) numbers.sequence root.now iv.now numbers.required
        numbers.total numbers.segment_size numbers.data_length))
        d.old }
{
    let at = IV_AT + iv.len();
    numbers::put_u8(d, VERSION_AT, edition.version());
    numbers::put_u64(d, SEQUENCE_AT, numbers.sequence);
    moves::copy_part(d, ROOT_AT, root);
    moves::copy_part(d, IV_AT, iv);
    numbers::put_u8(d, at, numbers.required);
    numbers::put_u8(d, at + TO_TOTAL, numbers.total);
    numbers::put_u64(d, at + TO_SEGMENT, numbers.segment_size);
    numbers::put_u64(d, at + TO_LENGTH, numbers.data_length);
}

fn put_sdmf_offsets(d: &mut [u8], bounds: [u64; 8])
    requires { (header_size false ≤ length d.old) × NarrowOffsets bounds }
    ensures { d.new ≡ put (offsets_at false) (join (offset_fields false bounds)) d.old }
{
    numbers::put_u32(d, SIGNATURE_FIELD, bounds[1] as u32);
    numbers::put_u32(d, CHAIN_FIELD, bounds[2] as u32);
    numbers::put_u32(d, TREE_FIELD, bounds[3] as u32);
    numbers::put_u32(d, SHARE_DATA_FIELD, bounds[4] as u32);
    numbers::put_u64(d, PRIVATE_KEY_FIELD, bounds[5]);
    numbers::put_u64(d, END_FIELD, bounds[6]);
}

fn put_mdmf_offsets(d: &mut [u8], bounds: [u64; 8])
    requires { header_size true ≤ length d.old }
    ensures { d.new ≡ put (offsets_at true) (join (offset_fields true bounds)) d.old }
{
    numbers::put_u64(d, MDMF_OFFSETS_AT, bounds[0]);
    numbers::put_u64(d, MDMF_OFFSETS_AT + FAR_OFFSET_SIZE, bounds[1]);
    numbers::put_u64(d, MDMF_OFFSETS_AT + 2 * FAR_OFFSET_SIZE, bounds[2]);
    numbers::put_u64(d, MDMF_OFFSETS_AT + 3 * FAR_OFFSET_SIZE, bounds[3]);
    numbers::put_u64(d, MDMF_OFFSETS_AT + 4 * FAR_OFFSET_SIZE, bounds[4]);
    numbers::put_u64(d, MDMF_OFFSETS_AT + 5 * FAR_OFFSET_SIZE, bounds[5]);
    numbers::put_u64(d, MDMF_OFFSETS_AT + 6 * FAR_OFFSET_SIZE, bounds[6]);
    numbers::put_u64(d, MDMF_OFFSETS_AT + 7 * FAR_OFFSET_SIZE, bounds[7]);
}

fn put_offsets(d: &mut [u8], edition: Edition, bounds: [u64; 8])
    requires { (header_size (is_mdmf edition) ≤ length d.old)
        × (is_mdmf edition ≡ false → NarrowOffsets bounds) }
    ensures { d.new
        ≡ put (offsets_at (is_mdmf edition)) (join (offset_fields (is_mdmf edition) bounds)) d.old }
{
    match edition {
        Edition::Sdmf => put_sdmf_offsets(d, bounds),
        Edition::Mdmf => put_mdmf_offsets(d, bounds),
    }
}

// Whether each offset fits its field; any number of 64 bits fits all but SDMF's first four.
#[tactic(auto, using(crate::proofs::FieldLaws::fits_four))]
pub fn offsets_fit(edition: Edition, bounds: [u64; 8]) -> bool
    requires { Each Fits64 bounds }
    ensures { result ≡ offsets_fit (is_mdmf edition) bounds }
{
    match edition {
        Edition::Sdmf => {
            bounds[1] <= LAST_OFFSET
                && (bounds[2] <= LAST_OFFSET
                    && (bounds[3] <= LAST_OFFSET && bounds[4] <= LAST_OFFSET))
        }
        Edition::Mdmf => true,
    }
}

// Stores the whole header, for parts with these boundaries.
pub fn put_header(
    d: &mut [u8],
    edition: Edition,
    numbers: Numbers,
    root: &[u8],
    iv: &[u8],
    bounds: [u64; 8],
)
    requires { (header_size (is_mdmf edition) ≤ length d.old) × (length root.now ≡ hash_size)
        × (length iv.now ≡ iv_size (is_mdmf edition))
        × (is_mdmf edition ≡ false → NarrowOffsets bounds) }
    ensures { d.new
        ≡ put 0
        (join (number_fields (is_mdmf edition) numbers.sequence root.now iv.now numbers.required
        numbers.total numbers.segment_size numbers.data_length)
        ++ join (offset_fields (is_mdmf edition) bounds))
        d.old }
{
    put_numbers(d, edition, numbers, root, iv);
    put_offsets(d, edition, bounds);
}
