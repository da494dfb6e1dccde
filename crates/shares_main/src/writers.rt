// Shares written from numbers and parts. A line is a case: its name, the number, the share's length. Below it: a share
// that was written is checked, read back and written again; on a refusal the space is compared with what it was.
use crate::{Judged, front, put};
use share_format::header::{Edition, Numbers};
use share_format::parts::Part;
use share_rules::Written;
use shares::share;
use std::io;
use std::io::Write;

// What a case gives a writer: numbers, parts by their lengths, the chain's last node number, the length of the space.
// SDMF has no segment size and no spare bytes, MDMF no IV. Lengths, so that a row says `blocks: 5` and repeats no byte.
#[derive(Clone, Copy)]
struct Given {
    edition: Edition,
    sequence: u64,
    root: usize,
    k: u8,
    segment: u64,
    length: u64,
    key: usize,
    signature: usize,
    chain: usize,
    node: u8,
    tree: usize,
    blocks: usize,
    private: usize,
    spare: usize,
    space: usize,
}

// The SDMF share of 2,043 bytes, with seven bytes of space behind it.
const SDMF: Given = Given {
    edition: Edition::Sdmf,
    sequence: 1,
    root: 32,
    k: 3,
    segment: 0,
    length: 10,
    key: 292,
    signature: 256,
    chain: 136,
    node: 16,
    tree: 32,
    blocks: 4,
    private: 1216,
    spare: 0,
    space: 2050,
};

// The MDMF share of 2,310 bytes, with seven bytes of space behind it.
const MDMF: Given = Given {
    edition: Edition::Mdmf,
    segment: 12,
    length: 30,
    tree: 224,
    blocks: 58,
    spare: 5,
    space: 2317,
    ..SDMF
};

const SDMF_CASES: &[(&str, Given)] = cases! { Given from SDMF;
    "the SDMF share, into seven bytes more" => {},
    "R of 31 bytes, into one byte" => { root: 31, space: 1 },
    "k 0, into one byte" => { k: 0, space: 1 },
    "into 2,042 bytes" => { space: 2042 },
    "k 0" => { k: 0 },
    "data length 2^64 - 1, k 2" => { k: 2, length: u64::MAX },
    "no key" => { key: 0 },
    "node number 31" => { node: 31 },
    "no tree" => { tree: 0 },
    "share data of 5 bytes" => { blocks: 5 },
    "data length 2^64 - 1, k 3" => { length: u64::MAX },
    "sequence number 2^64 - 1" => { sequence: u64::MAX },
};

const MDMF_CASES: &[(&str, Given)] = cases! { Given from MDMF;
    "the MDMF share, into seven bytes more" => {},
    "no spare byte" => { spare: 0 },
    "no data, segment size 12" => { length: 0, blocks: 0, tree: 0 },
    "no data, segment size 0" => { segment: 0, length: 0, blocks: 0, tree: 0 },
    "five segments" => { segment: 3, length: 15, blocks: 85, tree: 480, space: 2600 },
    "segment size 2^64 - 1" => { segment: u64::MAX, blocks: 26, tree: 32 },
    "private key, signature and key of one byte" => { private: 1, signature: 1, key: 1 },

    "R of 31 bytes, into one byte" => { root: 31, space: 1 },
    "R of 33 bytes" => { root: 33 },
    "k 0, into one byte" => { k: 0, space: 1 },
    "into 2,309 bytes" => { space: 2309 },

    "k 0 and segment size 10" => { k: 0, segment: 10 },
    "k above N" => { k: 11 },
    "segment size 10" => { segment: 10 },
    "segment size 0 with data" => { segment: 0 },

    "no private key" => { private: 0 },
    "no signature" => { signature: 0 },
    "no key" => { key: 0 },
    "node number 31" => { node: 31 },
    "chain of 135 bytes" => { chain: 135 },

    "no tree" => { tree: 0 },
    "a tree of 3 hashes" => { tree: 96 },
    "no data and a tree of one hash" => { length: 0, blocks: 0, tree: 32 },
    "share data of 57 bytes" => { blocks: 57 },

    "data length 2^64 - 1" => { length: u64::MAX },
    "data length and segment size 2^64 - 1" => { segment: u64::MAX, length: u64::MAX, tree: 32 },
    "sequence number 2^64 - 1" => { sequence: u64::MAX },
};

// The parts of the two shares at the places that P11 of docs/RULES.md names, with the last byte of the chain.
const SDMF_PARTS: &[(usize, &[u8])] = &[
    (9, &[21; 32]),
    (41, &[22; 16]),
    (107, &[26; 292]),
    (399, &[23; 256]),
    (790, &[24]),
    (791, &[27; 32]),
    (823, &[28; 4]),
    (827, &[25; 1216]),
];

const MDMF_PARTS: &[(usize, &[u8])] = &[
    (9, &[21; 32]),
    (123, &[25; 1216]),
    (1474, &[24]),
    (1475, &[23; 256]),
    (1731, &[26; 292]),
    (2023, &[29; 5]),
    (2028, &[28; 58]),
    (2086, &[27; 224]),
];

// Each part has bytes of its own.
fn write(given: &Given, d: &mut [u8]) -> Written {
    let mut chain = [0; 136];
    chain[1] = 2;
    chain[35] = 4;
    chain[69] = 8;
    chain[103] = given.node;
    chain[135] = 24;
    let root = front(&[21; 33], given.root);
    let signature = front(&[23; 256], given.signature);
    let chain = front(&chain, given.chain);
    let private_key = front(&[25; 1216], given.private);
    let key = front(&[26; 292], given.key);
    let tree = front(&[27; 480], given.tree);
    let share_data = front(&[28; 85], given.blocks);
    match given.edition {
        Edition::Sdmf => share_writing::write_sdmf(
            given.sequence,
            root,
            &[22; 16],
            given.k,
            10,
            given.length,
            key,
            signature,
            chain,
            tree,
            share_data,
            private_key,
            d,
        ),
        Edition::Mdmf => share_writing::write_mdmf(
            given.sequence,
            root,
            given.k,
            10,
            given.segment,
            given.length,
            private_key,
            chain,
            signature,
            key,
            front(&[29; 5], given.spare),
            share_data,
            tree,
            d,
        ),
    }
}

// As the writers answer: their record is the C interface's.
const TOO_SHORT: Written = Written {
    number: 21,
    length: 0,
};

// A share written again from the numbers of its header and the parts that the check hands back.
fn sdmf_again(s: &[u8], d: &mut [u8]) -> Written {
    let Some(header) = s.first_chunk::<107>() else {
        return TOO_SHORT;
    };
    let numbers = Numbers::read(header, Edition::Sdmf);
    share_writing::write_sdmf(
        numbers.sequence,
        &header[9..41],
        &header[41..57],
        numbers.required,
        numbers.total,
        numbers.data_length,
        share::part(s, Part::Key),
        share::part(s, Part::Signature),
        share::part(s, Part::Chain),
        share::part(s, Part::Tree),
        share::part(s, Part::ShareData),
        share::part(s, Part::PrivateKey),
        d,
    )
}

// MDMF's writer takes other numbers and its parts in another order, so the two stay apart.
fn mdmf_again(s: &[u8], d: &mut [u8]) -> Written {
    let Some(header) = s.first_chunk::<123>() else {
        return TOO_SHORT;
    };
    let numbers = Numbers::read(header, Edition::Mdmf);
    share_writing::write_mdmf(
        numbers.sequence,
        &header[9..41],
        numbers.required,
        numbers.total,
        numbers.segment_size,
        numbers.data_length,
        share::part(s, Part::PrivateKey),
        share::part(s, Part::Chain),
        share::part(s, Part::Signature),
        share::part(s, Part::Key),
        share::part(s, Part::Spare),
        share::part(s, Part::ShareData),
        share::part(s, Part::Tree),
        d,
    )
}

fn show_written(out: &mut impl Write, name: &str, written: Written) -> io::Result<()> {
    writeln!(out, "{name}: {} {}", written.number, written.length)
}

fn say(out: &mut impl Write, what: &str, a: &[u8], b: &[u8]) -> io::Result<()> {
    writeln!(out, "{what}: {}", if a == b { "yes" } else { "NO" })
}

// Of d and e, both 255s, d is written, and then e from what the check hands back of d.
fn show_case(out: &mut impl Write, name: &str, given: &Given) -> io::Result<()> {
    let mut d = [255; 2600];
    let mut e = [255; 2600];
    let space = given.space.min(2600);
    let d = &mut d[..space];
    let e = &mut e[..space];
    let written = write(given, d);
    show_written(out, name, written)?;
    if written.number != 0 {
        return say(out, "  the space is as it was", d, e);
    }
    let (s, behind) = d.split_at((written.length as usize).min(space));
    say(
        out,
        "  the bytes behind it are as they were",
        behind,
        &e[s.len()..],
    )?;
    writeln!(out, "  checked and read back: {}", Judged::share(s))?;
    let again = match given.edition {
        Edition::Sdmf => sdmf_again(s, e),
        Edition::Mdmf => mdmf_again(s, e),
    };
    show_written(out, "  written again", again)?;
    say(out, "  the space is the same again", d, e)
}

// The share written into its own length, and the same with its parts stored by hand.
fn show_by_hand<const N: usize>(
    out: &mut impl Write,
    name: &str,
    given: &Given,
    header: [u8; N],
    parts: &[(usize, &[u8])],
) -> io::Result<()> {
    let mut s = header;
    for &(at, part) in parts {
        put(&mut s, at, part);
    }
    let mut d = [255; N];
    show_written(out, name, write(given, &mut d))?;
    say(
        out,
        "  the bytes are those of the share built by hand",
        &d,
        &s,
    )
}

pub(crate) fn run(out: &mut impl Write) -> io::Result<()> {
    writeln!(out, "== SDMF shares that are written")?;
    let header: [u8; 2043] = crate::sdmf::share();
    show_by_hand(
        out,
        "the SDMF share, into its own length",
        &SDMF,
        header,
        SDMF_PARTS,
    )?;
    for (name, given) in SDMF_CASES {
        show_case(out, name, given)?;
    }
    writeln!(out, "== MDMF shares that are written")?;
    let header: [u8; 2310] = crate::mdmf::share();
    show_by_hand(
        out,
        "the MDMF share, into its own length",
        &MDMF,
        header,
        MDMF_PARTS,
    )?;
    for (name, given) in MDMF_CASES {
        show_case(out, name, given)?;
    }
    Ok(())
}
