// MDMF shares, bare and in containers.
use crate::Field::{Byte, Eight};
use crate::{Changes, Field, Judged, changed, enclosed, front, sdmf, show_changed};
use std::io;
use std::io::Write;

const VERSION: Field = Byte(0);

const SEQUENCE: Field = Eight(1);

const REQUIRED: Field = Byte(41);

const TOTAL: Field = Byte(42);

const SEGMENT: Field = Eight(43);

const LENGTH: Field = Eight(51);

const PRIVATE_KEY: Field = Eight(59);

const CHAIN: Field = Eight(67);

const SIGNATURE: Field = Eight(75);

const KEY: Field = Eight(83);

const KEY_END: Field = Eight(91);

const SHARE_DATA: Field = Eight(99);

const TREE: Field = Eight(107);

const END: Field = Eight(115);

// The low byte of the chain's last node number.
const LAST_NODE: Field = Byte(1442);

// The header and the low bytes of the node numbers of a share of 2,310 bytes: 30 bytes of data in three segments, for
// which 3 of 10 shares are enough. It has a private key of 1,216 bytes, a chain of 136, a signature of 256, a key of
// 292, five spare bytes, share data of three salts and 10 bytes, a tree of seven hashes.
const FIELDS: Changes = &[
    (VERSION, 1),
    (SEQUENCE, 1),
    (REQUIRED, 3),
    (TOTAL, 10),
    (SEGMENT, 12),
    (LENGTH, 30),
    (PRIVATE_KEY, 123),
    (CHAIN, 1339),
    (SIGNATURE, 1475),
    (KEY, 1731),
    (KEY_END, 2023),
    (SHARE_DATA, 2028),
    (TREE, 2086),
    (END, 2310),
    (Byte(1340), 2),
    (Byte(1374), 4),
    (Byte(1408), 8),
    (LAST_NODE, 16),
];

// The first N bytes of that share, and zeros behind it where N is more. Every byte that no field sets is 0.
pub(crate) fn share<const N: usize>() -> [u8; N] {
    changed(&[0; N], FIELDS)
}

// The first n bytes of a header: SDMF's for version 0, MDMF's for any other.
fn header(version: u8, n: usize) -> Judged {
    let mut s: [u8; 123] = if version == 0 { sdmf::share() } else { share() };
    s[0] = version;
    Judged::share(front(&s, n))
}

fn show_headers(out: &mut impl Write) -> io::Result<()> {
    for n in [106, 107, 122, 123] {
        for version in 0..3 {
            writeln!(out, "{n} bytes, version {version}: {}", header(version, n))?;
        }
    }
    writeln!(out, "one byte, version 1: {}", header(1, 1))
}

const FIRST_CASES: &[(&str, Changes)] = &[
    ("version 2", &[(VERSION, 2)]),
    ("version 255", &[(VERSION, 255)]),
    (
        "as version 0, where data length 30 puts k 0 at 57",
        &[(VERSION, 0)],
    ),
    (
        "as version 0, where data length 778 puts k 3 at 57, and the segment size is 123",
        &[(VERSION, 0), (LENGTH, 778)],
    ),
    ("k 0", &[(REQUIRED, 0)]),
    ("k above N", &[(REQUIRED, 11)]),
    ("segment size 10", &[(SEGMENT, 10)]),
    ("segment size 0 with data", &[(SEGMENT, 0)]),
    // Each relation between offsets as it just fails, 25, and as it just holds, where a later row may refuse the share.
    ("private key at 122", &[(PRIVATE_KEY, 122)]),
    ("private key at 124", &[(PRIVATE_KEY, 124)]),
    ("private key of no byte", &[(CHAIN, 123)]),
    ("private key of one byte, a longer chain", &[(CHAIN, 124)]),
    ("no chain", &[(SIGNATURE, 1339)]),
    ("signature a byte before the chain", &[(SIGNATURE, 1338)]),
    ("signature of no byte", &[(KEY, 1475)]),
    ("signature of one byte", &[(KEY, 1476)]),
    ("key of no byte", &[(KEY_END, 1731)]),
    ("key of one byte", &[(KEY_END, 1732)]),
    ("no spare byte", &[(KEY_END, 2028)]),
    ("share data a byte before the key's end", &[(KEY_END, 2029)]),
    ("no share data, a longer tree", &[(TREE, 2028)]),
    ("tree a byte before the share data", &[(TREE, 2027)]),
    ("no tree", &[(TREE, 2310)]),
    ("end a byte before the tree", &[(TREE, 2311)]),
    ("end 2,309", &[(END, 2309)]),
    ("end 2,311", &[(END, 2311)]),
];

const LATER_CASES: &[(&str, Changes)] = &[
    ("private key at 2^64 - 1", &[(PRIVATE_KEY, u64::MAX)]),
    ("chain at 2^64 - 1", &[(CHAIN, u64::MAX)]),
    ("tree at 2^64 - 1", &[(TREE, u64::MAX)]),
    ("end 2^64 - 1", &[(END, u64::MAX)]),
    // What the parts contain.
    ("node number 31", &[(LAST_NODE, 31)]),
    ("node number 30", &[(LAST_NODE, 30)]),
    ("node number 2 again", &[(LAST_NODE, 2)]),
    ("chain of 135 bytes", &[(SIGNATURE, 1474)]),
    ("N 8, a depth of 3", &[(TOTAL, 8)]),
    ("share data of 57 bytes", &[(SHARE_DATA, 2029)]),
    ("sequence number 2^64 - 1", &[(SEQUENCE, u64::MAX)]),
    ("sequence number 2^64 - 2", &[(SEQUENCE, u64::MAX - 1)]),
    // Of two faults the lower number is given.
    (
        "version 2 and segment size 10",
        &[(VERSION, 2), (SEGMENT, 10)],
    ),
    ("k 0 and segment size 10", &[(REQUIRED, 0), (SEGMENT, 10)]),
    (
        "node number 31 and segment size 10",
        &[(LAST_NODE, 31), (SEGMENT, 10)],
    ),
    ("node number 31 and end 0", &[(LAST_NODE, 31), (END, 0)]),
    (
        "node number 31 and a tree of 225 bytes",
        &[(LAST_NODE, 31), (TREE, 2085)],
    ),
    (
        "a tree of 225 bytes, share data of 57, sequence number 2^64 - 1",
        &[(TREE, 2085), (SEQUENCE, u64::MAX)],
    ),
    (
        "share data of 57 bytes, sequence number 2^64 - 1",
        &[(SHARE_DATA, 2029), (SEQUENCE, u64::MAX)],
    ),
];

// Numbers of a share, and the sizes of its share data and its tree.
#[derive(Clone, Copy)]
struct Sizes {
    k: u64,
    segment: u64,
    length: u64,
    share_data: u16,
    tree: u16,
}

const NO_DATA: Sizes = Sizes {
    k: 3,
    segment: 12,
    length: 0,
    share_data: 0,
    tree: 0,
};

const DATA_LENGTHS: &[(&str, Sizes)] = cases! { Sizes from NO_DATA;
    "data length 0" => {},
    "data length 1" => { length: 1, share_data: 17, tree: 32 },
    "data length 2" => { length: 2, share_data: 17, tree: 32 },
    "data length 3" => { length: 3, share_data: 17, tree: 32 },
    "data length 4" => { length: 4, share_data: 18, tree: 32 },
    "data length 4, a byte less" => { length: 4, share_data: 17, tree: 32 },
    "data length 12" => { length: 12, share_data: 20, tree: 32 },
    "data length 13" => { length: 13, share_data: 37, tree: 96 },
    "data length 13, one salt and one hash" => { length: 13, share_data: 21, tree: 32 },
    "segment size 0 and no data" => { segment: 0 },
    "no data and a tree of 32 bytes" => { tree: 32 },
    "no data and a byte of share data" => { share_data: 1 },
    "no data, a tree of 32 bytes and segment size 0" => { segment: 0, tree: 32 },
};

const SMALL_SEGMENTS: Sizes = Sizes {
    segment: 3,
    ..NO_DATA
};

// Each segment has a salt and one byte. Beside its tree are those of the next smaller and larger depth.
const SEGMENTS: &[(&str, Sizes)] = cases! { Sizes from SMALL_SEGMENTS;
    "1 segment" => { length: 3, share_data: 17, tree: 32 },
    "1 segment and no tree" => { length: 3, share_data: 17 },
    "1 segment, 3 hashes" => { length: 3, share_data: 17, tree: 96 },
    "2 segments" => { length: 6, share_data: 34, tree: 96 },
    "2 segments, 1 hash" => { length: 6, share_data: 34, tree: 32 },
    "2 segments, 7 hashes" => { length: 6, share_data: 34, tree: 224 },
    "3 segments" => { length: 9, share_data: 51, tree: 224 },
    "3 segments, 3 hashes" => { length: 9, share_data: 51, tree: 96 },
    "3 segments, 5 hashes" => { length: 9, share_data: 51, tree: 160 },
    "3 segments, a tree of 223 bytes" => { length: 9, share_data: 51, tree: 223 },
    "3 segments and no salt" => { length: 9, share_data: 3, tree: 224 },
    "3 segments, a byte of share data more" => { length: 9, share_data: 52, tree: 224 },
    "4 segments" => { length: 12, share_data: 68, tree: 224 },
    "4 segments, 15 hashes" => { length: 12, share_data: 68, tree: 480 },
    "5 segments" => { length: 15, share_data: 85, tree: 480 },
    "5 segments, 7 hashes" => { length: 15, share_data: 85, tree: 224 },
    "5 segments, 9 hashes" => { length: 15, share_data: 85, tree: 288 },
};

const LONGEST: Sizes = Sizes {
    length: u64::MAX,
    share_data: 58,
    tree: 224,
    ..NO_DATA
};

const LARGEST_NUMBERS: &[(&str, Sizes)] = cases! { Sizes from LONGEST;
    "segment size 2^64 - 1" => { segment: u64::MAX, length: 30, share_data: 26, tree: 32 },
    "segment size 2^64 - 2" => { segment: u64::MAX - 1, length: 30, share_data: 26, tree: 32 },
    "segment size and data length 2^64 - 1" => { segment: u64::MAX, tree: 32 },
    "data length 2^64 - 1, two segments" => { k: 2, segment: u64::MAX - 1, tree: 96 },
    "data length 2^64 - 1, 2^60 segments" => { k: 8, segment: 16 },
    "data length 2^64 - 1, k 1, segment size 1" => { k: 1, segment: 1 },
};

fn show_sized(out: &mut impl Write, cases: &[(&str, Sizes)]) -> io::Result<()> {
    for (name, sizes) in cases {
        let tree_at = 2028 + sizes.share_data as u64;
        let end = tree_at + sizes.tree as u64;
        let changes = [
            (REQUIRED, sizes.k),
            (SEGMENT, sizes.segment),
            (LENGTH, sizes.length),
            (TREE, tree_at),
            (END, end),
        ];
        let s = changed(&share::<2700>(), &changes);
        writeln!(out, "{name}: {}", Judged::share(front(&s, end as usize)))?;
    }
    Ok(())
}

// N = 1: a tree of one leaf, so the chain is empty.
fn single() -> Judged {
    let changes = [
        (REQUIRED, 1),
        (TOTAL, 1),
        (SIGNATURE, 1339),
        (TREE, 2106),
        (END, 2330),
    ];
    Judged::share(&changed(&share::<2330>(), &changes))
}

// The first n bytes of the share with this last node number, in a container.
fn enclosed_share(node: u64, n: usize) -> Judged {
    let s = changed(&share::<2310>(), &[(LAST_NODE, node)]);
    Judged::container(&enclosed::<2800>(front(&s, n)))
}

pub(crate) fn run(out: &mut impl Write) -> io::Result<()> {
    writeln!(out, "== the first bytes of a header")?;
    show_headers(out)?;
    writeln!(out, "== MDMF shares")?;
    let share: [u8; 2310] = share();
    writeln!(out, "the share of 2,310 bytes: {}", Judged::share(&share))?;
    show_changed(out, &share, FIRST_CASES)?;
    writeln!(
        out,
        "a byte behind the end: {}",
        Judged::share(&self::share::<2311>())
    )?;
    writeln!(
        out,
        "the last byte is missing: {}",
        Judged::share(&self::share::<2309>())
    )?;
    show_changed(out, &share, LATER_CASES)?;
    writeln!(out, "N 1 and no chain: {}", single())?;
    show_sized(out, DATA_LENGTHS)?;
    show_sized(out, SEGMENTS)?;
    show_sized(out, LARGEST_NUMBERS)?;
    writeln!(
        out,
        "the share in a container: {}",
        enclosed_share(16, 2310)
    )?;
    writeln!(
        out,
        "node number 31 in a container: {}",
        enclosed_share(31, 2310)
    )?;
    writeln!(out, "122 bytes in a container: {}", enclosed_share(16, 122))
}
