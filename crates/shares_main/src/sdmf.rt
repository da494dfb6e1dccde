// SDMF shares, bare and in containers.
use crate::Field::{Byte, Eight, Four};
use crate::{Changes, Field, Judged, changed, enclosed, put, show_changed};
use std::io;
use std::io::Write;

const VERSION: Field = Byte(0);

const SEQUENCE: Field = Eight(1);

const REQUIRED: Field = Byte(57);

const TOTAL: Field = Byte(58);

const SEGMENT: Field = Eight(59);

const LENGTH: Field = Eight(67);

const SIGNATURE: Field = Four(75);

const CHAIN: Field = Four(79);

const TREE: Field = Four(83);

const SHARE_DATA: Field = Four(87);

const PRIVATE_KEY: Field = Eight(91);

const END: Field = Eight(99);

// The low byte of the chain's last node number.
const LAST_NODE: Field = Byte(758);

// The header of the 2,043-byte share (docs/RULES.md, P11) and the low bytes of its node numbers.
const FIELDS: Changes = &[
    (SEQUENCE, 1),
    (REQUIRED, 3),
    (TOTAL, 10),
    (SEGMENT, 12),
    (LENGTH, 10),
    (SIGNATURE, 399),
    (CHAIN, 655),
    (TREE, 791),
    (SHARE_DATA, 823),
    (PRIVATE_KEY, 827),
    (END, 2043),
    (Byte(656), 2),
    (Byte(690), 4),
    (Byte(724), 8),
    (LAST_NODE, 16),
];

// The first N bytes of that share, and zeros behind it where N is more. Every byte that no field sets is 0.
pub(crate) fn share<const N: usize>() -> [u8; N] {
    changed(&[0; N], FIELDS)
}

const CASES: &[(&str, Changes)] = &[
    ("version 2", &[(VERSION, 2)]),
    ("k 0", &[(REQUIRED, 0)]),
    ("k above N", &[(REQUIRED, 11)]),
    ("segment 10", &[(SEGMENT, 10)]),
    ("segment 15", &[(SEGMENT, 15)]),
    // The offsets.
    ("signature at 107", &[(SIGNATURE, 107)]),
    ("signature = chain", &[(SIGNATURE, 655)]),
    ("tree below chain", &[(TREE, 654)]),
    ("end 2042", &[(END, 2042)]),
    ("private key far away", &[(PRIVATE_KEY, u64::MAX)]),
    // What the parts contain.
    ("node number 31", &[(LAST_NODE, 31)]),
    ("node number 30", &[(LAST_NODE, 30)]),
    ("node number 2 again", &[(LAST_NODE, 2)]),
    ("chain of 135 bytes", &[(TREE, 790)]),
    ("N 8, a depth of 3", &[(TOTAL, 8)]),
    ("tree of 31 bytes", &[(SHARE_DATA, 822)]),
    ("share data of 5 bytes", &[(PRIVATE_KEY, 828)]),
    ("sequence number 2^64 - 1", &[(SEQUENCE, u64::MAX)]),
    // Of two faults the lower number is given.
    ("version 2 and segment 10", &[(VERSION, 2), (SEGMENT, 10)]),
    ("k 0 and end 0", &[(REQUIRED, 0), (END, 0)]),
    (
        "node number 31 and segment 10",
        &[(LAST_NODE, 31), (SEGMENT, 10)],
    ),
    ("node number 31 and end 0", &[(LAST_NODE, 31), (END, 0)]),
    (
        "node number 31 and private key at 828",
        &[(LAST_NODE, 31), (PRIVATE_KEY, 828)],
    ),
    (
        "node number 31 and sequence number 2^64 - 1",
        &[(LAST_NODE, 31), (SEQUENCE, u64::MAX)],
    ),
    // N = 1: a tree of one leaf, so the chain is empty.
    (
        "N 1 and no chain",
        &[
            (REQUIRED, 1),
            (TOTAL, 1),
            (SEGMENT, 10),
            (TREE, 655),
            (SHARE_DATA, 687),
            (PRIVATE_KEY, 697),
        ],
    ),
    (
        "no data and no tree",
        &[
            (SEGMENT, 0),
            (LENGTH, 0),
            (SHARE_DATA, 791),
            (PRIVATE_KEY, 791),
        ],
    ),
    (
        "no data and a tree of 32 bytes",
        &[
            (SEGMENT, 0),
            (LENGTH, 0),
            (SHARE_DATA, 823),
            (PRIVATE_KEY, 823),
        ],
    ),
    (
        "no data and a tree of 31 bytes",
        &[
            (SEGMENT, 0),
            (LENGTH, 0),
            (SHARE_DATA, 822),
            (PRIVATE_KEY, 822),
        ],
    ),
    ("data and no tree", &[(SHARE_DATA, 791)]),
    // The longest data, where the least multiple may be 2^64.
    (
        "data length 2^64 - 1, k 2, segment 0",
        &[(REQUIRED, 2), (SEGMENT, 0), (LENGTH, u64::MAX)],
    ),
    (
        "data length 2^64 - 1, k 2, segment 1",
        &[(REQUIRED, 2), (SEGMENT, 1), (LENGTH, u64::MAX)],
    ),
    (
        "data length 2^64 - 1, k 3, segment 2^64 - 1",
        &[(SEGMENT, u64::MAX), (LENGTH, u64::MAX)],
    ),
];

// The share with these changes, in a container.
fn in_container(changes: Changes) -> [u8; 2600] {
    enclosed(&changed(&share::<2043>(), changes))
}

fn show_containers(out: &mut impl Write) -> io::Result<()> {
    let mut c = in_container(&[]);
    let refused = in_container(&[(LAST_NODE, 31)]);
    let empty: [u8; 472] = enclosed(&[]);
    writeln!(out, "the share in a container: {}", Judged::container(&c))?;
    writeln!(
        out,
        "node number 31 in a container: {}",
        Judged::container(&refused)
    )?;
    writeln!(out, "an empty container: {}", Judged::container(&empty))?;
    c[0] = 84;
    writeln!(
        out,
        "a container with another magic: {}",
        Judged::container(&c)
    )?;
    writeln!(
        out,
        "a container of 471 bytes: {}",
        Judged::container(&[0; 471])
    )
}

// The share read as MDMF, with these bytes for its IV.
fn as_mdmf(iv: u8) -> Judged {
    let mut s = changed(&share::<2043>(), &[(VERSION, 1)]);
    put(&mut s, 41, &[iv; 16]);
    Judged::share(&s)
}

pub(crate) fn run(out: &mut impl Write) -> io::Result<()> {
    writeln!(out, "== SDMF shares")?;
    let share: [u8; 2043] = share();
    writeln!(out, "the share of 2,043 bytes: {}", Judged::share(&share))?;
    writeln!(out, "no bytes: {}", Judged::share(&[]))?;
    show_changed(out, &share, CASES)?;
    show_containers(out)?;
    writeln!(
        out,
        "as version 1, where an IV of zeros puts k 0 at 41: {}",
        as_mdmf(0)
    )?;
    writeln!(
        out,
        "as version 1, where an IV of 22s puts k 22 at 41, and the private key is at 12: {}",
        as_mdmf(22),
    )
}
