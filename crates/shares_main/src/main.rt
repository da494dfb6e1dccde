// Shares and containers built byte by byte, one line a case: its name, the number, the edition, the lengths of key,
// signature, chain, tree, share data, private key and spare bytes. Then shares that the writers write.
#![tactic(auto)]

// A table of cases: of each its name, and the fields in which it differs from the base.
macro_rules! cases {
    ($kind:ident from $base:ident; $($name:literal => { $($field:ident: $value:expr),* },)*) => {
        &[$(($name, $kind { $($field: $value,)* ..$base })),*]
    };
}

mod mdmf;
mod sdmf;
mod writers;

use format::layout::{DATA_AT, MAGIC, OFFSET_AT, SIZE_AT};
use share_format::parts::Part;
use shares::share;
use shares::share::Checked;
use std::io::Write;
use std::{fmt, io};

// Where a number stands in a header, and how many bytes it has there.
#[derive(Clone, Copy)]
enum Field {
    Byte(usize),
    Four(usize),
    Eight(usize),
}

impl Field {
    // Stores the value's low bytes, where the field lies in s.
    fn store(self, s: &mut [u8], value: u64) {
        let bytes = value.to_be_bytes();
        match self {
            Field::Byte(at) => put(s, at, &bytes[7..]),
            Field::Four(at) => put(s, at, &bytes[4..]),
            Field::Eight(at) => put(s, at, &bytes),
        }
    }
}

// Fields with the numbers that they get.
type Changes = &'static [(Field, u64)];

// Stores bytes from `at` on, or none of them where there is no room for all.
fn put(s: &mut [u8], at: usize, bytes: &[u8]) {
    if let Some((_, rest)) = s.split_at_mut_checked(at)
        && let Some(place) = rest.get_mut(..bytes.len())
    {
        place.copy_from_slice(bytes);
    }
}

// A share with these fields changed.
fn changed<const N: usize>(share: &[u8; N], changes: &[(Field, u64)]) -> [u8; N] {
    let mut s = *share;
    for &(field, value) in changes {
        field.store(&mut s, value);
    }
    s
}

// A container with these data, no lease and no extra lease.
fn enclosed<const N: usize>(s: &[u8]) -> [u8; N] {
    let mut c = [0; N];
    put(&mut c, 0, &MAGIC);
    Field::Eight(SIZE_AT).store(&mut c, s.len() as u64);
    Field::Eight(OFFSET_AT).store(&mut c, (DATA_AT + s.len()) as u64);
    put(&mut c, DATA_AT, s);
    c
}

// The first n bytes, or none where there are fewer.
fn front(s: &[u8], n: usize) -> &[u8] {
    s.get(..n).unwrap_or(&[])
}

// In the order in which the lengths are shown.
const PARTS: [Part; 7] = [
    Part::Key,
    Part::Signature,
    Part::Chain,
    Part::Tree,
    Part::ShareData,
    Part::PrivateKey,
    Part::Spare,
];

// What the check says of a share, and the lengths of the parts that it hands back.
#[derive(Drop)]
struct Judged {
    checked: Checked,
    lengths: [usize; 7],
}

impl Judged {
    fn share(s: &[u8]) -> Self {
        Judged {
            checked: share::check(s),
            lengths: PARTS.map(|part| share::part(s, part).len()),
        }
    }

    fn container(c: &[u8]) -> Self {
        Judged {
            checked: share::check_container(c),
            lengths: PARTS.map(|part| share::container_part(c, part).len()),
        }
    }
}

impl fmt::Display for Judged {
    fn fmt<W: fmt::Write>(&self, f: &mut fmt::Formatter<W>) -> fmt::Result {
        let Checked {
            number,
            edition,
            ..
        } = self.checked;
        write!(f, "{number}, edition {edition},")?;
        for length in &self.lengths {
            write!(f, " {length}")?;
        }
        Ok(())
    }
}

// Shows the share with each of these changes.
fn show_changed<const N: usize>(
    out: &mut impl Write,
    share: &[u8; N],
    cases: &[(&str, Changes)],
) -> io::Result<()> {
    for &(name, changes) in cases {
        writeln!(out, "{name}: {}", Judged::share(&changed(share, changes)))?;
    }
    Ok(())
}

fn main(rt: HostRuntime) -> io::Result<()> {
    let mut out = rt.stdout();
    sdmf::run(&mut out)?;
    mdmf::run(&mut out)?;
    writers::run(&mut out)
}
