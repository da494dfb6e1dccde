// Bytes and positions as text.
ghost use Rattle.std.specs.Prelude.{◌<◌};

use std::fmt;

// Text that comes from outside: a dot stands for each byte that is no printable ASCII, so that neither a line's end nor
// an escape sequence gets out.
#[derive(Clone, Copy)]
pub(crate) struct Ascii<'a>(pub(crate) &'a [u8]);

impl fmt::Display for Ascii<'_> {
    fn fmt<W: fmt::Write>(&self, f: &mut fmt::Formatter<W>) -> fmt::Result {
        for &byte in self.0 {
            let shown = match byte {
                b' '..=b'~' => char::from(byte),
                _ => '.',
            };
            write!(f, "{shown}")?;
        }
        Ok(())
    }
}

// A byte as two hexadecimal digits, in one piece, since each piece of a format is a write of its own.
#[derive(Clone, Copy)]
pub(crate) struct Pair([u8; 2]);

impl Pair {
    pub(crate) fn of(byte: u8) -> Pair {
        Pair([digit(byte / 16), digit(byte % 16)])
    }
}

impl fmt::Display for Pair {
    fn fmt<W: fmt::Write>(&self, f: &mut fmt::Formatter<W>) -> fmt::Result {
        f.write_str(str::from_utf8(&self.0).unwrap_or("??"))
    }
}

fn digit(value: u8) -> u8
    requires { value < 16 }
{
    match value {
        0..=9 => b'0' + value,
        _ => b'A' - 10 + value,
    }
}

// Bytes as pairs of hexadecimal digits.
#[derive(Clone, Copy)]
pub(crate) struct Hex<'a>(pub(crate) &'a [u8]);

impl fmt::Display for Hex<'_> {
    fn fmt<W: fmt::Write>(&self, f: &mut fmt::Formatter<W>) -> fmt::Result {
        for &byte in self.0 {
            write!(f, "{}", Pair::of(byte))?;
        }
        Ok(())
    }
}

// A run of positions, by its first and its last.
#[derive(Clone, Copy)]
pub(crate) struct Run {
    pub(crate) first: usize,
    pub(crate) last: usize,
}

impl fmt::Display for Run {
    fn fmt<W: fmt::Write>(&self, f: &mut fmt::Formatter<W>) -> fmt::Result {
        let Run { first, last } = *self;
        if first < last {
            write!(f, "{first}-{last}")
        } else {
            write!(f, "{first}")
        }
    }
}
