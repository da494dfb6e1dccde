// The five kinds of requests, by their first byte.
ghost use Rattle.requests.specs.Kinds.{Names};

#[derive(Clone, Copy, Debug, PartialEq, Eq)]
pub enum Kind {
    TestWrite,
    Add,
    Renew,
    Cancel,
    Read,
}

// A first byte that names no kind.
#[derive(Clone, Copy, Debug, PartialEq, Eq)]
pub struct NoKind;

impl TryFrom<u8> for Kind {
    type Error = NoKind;

    ghost try_from_gives = { Names };

    fn try_from(byte: u8) -> Result<Self, NoKind> {
        match byte {
            1 => Ok(Kind::TestWrite),
            2 => Ok(Kind::Add),
            3 => Ok(Kind::Renew),
            4 => Ok(Kind::Cancel),
            5 => Ok(Kind::Read),
            _ => Err(NoKind),
        }
    }
}
