// Why a share is refused, with the row's number (docs/RULES.md, S21 to S29).
ghost use Rattle.std.specs.Prelude.{◌≡◌};
ghost use Rattle.share_contents.specs.Faults.{number_of};

#[derive(Clone, Copy, Debug, PartialEq, Eq)]
pub enum Fault {
    Short = 21,
    Version = 22,
    Coding = 23,
    SegmentSize = 24,
    Offsets = 25,
    HashChain = 26,
    BlockTree = 27,
    ShareData = 28,
    Sequence = 29,
}

impl Fault {
    // The row's number.
    pub fn number(self) -> u32
        ensures { result ≡ number_of self }
    {
        self as u32
    }
}
