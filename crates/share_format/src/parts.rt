// Which part of a share has which name (docs/RULES.md, S34, S51).
ghost use Rattle.std.specs.Prelude.{◌≡◌, ◌<◌};
ghost use Rattle.share_format.specs.Editions.{is_mdmf, part_number};

use crate::header::Edition;

// The parts by name. SDMF has no spare bytes: an empty seventh part stands for them.
#[derive(Clone, Copy, Debug, PartialEq, Eq)]
pub enum Part {
    Key,
    Signature,
    Chain,
    Tree,
    ShareData,
    PrivateKey,
    Spare,
}

impl Part {
    // The part's number among the seven, in the order in which they lie.
    pub fn number(self, edition: Edition) -> usize
        ensures is { result ≡ part_number self (is_mdmf edition) }
        ensures below { result < 7 }
    {
        match edition {
            Edition::Sdmf => match self {
                Part::Key => 0,
                Part::Signature => 1,
                Part::Chain => 2,
                Part::Tree => 3,
                Part::ShareData => 4,
                Part::PrivateKey => 5,
                Part::Spare => 6,
            },
            Edition::Mdmf => match self {
                Part::PrivateKey => 0,
                Part::Chain => 1,
                Part::Signature => 2,
                Part::Key => 3,
                Part::Spare => 4,
                Part::ShareData => 5,
                Part::Tree => 6,
            },
        }
    }
}
