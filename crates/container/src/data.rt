// What a container lends to the crates above it: its data as they stand in the buffer, or why it is none.
ghost use Rattle.std.specs.Prelude.{◌≡◌};
ghost use Rattle.container.specs.Data.{beyond, lent_as, lent_of, data_lent};

use format::judging::Flaw;
use format::layout::DATA_AT;

// Where the data begin and end. Not a range of the library's, which is not Copy.
#[derive(Clone, Copy, Debug, PartialEq, Eq)]
pub struct Extent {
    pub from: usize,
    pub to: usize,
}

pub fn find_data(c: &[u8]) -> Result<Extent, Flaw>
    ensures { lent_as result ≡ lent_of c.now }
{
    match format::judging::judge(c) {
        Ok(frame) => Ok(Extent {
            from: DATA_AT,
            to: frame.data_end(),
        }),
        Err(flaw) => Err(flaw),
    }
}

// The data of a well-formed container, that very part of the slice; of any other buffer, nothing, at the slice's start.
pub fn data_of(c: &[u8]) -> &[u8]
    ensures bytes { result.now ≡ data_lent c.now }
    ensures place { result.ref_ptr ≡ beyond c.entry.ref_ptr (lent_of c.now).from }
{
    let lent = find_data(c).unwrap_or(Extent { from: 0, to: 0 });
    &c[lent.from..lent.to]
}
