// The order of the parts: row 25.
ghost use Rattle.std.specs.Prelude.{◌≡◌};
ghost use Rattle.share_format.specs.Editions.{is_mdmf};
ghost use Rattle.share_numbers.specs.Order.{least_sizes, placed_ok};

use share_format::bounds;
use share_format::header::Edition;

// The least size of each part: that of key, signature and private key is 1.
const SDMF_LEAST: [u64; 7] = [1, 1, 0, 0, 0, 1, 0];

const MDMF_LEAST: [u64; 7] = [1, 0, 1, 1, 0, 0, 0];

fn least_sizes(edition: Edition) -> [u64; 7]
    ensures { result ≡ least_sizes (is_mdmf edition) }
{
    match edition {
        Edition::Sdmf => SDMF_LEAST,
        Edition::Mdmf => MDMF_LEAST,
    }
}

// Row 25, of the boundaries of parts that stand in a share or shall go into one.
pub fn placed_ok(edition: Edition, bounds: [u64; 8]) -> bool
    ensures { result ≡ placed_ok (is_mdmf edition) bounds }
{
    if bounds[0] != edition.header_size() {
        return false;
    }
    let least = least_sizes(edition);
    bounds::in_order(&bounds, &least)
}
