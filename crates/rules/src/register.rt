// The register table: at which lines which register is nonzero.
ghost use Rattle.std.specs.Prelude.{◌≡◌, get_or};
ghost use Rattle.state.specs.Rules.{register_ok};

use state::range::in_range;

// The columns of the register table: 1 where the register is nonzero, at the lines 0 to 24.
pub(crate) const CURRENT: [u8; 25] = [
    1, 0, 0, 1, 1, 0, 0, 0, 0, 0, 0, 1, 1, 1, 1, 1, 1, 1, 1, 1, 1, 1, 1, 0, 1,
];

pub(crate) const TRANSIT: [u8; 25] = [
    0, 0, 1, 0, 0, 1, 0, 0, 0, 0, 1, 0, 0, 0, 0, 0, 0, 1, 0, 0, 0, 0, 0, 1, 1,
];

pub(crate) const MUTEX: [u8; 25] = [
    0, 0, 0, 1, 1, 1, 1, 1, 1, 1, 1, 1, 1, 1, 1, 1, 1, 1, 1, 1, 1, 0, 0, 0, 0,
];

pub(crate) const OBSERVED: [u8; 25] = [
    0, 0, 0, 0, 0, 0, 0, 1, 1, 0, 0, 0, 0, 1, 0, 0, 0, 0, 0, 0, 0, 0, 0, 0, 0,
];

// The entry of a column at a position, or past where there is no such position.
pub(crate) fn column(table: [u8; 25], position: u8, past: u8) -> u8
    ensures { result ≡ get_or table position past }
{
    *table.get(position as usize).unwrap_or(&past)
}

// A register is nonzero, and within its range, exactly where its column has 1.
pub(crate) fn register_ok(column: u8, top: u8, n: u8) -> bool
    ensures { result ≡ register_ok column top n }
{
    if column == 1 {
        in_range(1, top, n)
    } else {
        n == 0
    }
}
