// The life basis: one life, which in state 0 goes on and in state 1 has ended.
ghost use Rattle.std.specs.Prelude.{◌≤◌, map, pos, vec_capacity};
ghost use Rattle.basis.specs.LifeColumns.{Fit};

mod basis;
mod make;

// The longest column of death shares.
pub use units::MOST_YEARS;

// The share of the living that die in each year, and one discount factor for all years.
#[derive(Drop)]
pub struct LifeTable {
    deaths: Vec<u32>,
    factor: u32,
    ghost fit: { Fit (map pos deaths.items) (pos factor) },
    ghost room: { 120 ≤ vec_capacity deaths },
}
