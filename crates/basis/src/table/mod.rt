// The table basis: a share for each move in each year, over 2 to 8 states.
ghost use Rattle.std.specs.Prelude.{◌≤◌, map, pos, vec_len, vec_capacity};
ghost use Rattle.basis.specs.TransitionColumns.{Fit};

mod basis;
mod check;
mod make;
mod rows;

// A factor for each year, and the shares of all moves, those of one state in one year side by side:
// two columns, since a year has one factor and many shares.
#[derive(Drop)]
pub struct TransitionTable {
    states: usize,
    factors: Vec<u32>,
    shares: Vec<u32>,
    ghost fit: { Fit states (vec_len factors) (map pos factors.items) (map pos shares.items) },
    ghost factor_room: { 120 ≤ vec_capacity factors },
    ghost share_room: { 7680 ≤ vec_capacity shares },
}
