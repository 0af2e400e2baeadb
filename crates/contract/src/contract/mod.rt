// A contract on a basis.
ghost use Rattle.std.specs.Prelude.{◌≡◌, ◌<◌, ◌≤◌};
ghost use Rattle.contract.specs.Standings.{reserve_at};

mod altering;
mod answering;
mod asking;
mod closing;
mod issued;
mod leaving;

use basis::Basis;
use plan::Plan;
use units::premium::Premium;

// The last number that a closing or an alteration can be given.
const LAST_NUMBER: u16 = 9_999;

#[derive(Drop)]
pub struct Contract<'a, B: Basis, P: Plan> {
    basis: &'a B,
    plan: P,
    premium: Premium,
    state: usize,
    year: usize,
    // The closings and alterations accepted so far.
    number: u16,
    // The reserve where it stands, which each step that changes it comes to anyway.
    reserve: i64,
    ghost state_in_basis: { state < (B.meaning basis.now).states },
    ghost year_in_basis: { year ≤ (B.meaning basis.now).years },
    ghost counted: { number ≤ 9999 },
    ghost reserved: { reserve ≡ reserve_at (B.meaning basis.now) (record {
      plan = P.payments plan;
      premium = premium.ticks;
      state = state;
      year = year;
      number = number;
    }) },
}
