// A proposal on a basis and a plan.
ghost use Rattle.std.specs.Prelude.{◌<◌};

mod make;

use basis::Basis;
use plan::Plan;
use units::amount::Amount;
use units::premium::Premium;

// What a contract would be issued on.
#[derive(Drop)]
pub struct Proposal<'a, B: Basis, P: Plan> {
    basis: &'a B,
    plan: P,
    start: usize,
    deposit: Amount,
    premium: Premium,
    ghost start_in_basis: { start < (B.meaning basis.now).states },
}
