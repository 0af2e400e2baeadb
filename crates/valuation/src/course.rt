// The course of a contract: its reserves in all states, year by year.
ghost use Rattle.std.specs.Prelude.{MatchResult};
ghost use Rattle.valuation.specs.Courses.{Writes, Refuses};

use crate::mean::Mean;
use crate::sweep::Sweep;
use basis::Basis;
use plan::Plan;
use units::fault::Fault;
use units::premium::Premium;
use units::rule::Rule;

// Writes a row of the reserves of all states for each year from `year` to the last, one after
// another, into the front of the column.
#[tactic(auto, using(crate::specs::Orders::mean_ordered))]
pub fn course<B: Basis, P: Plan>(
    basis: &B,
    plan: &P,
    premium: Premium,
    year: usize,
    column: &mut [i64],
) -> Result<(), Fault>
    ensures { MatchResult result
        (λ _. Writes (B.meaning basis.now) (P.payments plan.now) premium.ticks year
        column.old column.new)
        (λ fault. Refuses (B.meaning basis.now) year column.old column.new fault) }
{
    let years = basis.years();
    let length = (years + 1).saturating_sub(year) * basis.states();
    if column.len() < length {
        return Err(Fault::breach(Rule::Course, year, 0));
    }
    if year <= years {
        let sweep = Sweep {
            valuation: &Mean,
            basis,
            plan,
            premium,
        };
        sweep.back_to(year, &mut column[..length]);
    }
    Ok(())
}
