// The plans that the program shows.
ghost use Rattle.std.specs.Prelude.{MatchResult};
ghost use Rattle.plan.specs.Annuities.{Holds as IsAnnuity};
ghost use Rattle.plan.specs.AnnuityTerms.{Refuses as RefusesAnnuity};
ghost use Rattle.plan.specs.Endowments.{Holds as IsEndowment};
ghost use Rattle.plan.specs.EndowmentTerms.{Refuses as RefusesEndowment};

use plan::annuity::Annuity;
use plan::endowment::Endowment;
use units::fault::Fault;

// How many years the basis has.
pub(crate) const YEARS: usize = 5;

// The state in which a pension is paid.
const DISABLED: usize = 1;

// A pension to the disabled of so many ticks a year, with the premium due while active in the first years.
pub(crate) fn pension(ticks: i64, paying_years: usize) -> Result<Annuity, Fault>
    ensures { MatchResult result (λ s. IsAnnuity s ticks 1 0 5 paying_years) (λ fault. RefusesAnnuity ticks 1 0 5 paying_years fault) }
{
    Annuity::new(ticks, DISABLED, 0, YEARS, paying_years)
}

// A capital of so many ticks to those who become disabled, or are active at the end, with the premium due while active.
pub(crate) fn capital(ticks: i64) -> Result<Endowment, Fault>
    ensures { MatchResult result (λ s. IsEndowment s ticks 5 5) (λ fault. RefusesEndowment ticks 5 5 fault) }
{
    Endowment::new(ticks, YEARS, YEARS)
}
