// Commands from the fields of their lines.
ghost use Rattle.std.specs.Prelude.{◌≡◌, ℕ, [], ◌∷◌};
ghost use Rattle.std.specs.Str.Parse.{digits_value};
ghost use Rattle.sheet.specs.Fields.{bytes_of, StandFrom};
ghost use Rattle.sheet.specs.Lines.{further};
ghost use Rattle.desk.specs.Parsing.{Makes, Plans};

use super::Command;
use plan::endowment::Endowment;
use sheet::part::Part;
use sheet::spot::Spot;
use units::fault::Fault;
use units::{LIMIT, MOST_STATES, MOST_YEARS};

// The endowment of the numbers that its fields write, if they are in their ranges.
fn plan(
    years: usize,
    sum: Part<'_>,
    term: Part<'_>,
    paying_years: Part<'_>,
    numbers: (u64, u64, u64),
) -> Result<Endowment, Fault>
    ensures { Plans years sum.entry.spot term.entry.spot paying_years.entry.spot numbers.0 numbers.1 numbers.2 result }
{
    let (s, k, g) = numbers;
    let s = sum.within(s, 0, LIMIT as usize)?;
    let k = term.within(k, 1, years.min(MOST_YEARS))?;
    let g = paying_years.within(g, 0, k)?;
    Endowment::new(s as i64, k, g)
}

// `Q;S;k;g;d`
pub(super) fn issue(
    spot: Spot,
    years: usize,
    sum: Part<'_>,
    term: Part<'_>,
    paying_years: Part<'_>,
    deposit: Part<'_>,
) -> Result<Command, Fault>
    requires { StandFrom (further spot 2) (sum ∷ term ∷ paying_years ∷ deposit ∷ []) }
    ensures { Makes years 81 spot (sum.entry ∷ term.entry ∷ paying_years.entry ∷ deposit.entry ∷ []) result }
{
    let (s, k, g, d) = (
        sum.number()?,
        term.number()?,
        paying_years.number()?,
        deposit.number()?,
    );
    let plan = plan(years, sum, term, paying_years, (s, k, g))?;
    let deposit = deposit.within(d, 0, LIMIT as usize)? as i64;
    Ok(Command::Issue { plan, deposit })
}

// `C;j;r`
pub(super) fn close(spot: Spot, state: Part<'_>, rate: Part<'_>) -> Result<Command, Fault>
    requires { StandFrom (further spot 2) (state ∷ rate ∷ []) }
    ensures { (years : ℕ) → Makes years 67 spot (state.entry ∷ rate.entry ∷ []) result }
{
    let (j, rate) = (state.number()?, rate.signed()?);
    let state = state.within(j, 0, MOST_STATES - 1)?;
    Ok(Command::Close { state, rate })
}

// `A;S;k;g`
pub(super) fn alter(
    spot: Spot,
    years: usize,
    sum: Part<'_>,
    term: Part<'_>,
    paying_years: Part<'_>,
) -> Result<Command, Fault>
    requires { StandFrom (further spot 2) (sum ∷ term ∷ paying_years ∷ []) }
    ensures { Makes years 65 spot (sum.entry ∷ term.entry ∷ paying_years.entry ∷ []) result }
{
    let numbers = (sum.number()?, term.number()?, paying_years.number()?);
    let plan = plan(years, sum, term, paying_years, numbers)?;
    Ok(Command::Alter { plan })
}
