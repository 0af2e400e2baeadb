// The lines that begin a sheet and its years.
ghost use Rattle.std.specs.Prelude.{[], ◌∷◌};
ghost use Rattle.sheet.specs.Checks.{basis_line, year_line};
ghost use Rattle.sheet.specs.Fields.{StandFrom};
ghost use Rattle.sheet.specs.Lines.{further};
ghost use Rattle.sheet.specs.Readers.{held, Takes};

use super::Reader;
use crate::columns::Columns;
use crate::part::Part;
use crate::spot::Spot;
use units::fault::Fault;
use units::rule::Rule;
use units::{MILLION, MOST_STATES, MOST_YEARS};

impl Reader {
    // `B;m;n`
    pub(super) fn take_basis(
        &mut self,
        spot: Spot,
        states: Part<'_>,
        years: Part<'_>,
        columns: Columns,
    ) -> Result<(), Fault>
        requires { StandFrom (further spot 2) (states ∷ years ∷ []) }
        ensures { Takes (basis_line columns (held self.old) spot) spot (states.entry ∷ years.entry ∷ []) (held self.new) result }
    {
        if self.years != 0 {
            return Err(spot.fault(Rule::Form));
        }
        let (m, n) = (states.number()?, years.number()?);
        let m = states.within(m, 2, MOST_STATES)?;
        let n = years.within(n, 1, MOST_YEARS)?;
        if n > columns.factors || n * m * m > columns.shares {
            return Err(spot.fault(Rule::Room));
        }
        self.states = m;
        self.years = n;
        Ok(())
    }

    // `D;t;v`
    pub(super) fn take_year(
        &mut self,
        spot: Spot,
        year: Part<'_>,
        factor: Part<'_>,
    ) -> Result<(), Fault>
        requires { StandFrom (further spot 2) (year ∷ factor ∷ []) }
        ensures { Takes (year_line (held self.old) spot) spot (year.entry ∷ factor.entry ∷ []) (held self.new) result }
    {
        if self.come >= self.years {
            return Err(spot.fault(Rule::Form));
        }
        let (t, v) = (year.number()?, factor.number()?);
        let t = year.within(t, 0, self.years - 1)?;
        let v = factor.within(v, 1, MILLION as usize)?;
        if t != self.come {
            return Err(spot.fault(Rule::Order));
        }
        self.check_rows(spot)?;
        self.factors[t] = v as u32;
        self.come += 1;
        Ok(())
    }
}
