// The moves of a year.
ghost use Rattle.std.specs.Prelude.{[], ◌∷◌};
ghost use Rattle.sheet.specs.Checks.{move_line};
ghost use Rattle.sheet.specs.Fields.{StandFrom};
ghost use Rattle.sheet.specs.Lines.{further};
ghost use Rattle.sheet.specs.Readers.{held, Takes};

use super::Reader;
use crate::part::Part;
use crate::spot::Spot;
use units::MILLION;
use units::fault::Fault;
use units::rule::Rule;

impl Reader {
    // `T;t;i;j;p`
    pub(super) fn take_move(
        &mut self,
        spot: Spot,
        year: Part<'_>,
        from: Part<'_>,
        to: Part<'_>,
        share: Part<'_>,
    ) -> Result<(), Fault>
        requires { StandFrom (further spot 2) (year ∷ from ∷ to ∷ share ∷ []) }
        ensures { Takes (move_line (held self.old) spot) spot (year.entry ∷ from.entry ∷ to.entry ∷ share.entry ∷ []) (held self.new) result }
    {
        if self.come == 0 {
            return Err(spot.fault(Rule::Form));
        }
        let (t, i, j, p) = (
            year.number()?,
            from.number()?,
            to.number()?,
            share.number()?,
        );
        let t = year.within(t, 0, self.years - 1)?;
        let i = from.within(i, 0, self.states - 1)?;
        let j = to.within(j, 0, self.states - 1)?;
        let p = share.within(p, 1, MILLION as usize)?;
        if t + 1 != self.come {
            return Err(spot.fault(Rule::Order));
        }
        let place = (t * self.states + i) * self.states + j;
        if place < self.next {
            return Err(spot.fault(Rule::Order));
        }
        self.shares[place] = p as u32;
        self.next = place + 1;
        Ok(())
    }
}
