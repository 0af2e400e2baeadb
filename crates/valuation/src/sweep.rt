// The backward sweep, for every kind of figure. It allocates nothing: figures stand in arrays on
// the stack, as long as any basis wants, which a valuation's law says to fit in memory. A slice to
// fill is handed on at once, so that its length stays a clause.
ghost use Rattle.std.specs.Prelude.{◌≡◌, ◌+◌, ◌-◌, ◌*◌, ◌<◌, ◌≤◌, ◌++◌, take, drop, length};
ghost use Rattle.basis.specs.Transitions.{Lawful};
ghost use Rattle.plan.specs.Payments.{InRange};
ghost use Rattle.valuation.specs.OrderFacts.{Ordered-prop};
ghost use Rattle.valuation.specs.Operations.{Ordered};

use crate::Valuation;
use crate::fill::fill_each;
use crate::flow::flow_of;
use basis::Basis;
use plan::Plan;
use units::MOST_STATES;
use units::premium::Premium;

// What is swept: a plan at a premium, on a basis, in a valuation. Its type has the laws of these.
#[derive(Drop)]
pub(crate) struct Sweep<'a, V: Valuation, B: Basis, P: Plan> {
    pub(crate) valuation: &'a V,
    pub(crate) basis: &'a B,
    pub(crate) plan: &'a P,
    pub(crate) premium: Premium,
    ghost ordered: { Ordered V.ends (V.operations valuation.now) } by { Ordered-prop _ _ },
    ghost lawful: { Lawful (B.meaning basis.now) },
    ghost in_range: { InRange (P.payments plan.now) },
}

impl<'a, V: Valuation, B: Basis, P: Plan> Sweep<'a, V, B, P> {
    ghost use Rattle.valuation.specs.Sweeps.{states_of, years_of, figure_at, figures_in};
    ghost use Rattle.valuation.specs.Sweeps.{joined_at, discounted_at, rows_from_year};
    ghost use Rattle.valuation.specs.Sweeps.{following_after, joined_after, discounted_after};
    ghost use Rattle.valuation.specs.Sweeps.{figure_after, figures_after};

    // What follows a move in a year: what is paid for it, with the figure of the state entered,
    // where `after` has the figures of all states a year later.
    fn following(&self, state: usize, to: usize, year: usize, after: &[V::Figure]) -> V::Figure
        ensures { result ≡ following_after self.now state year after.now to }
    {
        let figure = after.get(to).copied().unwrap_or(self.valuation.make(0));
        let benefit = self.plan.move_benefit(state, to, year) as i64;
        self.valuation.add(figure, benefit)
    }

    // The join of what follows a state in a year.
    fn joined(&self, state: usize, year: usize, after: &[V::Figure]) -> V::Figure
        ensures { result ≡ joined_after self.now state year after.now }
    {
        let mut shares = [0u32; MOST_STATES];
        let mut follows = [self.valuation.make(0); MOST_STATES];
        let row = self.basis.row(state, year, &mut shares);
        let following = &mut follows[..self.basis.states()];
        fill_each(following, |to| self.following(state, to, year, after));
        self.valuation.join(state, row, following)
    }

    // That join discounted, and as it is.
    fn ahead(&self, state: usize, year: usize, after: &[V::Figure]) -> (V::Figure, V::Figure)
        ensures discounted { result.0 ≡ discounted_after self.now state year after.now }
        ensures joined { result.1 ≡ joined_after self.now state year after.now }
    {
        let joined = self.joined(state, year, after);
        let discounted = self.valuation.discount(self.basis.factor(year), joined);
        (discounted, joined)
    }

    // The figure of a state in a year.
    fn figure_before(&self, state: usize, year: usize, after: &[V::Figure]) -> V::Figure
        ensures { result ≡ figure_after self.now state year after.now }
    {
        let (discounted, _) = self.ahead(state, year, after);
        let flow = flow_of(self.basis, self.plan, self.premium, state, year);
        self.valuation.add(discounted, flow)
    }

    // The figures of the first states in a year, at once or else each by itself.
    fn fill_year(&self, year: usize, after: &[V::Figure], figures: &mut [V::Figure])
        ensures { figures.new ≡ figures_after self.now year after.now (length figures.old) }
    {
        let at_once = self
            .valuation
            .fill_at_once(self.basis, self.plan, self.premium, year, after, figures);
        if !at_once {
            fill_each(figures, |state| self.figure_before(state, year, after));
        }
    }

    // The figures of all states in the year after the last.
    fn last_year(&self, figures: &mut [V::Figure])
        requires { length figures.old ≡ states_of self.now }
        ensures { figures.new ≡ figures_in self.now (years_of self.now) }
    {
        let year = self.basis.years();
        fill_each(figures, |state| {
            let flow = flow_of(self.basis, self.plan, self.premium, state, year);
            self.valuation.make(flow)
        });
    }

    // The figures of all states in a year, backwards from the last year of the basis. Where there
    // is a place for a row of them for that year and each later one, these are kept in `rows`.
    pub(crate) fn back_to(&self, first: usize, rows: &mut [V::Figure]) -> [V::Figure; MOST_STATES]
        requires { first ≤ years_of self.now }
        ensures figures { take (states_of self.now) result ≡ figures_in self.now first }
        ensures rows { length rows.old ≡ (years_of self.now + 1 - first) * states_of self.now →
            rows.new ≡ rows_from_year self.now first }
    {
        let states = self.basis.states();
        let years = self.basis.years();
        let mut figures = [self.valuation.make(0); MOST_STATES];
        self.last_year(&mut figures[..states]);
        keep(&figures[..states], rows, (years - first) * states);
        for year in (first..years).rev() {
            let after = figures;
            self.fill_year(year, &after[..states], &mut figures[..states]);
            keep(&figures[..states], rows, (year - first) * states);
        }
        figures
    }

    // The figure of any state in any year.
    pub(crate) fn figure_at(&self, state: usize, year: usize) -> V::Figure
        ensures { result ≡ figure_at self.now state year }
    {
        if year >= self.basis.years() {
            let flow = flow_of(self.basis, self.plan, self.premium, state, year);
            return self.valuation.make(flow);
        }
        let figures = self.back_to(year + 1, &mut []);
        self.figure_before(state, year, &figures[..self.basis.states()])
    }

    // The pair of a state in a year that the basis has, and the figure of a state a year later.
    pub(crate) fn ahead_of(
        &self,
        state: usize,
        year: usize,
        end: usize,
    ) -> ((V::Figure, V::Figure), V::Figure)
        requires year { year < years_of self.now }
        requires end { end < states_of self.now }
        ensures discounted { result.0.0 ≡ discounted_at self.now state year }
        ensures joined { result.0.1 ≡ joined_at self.now state year }
        ensures later { result.1 ≡ figure_at self.now end (year + 1) }
    {
        let figures = self.back_to(year + 1, &mut []);
        let pair = self.ahead(state, year, &figures[..self.basis.states()]);
        (pair, figures[end])
    }
}

// Puts figures in `rows` from a place on, if they have so many places.
fn keep<F: Copy>(figures: &[F], rows: &mut [F], place: usize)
    ensures kept { place + length figures.now ≤ length rows.old →
        rows.new ≡ take place rows.old ++ figures.now ++
        drop (place + length figures.now) rows.old }
    ensures as_long { length rows.new ≡ length rows.old }
{
    if place <= rows.len() && figures.len() <= rows.len() - place {
        rows[place..place + figures.len()].copy_from_slice(figures);
    }
}
