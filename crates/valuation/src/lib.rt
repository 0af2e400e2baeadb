// Valuations: what a contract is worth in each state and year, by one backward sweep over a basis
// and a plan.
#![tactic(auto)]

ghost use Rattle.std.specs.Prelude.{◌≡◌, ◌*◌, ◌^◌, ◌<◌, IsFalse, IsTrue, List, length, ℤ};
ghost use Rattle.std.specs.Mem.{type_size};
ghost use Rattle.valuation.specs.Figures.{figures_from};
ghost use Rattle.valuation.specs.Operations.{Operations, AreEnds, Ordered};

pub mod closing;
pub mod course;
pub mod figure;
mod fill;
mod flow;
pub mod mean;
pub mod pricing;
pub mod reserve;
mod rooms;
mod rounding;
pub mod span;
mod sweep;
mod within;
mod year;

use basis::Basis;
use plan::Plan;
use units::premium::Premium;

// How the sweep reckons with figures of one kind. Each call has an answer for all arguments,
// and raising the amount or a figure that it is given never lowers that answer.
pub trait Valuation {
    type Figure: Copy;

    ghost operations: { Self → Operations Self.Figure };

    // The ends of a figure, which alone order figures.
    ghost ends: { Self.Figure → List ℤ };

    // The figure of an amount.
    fn make(&self, amount: i64) -> Self::Figure
        ensures { result ≡ (operations self.now).make amount };

    fn add(&self, figure: Self::Figure, amount: i64) -> Self::Figure
        ensures { result ≡ (operations self.now).add figure amount };

    // What the figures that follow the moves out of a state come to, on the row of their shares.
    fn join(&self, state: usize, row: &[u32], following: &[Self::Figure]) -> Self::Figure
        ensures { result ≡ (operations self.now).join state row.now following.now };

    fn discount(&self, factor: u32, figure: Self::Figure) -> Self::Figure
        ensures { result ≡ (operations self.now).discount factor figure };

    // Fills in the figures of the first states in a year, as many as there are places for, from
    // those of all states a year later, and answers whether it has: a valuation that can do so
    // faster than state by state may write its own, and test just once what it has to know of the
    // figures `after`.
    fn fill_at_once<B: Basis, P: Plan>(
        &self,
        _basis: &B,
        _plan: &P,
        _premium: Premium,
        _year: usize,
        _after: &[Self::Figure],
        _figures: &mut [Self::Figure],
    ) -> bool
        ensures filled { IsTrue result → _figures.new ≡ figures_from (operations self.now)
            (B.meaning _basis.now) (P.payments _plan.now) _premium.ticks _year _after.now
            (length _figures.old) }
        ensures left { IsFalse result → _figures.new ≡ _figures.old }
    {
        false
    }

    ghost told_by_ends: { AreEnds ends };

    ghost ordered: { (s : Self) → Ordered ends (operations s) };

    // As many figures as a basis can have states fit in memory.
    ghost fits: { 8 * type_size Self.Figure.row < 2 ^ 63 };
}
