// The mean: figures are ticks, and a join is the mean of what follows.
ghost use Rattle.std.specs.Prelude.{◌≡◌, ◌≤◌, pos, ◌+ℤ◌, ◌*ℤ◌, ◌↔◌, IsTrue};
ghost use Rattle.std.specs.Int.{saturate_to_bits};
ghost use Rattle.std.specs.List.{AllByRecursion};
ghost use Rattle.units.specs.Ranges.{million};
ghost use Rattle.valuation.specs.Means.{rounded_mean, rounded_discount, mean, mean_ends};
ghost use Rattle.valuation.specs.Means.{LawfulFigure, LawfulRow, products};
ghost use Rattle.valuation.specs.Orders.{mean_told_by_ends, mean_ordered};
ghost use Rattle.std.proofs.Common.{rules};

mod year;

use crate::Valuation;
use crate::year::ExactYear;
use basis::Basis;
use plan::Plan;
use units::MILLION;
use units::premium::Premium;
use units::rounding::nearest;

#[derive(Clone, Copy)]
pub struct Mean;

// A figure that is no larger fits 64 bits a million times over.
const FITTING: i64 = 5_000_000_000_000;

fn is_fitting(figure: i64) -> bool
    ensures { IsTrue result ↔ LawfulFigure figure }
{
    -FITTING <= figure && figure <= FITTING
}

// So many parts of a million of a figure, in millionths of a tick.
fn parts_of(share: u32, figure: i64) -> i64
    ensures { result ≡ saturate_to_bits 63 (pos share *ℤ figure) }
{
    // Most products fit at once, and to test the ranges takes less time than to test the product.
    if share <= MILLION && is_fitting(figure) {
        i64::from(share) * figure
    } else {
        i64::from(share).saturating_mul(figure)
    }
}

// How a mean, in millionths of a tick, is rounded.
fn round_mean(sum: i64) -> i64
    ensures { result ≡ rounded_mean sum }
{
    nearest(sum)
}

// How a discounted amount, in millionths of a tick, is rounded: by a name of its own, so that
// either rounding can change alone.
fn round_discount(product: i64) -> i64
    ensures { result ≡ rounded_discount product }
{
    nearest(product)
}

// Sums and products saturate: beyond the range of lawful figures that keeps order and never
// overflows.
impl Valuation for Mean {
    type Figure = i64;

    ghost operations = { λ _. mean };

    ghost ends = { mean_ends };

    ghost told_by_ends = { mean_told_by_ends };

    ghost ordered = { λ s. mean_ordered };

    ghost fits = { Prim.search rules };

    fn make(&self, amount: i64) -> i64 {
        amount
    }

    fn add(&self, figure: i64, amount: i64) -> i64
        ensures meaning { result ≡ mean.add figure amount }
        ensures formula { LawfulFigure figure → LawfulFigure amount → result ≡ figure +ℤ amount }
    {
        // As for products, the ranges are soon tested.
        if is_fitting(figure) && is_fitting(amount) {
            figure + amount
        } else {
            figure.saturating_add(amount)
        }
    }

    fn join(&self, _state: usize, row: &[u32], following: &[i64]) -> i64
        ensures meaning { result ≡ mean.join _state row.now following.now }
        ensures formula { LawfulRow row.now → AllByRecursion LawfulFigure following.now →
            result ≡ rounded_mean (products row.now following.now) }
    {
        let mut sum = 0i64;
        for (share, figure) in row.iter().zip(following.iter()) {
            sum = sum.saturating_add(parts_of(*share, *figure));
        }
        round_mean(sum)
    }

    // Where it can be told that nothing saturates, as in every sweep.
    fn fill_at_once<B: Basis, P: Plan>(
        &self,
        basis: &B,
        plan: &P,
        premium: Premium,
        year: usize,
        after: &[i64],
        figures: &mut [i64],
    ) -> bool {
        match ExactYear::new(basis, plan, premium, year, after) {
            Some(exact) => {
                exact.fill(figures);
                true
            }
            None => false,
        }
    }

    #[tactic(auto, using(crate::proofs::Agreement::discount_is))]
    fn discount(&self, factor: u32, figure: i64) -> i64
        ensures meaning { result ≡ mean.discount factor figure }
        ensures formula { factor ≤ million → LawfulFigure figure →
            result ≡ rounded_discount (pos factor *ℤ figure) }
    {
        round_discount(parts_of(factor, figure))
    }
}
