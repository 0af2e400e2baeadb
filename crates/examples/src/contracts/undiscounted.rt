// A valuation of a caller's own: the mean, with nothing discounted.
ghost use Rattle.std.proofs.Common.{rules};
ghost use Rattle.valuation.specs.Means.{mean, mean_ends};
ghost use Rattle.valuation.specs.Orders.{mean_ordered, mean_told_by_ends};

use super::{issued, two_years, worked};
use plan::endowment::Endowment;
use std::test::Fail;
use valuation::Valuation;
use valuation::mean::Mean;

#[derive(Clone, Copy)]
struct Undiscounted;

impl Valuation for Undiscounted {
    type Figure = i64;

    ghost operations = { λ _. record {
      make = mean.make;
      add = mean.add;
      join = mean.join;
      discount = λ factor x. x;
    } };

    ghost ends = { mean_ends };

    ghost told_by_ends = { mean_told_by_ends };

    ghost ordered = { λ s. record {
      make_keeps = mean_ordered.make_keeps;
      add_keeps = mean_ordered.add_keeps;
      join_keeps = mean_ordered.join_keeps;
      discount_keeps = λ factor x y h. h;
    } };

    ghost fits = { Prim.search rules };

    fn make(&self, amount: i64) -> i64 {
        Mean.make(amount)
    }

    fn add(&self, figure: i64, amount: i64) -> i64 {
        Mean.add(figure, amount)
    }

    fn join(&self, state: usize, row: &[u32], following: &[i64]) -> i64 {
        Mean.join(state, row, following)
    }

    fn discount(&self, _factor: u32, figure: i64) -> i64 {
        figure
    }
}

#[test]
fn is_valued_as_the_caller_likes(rt: HostRuntime) -> Result<(), Fail> {
    let table = two_years(&rt)?;
    let mut contract = worked(&table)?;
    // a million in the end, whatever comes, less the premium of a year and nine tenths of that of
    // the next
    for figure in [140_275, 547_513, 1_000_000] {
        assert_eq!(rt; contract.figure(&Undiscounted), figure);
        let _closed = contract.close(0, 0);
    }
    let dead = issued(&table, Endowment::new(1_000_000, 2, 2)?, 1, 0)?;
    assert_eq!(rt; dead.figure(&Undiscounted), 0);
    Ok(())
}
