// Alterations: priced against the old reserve.
use super::{alters, closes, fault, issued, stands, two_years, worked};
use plan::endowment::Endowment;
use std::test::Fail;

// After a year, alive, the reserve is 447,513. A plan over both years is worth nine tenths of its
// sum less the premium.
#[test]
fn takes_the_least_premium_that_the_old_reserve_covers(rt: HostRuntime) -> Result<(), Fail> {
    let table = two_years(&rt)?;
    // sum, term, paying years; premium, result, reserve then
    let cases = [
        ((1_000_000, 2, 2), 452_487, 0, 447_513),
        ((2_000_000, 2, 2), 1_352_487, 0, 447_513),
        ((400_000, 2, 2), 0, 87_513, 360_000),
        ((400_000, 2, 0), 0, 87_513, 360_000),
        ((497_236, 2, 0), 0, 1, 447_512),
        ((497_237, 2, 0), 0, 0, 447_513),
        ((447_513, 1, 1), 0, 0, 447_513),
    ];
    for (terms, premium, result, reserve) in cases {
        let mut contract = worked(&table)?;
        closes(&rt, &mut contract, 0, 0, Ok((1, -50_276, 55_249)));
        alters(&rt, &mut contract, terms, Ok((2, premium, result)))?;
        stands(&rt, &contract, reserve);
    }
    Ok(())
}

#[test]
fn keeps_the_old_plan_where_no_premium_will_do(rt: HostRuntime) -> Result<(), Fail> {
    let table = two_years(&rt)?;
    let mut contract = worked(&table)?;
    closes(&rt, &mut contract, 0, 0, Ok((1, -50_276, 55_249)));
    let span = contract.span();
    // sum, term, paying years
    for terms in [(1_000_000, 2, 0), (497_238, 2, 0), (447_514, 1, 1)] {
        alters(&rt, &mut contract, terms, Err(fault(20, 1, 0)))?;
        assert_eq!(rt; (contract.reserve(), contract.span()), (447_513, span));
    }
    closes(&rt, &mut contract, 1, -10_000, Ok((2, -109_000, 0)));
    Ok(())
}

// The deposit of 819,005 is above the reserve of 819,000. The new plan, at 819,002, would be
// covered by the one and not by the other.
#[test]
fn asks_the_reserve_and_not_the_deposit(rt: HostRuntime) -> Result<(), Fail> {
    let table = two_years(&rt)?;
    let mut contract = issued(&table, Endowment::new(1_000_000, 2, 0)?, 0, 819_005)?;
    stands(&rt, &contract, 819_000);
    alters(&rt, &mut contract, (1_000_002, 2, 0), Err(fault(20, 0, 0)))
}

#[test]
fn goes_on_at_the_new_premium(rt: HostRuntime) -> Result<(), Fail> {
    let table = two_years(&rt)?;
    let mut contract = worked(&table)?;
    alters(&rt, &mut contract, (2_000_000, 2, 2), Ok((1, 904_973, 0)))?;
    closes(&rt, &mut contract, 0, 0, Ok((2, -100_552, 110_497)));
    stands(&rt, &contract, 895_027);
    closes(&rt, &mut contract, 0, 10_000, Ok((3, -182_000, 0)));
    stands(&rt, &contract, 2_000_000);
    Ok(())
}
