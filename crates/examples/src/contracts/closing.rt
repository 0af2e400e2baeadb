// Closings: the results on interest and on risk, and the refusals in their order.
use super::{alters, closes, refuses, stands, two_years, worked};
use std::test::Fail;

// In year 0, W is 452,486 and E 502,762. A quarter of W ends in a half, which goes upwards below
// nought too.
#[test]
fn posts_the_results_of_a_year(rt: HostRuntime) -> Result<(), Fail> {
    let table = two_years(&rt)?;
    // end state, rate; results on interest and on risk, reserve then
    let cases = [
        (0, 120_000, 4_022, 55_249, 447_513),
        (0, 0, -50_276, 55_249, 447_513),
        (0, 500_000, 175_967, 55_249, 447_513),
        (0, -500_000, -276_519, 55_249, 447_513),
        (0, 250_000, 62_846, 55_249, 447_513),
        (0, -250_000, -163_397, 55_249, 447_513),
        (1, 120_000, 4_022, -497_238, 0),
        (1, -250_000, -163_397, -497_238, 0),
    ];
    for (end, rate, interest, risk, reserve) in cases {
        let mut contract = worked(&table)?;
        closes(&rt, &mut contract, end, rate, Ok((1, interest, risk)));
        stands(&rt, &contract, reserve);
    }
    Ok(())
}

// A refused closing gets the lowest number that stands against it, and changes nothing: the next
// one is number 1 in the same year.
#[test]
fn refuses_the_alive_in_order(rt: HostRuntime) -> Result<(), Fail> {
    let table = two_years(&rt)?;
    let mut contract = worked(&table)?;
    stands(&rt, &contract, -1);
    // end state, rate, number
    let cases = [
        (2, 0, 17),
        (usize::MAX, 0, 17),
        (2, 500_001, 17),
        (0, 500_001, 18),
        (0, -500_001, 18),
        (1, i64::MAX, 18),
        (1, i64::MIN, 18),
    ];
    refuses(&rt, &mut contract, 0, 0, &cases);
    closes(&rt, &mut contract, 0, 120_000, Ok((1, 4_022, 55_249)));
    Ok(())
}

// The dead stay dead: from them a move to the living has no share. At last no year is left.
#[test]
fn refuses_the_dead_in_order(rt: HostRuntime) -> Result<(), Fail> {
    let table = two_years(&rt)?;
    let mut contract = worked(&table)?;
    closes(&rt, &mut contract, 1, 0, Ok((1, -50_276, -497_238)));
    stands(&rt, &contract, 0);
    // end state, rate, number
    let cases = [
        (0, 0, 19),
        (0, 500_001, 18),
        (0, 500_000, 19),
        (2, 500_001, 17),
    ];
    refuses(&rt, &mut contract, 1, 1, &cases);
    closes(&rt, &mut contract, 1, 500_000, Ok((2, 0, 0)));
    let cases = [(1, 0, 16), (0, 0, 16), (0, 500_001, 16), (2, 500_001, 16)];
    refuses(&rt, &mut contract, 2, 1, &cases);
    alters(&rt, &mut contract, (1, 1, 0), Ok((3, 0, 0)))
}
