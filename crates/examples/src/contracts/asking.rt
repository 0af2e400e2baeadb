// Questions, which change nothing.
use super::{closes, fault, two_years, worked};
use std::test::Fail;
use valuation::mean::Mean;
use valuation::span::ends::Ends;
use valuation::span::valuation::Span;

#[test]
fn answers_in_every_year(rt: HostRuntime) -> Result<(), Fail> {
    let table = two_years(&rt)?;
    let mut contract = worked(&table)?;
    // reserve, least, greatest, year by year
    let cases = [
        (-1, -49_725, 447_513),
        (447_513, 447_513, 447_513),
        (1_000_000, 1_000_000, 1_000_000),
    ];
    for (reserve, least, greatest) in cases {
        let span = Ends { least, greatest };
        assert_eq!(rt; contract.reserve(), reserve);
        assert_eq!(rt; contract.figure(&Mean), reserve);
        assert_eq!(rt; contract.span(), span);
        assert_eq!(rt; contract.figure(&Span), span);
        let _closed = contract.close(0, 0);
    }
    Ok(())
}

#[test]
fn writes_the_course_from_its_year(rt: HostRuntime) -> Result<(), Fail> {
    let table = two_years(&rt)?;
    let mut contract = worked(&table)?;
    // how long a column it takes, and what comes of sevens
    let cases = [
        (6, [-1, 0, 447_513, 0, 1_000_000, 0, 7, 7]),
        (4, [447_513, 0, 1_000_000, 0, 7, 7, 7, 7]),
        (2, [1_000_000, 0, 7, 7, 7, 7, 7, 7]),
    ];
    for (length, expected) in cases {
        let mut column = [7; 8];
        assert_eq!(rt; contract.course(&mut column), Ok(()));
        assert_eq!(rt; column, expected);
        let mut exact = [7; 8];
        assert_eq!(rt; contract.course(&mut exact[..length]), Ok(()));
        assert_eq!(rt; exact, expected);
        let _closed = contract.close(0, 0);
    }
    Ok(())
}

#[test]
fn leaves_a_short_column_as_it_was(rt: HostRuntime) -> Result<(), Fail> {
    let table = two_years(&rt)?;
    let mut contract = worked(&table)?;
    // year, state, how long a column it takes, the state at the end of the year
    for (year, state, length, end) in [(0, 0, 6, 0), (1, 0, 4, 1), (2, 1, 2, 1)] {
        for short in [0, 1, length - 1] {
            let mut column = [7; 8];
            let refusal = contract.course(&mut column[..short]);
            assert_eq!(rt; refusal, Err(fault(22, year, state)), "{year} {short}");
            assert_eq!(rt; column, [7; 8], "{year} {short}");
        }
        let _closed = contract.close(end, 0);
    }
    Ok(())
}

// Questions and refusals bear no number.
#[test]
fn counts_no_question(rt: HostRuntime) -> Result<(), Fail> {
    let table = two_years(&rt)?;
    let mut contract = worked(&table)?;
    let _reserve = contract.reserve();
    let _span = contract.span();
    assert!(rt; contract.course(&mut []).is_err());
    assert!(rt; contract.close(2, 0).is_err());
    closes(&rt, &mut contract, 0, 120_000, Ok((1, 4_022, 55_249)));
    Ok(())
}
