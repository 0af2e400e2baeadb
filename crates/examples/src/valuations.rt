// Figures of a case worked by hand: two years, a tenth and a fifth die, a factor of nine tenths,
// an endowment of 1,000,000 ticks over both years with the premium due in both.
use basis::life::LifeTable;
use plan::endowment::Endowment;
use std::test::Fail;
use units::fault::{Fault, Layer};
use units::premium::Premium;
use valuation::Valuation;
use valuation::closing::{Move, closing_values};
use valuation::course::course;
use valuation::figure::figure;
use valuation::mean::Mean;
use valuation::pricing::{least_premium, price};
use valuation::reserve::reserve;
use valuation::span::ends::Ends;
use valuation::span::span;
use valuation::span::valuation::Span;

fn table_of(rt: &HostRuntime) -> Result<LifeTable, Fail> {
    let mut table = LifeTable::new(rt.alloc())?;
    table.take_in(&[100_000, 200_000], 900_000)?;
    Ok(table)
}

#[test]
fn reserves_of_the_worked_case(rt: HostRuntime) -> Result<(), Fail> {
    let table = table_of(&rt)?;
    let plan = Endowment::new(1_000_000, 2, 2)?;
    // premium, state, year, reserve
    let cases = [
        (452_486, 0, 0, 1),
        (452_487, 0, 0, -1),
        (452_487, 0, 1, 447_513),
        (452_487, 0, 2, 1_000_000),
        (452_487, 0, 3, 0),
        (452_487, 1, 0, 0),
        (452_487, 1, 1, 0),
        (452_487, 5, 0, 0),
        (0, 0, 1, 900_000),
        (0, 0, 0, 819_000),
    ];
    for (ticks, state, year, expected) in cases {
        let premium = Premium::try_from(ticks)?;
        assert_eq!(rt; reserve(&table, &plan, premium, state, year), expected);
        assert_eq!(rt;
            figure(&Mean, &table, &plan, premium, state, year),
            expected
        );
    }
    Ok(())
}

#[test]
fn spans_of_the_worked_case(rt: HostRuntime) -> Result<(), Fail> {
    let table = table_of(&rt)?;
    let plan = Endowment::new(1_000_000, 2, 2)?;
    // premium, state, year, least, greatest
    let cases = [
        (452_487, 0, 0, -49_725, 447_513),
        (452_487, 0, 1, 447_513, 447_513),
        (452_487, 0, 2, 1_000_000, 1_000_000),
        (452_487, 1, 0, 0, 0),
        (452_487, 1, 2, 0, 0),
        (452_487, 5, 0, 0, 0),
        (0, 0, 0, 810_000, 900_000),
    ];
    for (ticks, state, year, least, greatest) in cases {
        let premium = Premium::try_from(ticks)?;
        let expected = Ends { least, greatest };
        assert_eq!(rt; span(&table, &plan, premium, state, year), expected);
        assert_eq!(rt;
            figure(&Span, &table, &plan, premium, state, year),
            expected
        );
    }
    Ok(())
}

#[test]
fn courses_of_the_worked_case(rt: HostRuntime) -> Result<(), Fail> {
    let table = table_of(&rt)?;
    let plan = Endowment::new(1_000_000, 2, 2)?;
    let premium = Premium::try_from(452_487)?;
    // from year, the column before as sevens; what has come of it
    let cases = [
        (0, [-1, 0, 447_513, 0, 1_000_000, 0, 7, 7]),
        (1, [447_513, 0, 1_000_000, 0, 7, 7, 7, 7]),
        (2, [1_000_000, 0, 7, 7, 7, 7, 7, 7]),
        (3, [7; 8]),
        (usize::MAX, [7; 8]),
    ];
    for (year, expected) in cases {
        let mut column = [7; 8];
        assert!(rt; course(&table, &plan, premium, year, &mut column).is_ok());
        assert_eq!(rt; column, expected);
    }
    Ok(())
}

#[test]
fn columns_that_are_too_short_stay_as_they_were(rt: HostRuntime) -> Result<(), Fail> {
    let table = table_of(&rt)?;
    let plan = Endowment::new(1_000_000, 2, 2)?;
    // from year, how long a column it takes
    let cases = [(0, 6), (1, 4), (2, 2)];
    for (year, length) in cases {
        let mut column = [7; 8];
        let refusal = course(
            &table,
            &plan,
            Premium::zero(),
            year,
            &mut column[..length - 1],
        );
        let fault = Fault::at_entry(22, Layer::Contract, year, 0);
        assert_eq!(rt; refusal, Err(fault));
        assert_eq!(rt; column, [7; 8]);
        assert!(rt; course(&table, &plan, Premium::zero(), year, &mut column[..length]).is_ok());
    }
    Ok(())
}

#[test]
fn premiums_of_the_worked_case(rt: HostRuntime) -> Result<(), Fail> {
    let table = table_of(&rt)?;
    let plan = Endowment::new(1_000_000, 2, 2)?;
    // state, year, bound, least premium
    let cases = [
        (0, 0, 0, 452_487),
        (0, 0, 1, 452_486),
        (0, 0, 819_000, 0),
        (0, 1, 0, 900_000),
        (0, 1, 900_000, 0),
        (0, 1, 899_999, 1),
        (1, 0, 0, 0),
        (0, 2, 1_000_000, 0),
        (0, 1, -9_999_100_000, 10_000_000_000),
    ];
    for (state, year, bound, ticks) in cases {
        let premium = least_premium(&table, &plan, state, year, bound)?;
        assert_eq!(rt; premium.ticks(), ticks);
    }
    Ok(())
}

#[test]
fn prices_tell_the_reserve(rt: HostRuntime) -> Result<(), Fail> {
    let table = table_of(&rt)?;
    let plan = Endowment::new(1_000_000, 2, 2)?;
    // bound, premium, reserve
    for (bound, ticks, reserve) in [(0, 452_487, -1), (1, 452_486, 1)] {
        let priced = price(&table, &plan, 0, 0, bound)?;
        assert_eq!(rt; (priced.premium.ticks(), priced.reserve), (ticks, reserve));
    }
    Ok(())
}

#[test]
fn years_are_filled_at_once_or_left(rt: HostRuntime) -> Result<(), Fail> {
    let table = table_of(&rt)?;
    let plan = Endowment::new(1_000_000, 2, 2)?;
    let premium = Premium::try_from(452_487)?;
    // year, the reserves after it, and those of the year where it is filled
    let cases = [
        (0, [447_513, 0], Some([-1, 0])),
        (1, [1_000_000, 0], Some([447_513, 0])),
        (2, [1_000_000, 0], None),
        (0, [i64::MAX, 0], None),
        (0, [0, i64::MIN], None),
    ];
    for (year, after, filled) in cases {
        let mut figures = [7, 7];
        let at_once = Mean.fill_at_once(&table, &plan, premium, year, &after, &mut figures);
        assert_eq!(rt;
            (at_once, figures),
            (filled.is_some(), filled.unwrap_or([7, 7]))
        );
    }
    Ok(())
}

#[test]
fn no_premium_will_do(rt: HostRuntime) -> Result<(), Fail> {
    let table = table_of(&rt)?;
    // paying years, state, year, bound
    let cases = [
        (0, 0, 0, 818_999),
        (2, 0, 2, 999_999),
        (2, 1, 0, -1),
        (2, 0, 1, -9_999_100_001),
        (2, 0, 0, i64::MIN),
    ];
    for (paying, state, year, bound) in cases {
        let plan = Endowment::new(1_000_000, 2, paying)?;
        let fault = Fault::at_entry(20, Layer::Contract, year, state);
        let refusal = least_premium(&table, &plan, state, year, bound);
        assert_eq!(rt; refusal, Err(fault));
    }
    Ok(())
}

#[test]
fn closing_values_of_the_worked_case(rt: HostRuntime) -> Result<(), Fail> {
    let table = table_of(&rt)?;
    let plan = Endowment::new(1_000_000, 2, 2)?;
    let premium = Premium::try_from(452_487)?;
    // from, to, year; the discounted join and the join, and the reserve after the move
    let cases = [
        (0, 0, 0, Some(((452_486, 502_762), 447_513))),
        (0, 1, 0, Some(((452_486, 502_762), 0))),
        (0, 0, 1, Some(((900_000, 1_000_000), 1_000_000))),
        (0, 1, 1, Some(((900_000, 1_000_000), 0))),
        (1, 1, 1, Some(((0, 0), 0))),
        (1, 0, 0, None),
        (0, 2, 0, None),
        (0, 0, 2, None),
    ];
    for (from, to, year, expected) in cases {
        let values = match Move::new(&table, from, to, year) {
            Some(step) => Some(closing_values(&step, &plan, premium)),
            None => None,
        };
        assert_eq!(rt; values, expected);
    }
    Ok(())
}
