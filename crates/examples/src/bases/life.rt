// A life table at the edges of its rules, and an age shift over it.
use super::{answers, refused};
use basis::life::LifeTable;
use basis::shift::AgeShift;
use std::test::Fail;

#[test]
fn takes_in_what_is_fit(rt: HostRuntime) -> Result<(), Fail> {
    let mut table = LifeTable::new(rt.alloc())?;
    // deaths, factor; number and year of the fault
    let unfit: [(&[i64], i64, u8, usize); 6] = [
        (&[], 1, 9, 0),
        (&[0; 121], 0, 9, 0),
        (&[0, -1], 0, 10, 0),
        (&[0], 1_000_001, 10, 0),
        (&[0, 1_000_000, -1, 2_000_000], 1, 11, 2),
        (&[1_000_001], 1_000_000, 11, 0),
    ];
    for (deaths, factor, number, year) in unfit {
        assert_eq!(rt; table.take_in(deaths, factor), refused(number, year, 0));
    }
    let fit: [(&[i64], i64); 2] = [(&[1_000_000, 0], 1), (&[0; 120], 1_000_000)];
    for (deaths, factor) in fit {
        assert_eq!(rt; table.take_in(deaths, factor), Ok(()));
    }
    Ok(())
}

#[test]
fn stays_as_it_was_when_it_refuses(rt: HostRuntime) -> Result<(), Fail> {
    let mut table = LifeTable::new(rt.alloc())?;
    answers(
        &rt,
        &table,
        (2, 1),
        &[(0, 1_000_000)],
        &[(0, 0, 0, 1_000_000), (1, 1, 0, 1_000_000)],
    );
    table.take_in(&[70, 80], 900_000)?;
    assert!(rt; table.take_in(&[5, -5], 800_000).is_err());
    answers(&rt, &table, (2, 2), &[(1, 900_000)], &[(0, 1, 1, 80)]);
    Ok(())
}

#[test]
fn never_reads_past_the_last_year(rt: HostRuntime) -> Result<(), Fail> {
    let mut table = LifeTable::new(rt.alloc())?;
    table.take_in(&[2_500; 120], 975_610)?;
    let shares = [
        (0, 1, 119, 2_500),
        (0, 0, 119, 997_500),
        (0, 1, 120, 0),
        (0, 0, 120, 0),
        (1, 1, 120, 0),
        (1, 0, 5, 0),
        (2, 2, 5, 0),
        (0, 2, 5, 0),
    ];
    let factors = [(119, 975_610), (120, 1_000_000)];
    answers(&rt, &table, (2, 120), &factors, &shares);
    Ok(())
}

#[test]
fn shifts_by_years_and_leaves_one(rt: HostRuntime) -> Result<(), Fail> {
    let mut table = LifeTable::new(rt.alloc())?;
    table.take_in(&[10, 20, 30, 40], 900_000)?;
    let mut shift = AgeShift::new(table, 1);
    let factors = [(2, 900_000), (3, 1_000_000)];
    let shares = [(0, 1, 0, 20), (0, 1, 2, 40), (0, 1, 3, 0)];
    answers(&rt, &shift, (2, 3), &factors, &shares);
    shift.shift_to(9);
    answers(&rt, &shift, (2, 1), &[], &[(0, 1, 0, 40), (0, 1, 1, 0)]);
    Ok(())
}
