// A table at the edges of its rules.
use super::{answers, refused};
use basis::Basis;
use basis::shift::AgeShift;
use basis::table::TransitionTable;
use std::test::Fail;

// Three states over two years: active, disabled, dead.
const FACTORS: [i64; 2] = [970_000, 960_000];

const SHARES: [i64; 18] = [
    900_000, 70_000, 30_000, 200_000, 750_000, 50_000, 0, 0, 1_000_000, 880_000, 80_000, 40_000,
    150_000, 790_000, 60_000, 0, 0, 1_000_000,
];

#[test]
fn refuses_unfit_numbers_and_lengths(rt: HostRuntime) -> Result<(), Fail> {
    let mut table = TransitionTable::new(rt.alloc())?;
    let cases: [(usize, usize, &[i64], &[i64]); 10] = [
        (1, 2, &FACTORS, &SHARES),
        (9, 2, &FACTORS, &SHARES),
        (usize::MAX, usize::MAX, &FACTORS, &SHARES),
        (3, 0, &[], &[]),
        (3, 121, &FACTORS, &SHARES),
        (3, 2, &FACTORS[..1], &SHARES),
        (3, 1, &FACTORS, &SHARES[..9]),
        (3, 2, &FACTORS, &SHARES[..17]),
        (3, 1, &FACTORS[..1], &SHARES[..10]),
        (2, 2, &FACTORS, &SHARES),
    ];
    for (states, years, factors, shares) in cases {
        assert_eq!(rt;
            table.take_in(states, years, factors, shares),
            refused(9, 0, 0)
        );
    }
    assert_eq!(rt; table.take_in(3, 2, &FACTORS, &SHARES), Ok(()));
    assert_eq!(rt; table.take_in(3, 1, &FACTORS[..1], &SHARES[..9]), Ok(()));
    Ok(())
}

#[test]
fn refuses_the_first_entry_out_of_range(rt: HostRuntime) -> Result<(), Fail> {
    let mut table = TransitionTable::new(rt.alloc())?;
    // factors and the year of the fault
    for (factors, year) in [([1, 0], 1), ([1_000_001, 0], 0)] {
        assert_eq!(rt;
            table.take_in(2, 2, &factors, &[0; 8]),
            refused(10, year, 0)
        );
    }
    let fit = [0, 1_000_000, 500_000, 500_000, 1_000_000, 0, 0, 1_000_000];
    assert_eq!(rt; table.take_in(2, 2, &[1, 1_000_000], &fit), Ok(()));
    // shares, and the year and the state of the fault
    let unlawful = [
        ([0, 999_999, 1_000_000, 0, 1_000_000, 0, 0, 1_000_000], 0, 0),
        ([1_000_000, 0, 500_000, 500_001, 1_000_000, 1, 0, 0], 0, 1),
        ([1_000_000, 0, 0, 1_000_000, 1_000_001, -1, 0, 0], 1, 0),
        ([1_000_000, 0, 0, 1_000_000, 0, 1_000_000, 0, 0], 1, 1),
        ([1_000_000, 0, 0, 1_000_000, i64::MAX, i64::MAX, 2, 0], 1, 0),
        ([i64::MIN, i64::MIN, 1_000_000, 0, 0, 0, 0, 0], 0, 0),
    ];
    for (shares, year, state) in unlawful {
        assert_eq!(rt;
            table.take_in(2, 2, &[1, 1_000_000], &shares),
            refused(11, year, state)
        );
    }
    Ok(())
}

#[test]
fn reads_each_share_at_its_place(rt: HostRuntime) -> Result<(), Fail> {
    let mut table = TransitionTable::new(rt.alloc())?;
    let shares = [(0, 0, 0, 1_000_000), (0, 1, 0, 0), (1, 1, 0, 1_000_000)];
    answers(&rt, &table, (2, 1), &[(0, 1_000_000)], &shares);
    assert_eq!(rt; table.take_in(3, 2, &FACTORS, &SHARES), Ok(()));
    assert_eq!(rt; table.take_in(3, 2, &FACTORS, &[0; 18]), refused(11, 0, 0));
    let factors = [(0, 970_000), (1, 960_000), (2, 1_000_000)];
    let shares = [
        (0, 1, 0, 70_000),
        (1, 0, 0, 200_000),
        (2, 2, 0, 1_000_000),
        (0, 1, 1, 80_000),
        (1, 0, 1, 150_000),
        (1, 2, 1, 60_000),
        (3, 0, 0, 0),
        (0, 3, 0, 0),
        (0, 0, 2, 0),
    ];
    answers(&rt, &table, (3, 2), &factors, &shares);
    Ok(())
}

#[test]
fn takes_in_eight_states_and_120_years(rt: HostRuntime) -> Result<(), Fail> {
    let mut table = TransitionTable::new(rt.alloc())?;
    let shares = [1_000_000, 0, 0, 0, 0, 0, 0, 0].repeat(rt.alloc(), 960)?;
    assert_eq!(rt; table.take_in(8, 120, &[1; 120], &shares), Ok(()));
    let shares = [(7, 0, 119, 1_000_000), (7, 7, 119, 0), (7, 0, 120, 0)];
    answers(&rt, &table, (8, 120), &[], &shares);
    Ok(())
}

#[test]
fn is_entered_at_a_later_age(rt: HostRuntime) -> Result<(), Fail> {
    let mut table = TransitionTable::new(rt.alloc())?;
    table.take_in(3, 2, &FACTORS, &SHARES)?;
    let factors = [(0, 960_000), (1, 1_000_000)];
    let shares = [(0, 1, 0, 80_000), (1, 0, 0, 150_000), (0, 1, 1, 0)];
    answers(&rt, &AgeShift::new(table, 1), (3, 1), &factors, &shares);
    Ok(())
}

#[test]
fn lends_each_row(rt: HostRuntime) -> Result<(), Fail> {
    let mut table = TransitionTable::new(rt.alloc())?;
    table.take_in(3, 2, &FACTORS, &SHARES)?;
    // from, year, the shares
    let cases = [
        (0, 0, [900_000, 70_000, 30_000]),
        (1, 1, [150_000, 790_000, 60_000]),
        (2, 1, [0, 0, 1_000_000]),
        (3, 0, [0; 3]),
        (0, 2, [0; 3]),
    ];
    for (from, year, shares) in cases {
        let mut room = [7; 8];
        assert_eq!(rt; table.row(from, year, &mut room), shares.as_slice());
    }
    let shift = AgeShift::new(table, 1);
    let mut room = [7; 8];
    assert_eq!(rt;
        shift.row(0, 0, &mut room),
        [880_000, 80_000, 40_000].as_slice()
    );
    let mut room = [7; 8];
    assert_eq!(rt; shift.row(0, 1, &mut room), [0; 3].as_slice());
    Ok(())
}
