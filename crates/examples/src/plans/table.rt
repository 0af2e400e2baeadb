// A table at the edges of its rules.
use super::{pays, refused};
use plan::table::PaymentTable;
use std::process::Abort;
use std::test::Fail;

#[test]
fn refuses_unfit_years_and_lengths(rt: HostRuntime) -> Result<(), Fail> {
    let mut table = PaymentTable::new(rt.alloc())?;
    let cases: [(usize, &[i64], &[i64], &[i64]); 9] = [
        (121, &[0; 976], &[0; 976], &[0; 7_744]),
        (usize::MAX, &[], &[], &[]),
        (0, &[], &[], &[]),
        (1, &[0; 15], &[0; 16], &[0; 64]),
        (1, &[0; 17], &[0; 16], &[0; 64]),
        (1, &[0; 16], &[0; 15], &[0; 64]),
        (1, &[0; 16], &[0; 17], &[0; 64]),
        (1, &[0; 16], &[0; 16], &[0; 63]),
        (1, &[0; 16], &[0; 16], &[0; 65]),
    ];
    for (years, benefits, marks, moves) in cases {
        assert_eq!(rt; table.take_in(years, benefits, marks, moves), refused(0, 0));
    }
    assert_eq!(rt;
        table.take_in(120, &[0; 968], &[0; 968], &[0; 7_680]),
        Ok(())
    );
    assert_eq!(rt; table.take_in(0, &[0; 8], &[0; 8], &[]), Ok(()));
    Ok(())
}

// Of a table of two years, at a year and a state.
fn is_refused(
    rt: &impl Abort,
    table: &mut PaymentTable,
    columns: (&[i64], &[i64], &[i64]),
    year: usize,
    state: usize,
) {
    let (benefits, marks, moves) = columns;
    assert_eq!(rt;
        table.take_in(2, benefits, marks, moves),
        refused(year, state)
    );
}

#[test]
fn refuses_benefits_then_marks_then_moves(rt: HostRuntime) -> Result<(), Fail> {
    let mut table = PaymentTable::new(rt.alloc())?;
    let mut benefits = [0; 24];
    let mut marks = [1; 24];
    let mut moves = [10_000_000_000; 128];
    moves[127] = -1;
    is_refused(&rt, &mut table, (&benefits, &marks, &moves), 1, 7);
    moves[10] = 10_000_000_001;
    is_refused(&rt, &mut table, (&benefits, &marks, &moves), 0, 1);
    marks[23] = 2;
    is_refused(&rt, &mut table, (&benefits, &marks, &moves), 2, 7);
    marks[9] = -1;
    is_refused(&rt, &mut table, (&benefits, &marks, &moves), 1, 1);
    benefits[22] = 10_000_000_001;
    is_refused(&rt, &mut table, (&benefits, &marks, &moves), 2, 6);
    benefits[3] = -1;
    is_refused(&rt, &mut table, (&benefits, &marks, &moves), 0, 3);
    Ok(())
}

#[test]
fn reads_each_amount_at_its_place(rt: HostRuntime) -> Result<(), Fail> {
    let mut table = PaymentTable::new(rt.alloc())?;
    pays(&rt, &table, &[(0, 0, 0)], &[(0, 0, false)], &[(0, 1, 0, 0)]);
    let mut benefits = [0; 24];
    let mut marks = [0; 24];
    let mut moves = [0; 128];
    benefits[10] = 12;
    benefits[23] = 27;
    marks[8] = 1;
    marks[16] = 1;
    moves[84] = 124;
    assert_eq!(rt; table.take_in(2, &benefits, &marks, &moves), Ok(()));
    benefits[10] = -1;
    is_refused(&rt, &mut table, (&benefits, &marks, &moves), 1, 2);
    let benefits = [
        (2, 1, 12),
        (1, 2, 0),
        (7, 2, 27),
        (2, 3, 0),
        (10, 0, 0),
        (8, 2, 0),
    ];
    let dues = [(0, 1, true), (0, 2, true), (1, 0, false), (0, 3, false)];
    let moves = [
        (2, 4, 1, 124),
        (4, 2, 1, 0),
        (2, 4, 2, 0),
        (2, 12, 0, 0),
        (10, 4, 0, 0),
    ];
    pays(&rt, &table, &benefits, &dues, &moves);
    Ok(())
}
