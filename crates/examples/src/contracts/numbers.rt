// The numbers of closings and alterations, up to the last. On a table of one year in which nobody
// dies, an endowment of 1,000,000 ticks costs 900,000, and altering to the same again changes only
// the number.
use super::{EndowmentContract, alters, closes, fault, issued, refuses, stands};
use basis::life::LifeTable;
use contract::answer::Altered;
use plan::endowment::Endowment;
use std::process::Abort;
use std::test::Fail;
use units::premium::Premium;

fn one_year(rt: &HostRuntime) -> Result<LifeTable, Fail> {
    let mut table = LifeTable::new(rt.alloc())?;
    table.take_in(&[0], 900_000)?;
    Ok(table)
}

// Alters a contract that was just issued, up to a number.
fn alter_up_to(
    rt: &impl Abort,
    contract: &mut EndowmentContract<'_>,
    last: u16,
) -> Result<(), Fail> {
    let plan = Endowment::new(1_000_000, 1, 1)?;
    let premium = Premium::try_from(900_000)?;
    for number in 1..=last {
        let altered = Altered {
            number,
            premium,
            result: 0,
            reserve: 0,
        };
        assert_eq!(rt; contract.alter(plan), Ok(altered));
    }
    Ok(())
}

#[test]
fn gives_the_last_number(rt: HostRuntime) -> Result<(), Fail> {
    let table = one_year(&rt)?;
    let mut contract = issued(&table, Endowment::new(1_000_000, 1, 1)?, 0, 0)?;
    alter_up_to(&rt, &mut contract, 9_998)?;
    closes(&rt, &mut contract, 0, 0, Ok((9_999, -100_000, 0)));
    closes(&rt, &mut contract, 0, 0, Err(fault(16, 1, 0)));
    alters(&rt, &mut contract, (1_000_000, 1, 1), Err(fault(21, 1, 0)))?;
    stands(&rt, &contract, 1_000_000);
    Ok(())
}

#[test]
fn refuses_once_the_last_number_is_given(rt: HostRuntime) -> Result<(), Fail> {
    let table = one_year(&rt)?;
    let mut contract = issued(&table, Endowment::new(1_000_000, 1, 1)?, 0, 0)?;
    alter_up_to(&rt, &mut contract, 9_999)?;
    // end state, rate, number
    let closings = [(2, 500_001, 17), (1, 500_001, 18), (1, 0, 19), (0, 0, 21)];
    refuses(&rt, &mut contract, 0, 0, &closings);
    // terms, number
    let alterations = [
        ((1_000_000, 1, 0), 20),
        ((1_000_000, 1, 1), 21),
        ((0, 1, 0), 21),
    ];
    for (terms, number) in alterations {
        alters(&rt, &mut contract, terms, Err(fault(number, 0, 0)))?;
    }
    stands(&rt, &contract, 0);
    assert_eq!(rt; (contract.span().least, contract.span().greatest), (0, 0));
    Ok(())
}
