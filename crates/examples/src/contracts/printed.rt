// The printed case, call by call.
use super::{died, fault, lived, stands, two_years, worked};
use contract::answer::Left;
use contract::proposal::Proposal;
use plan::endowment::Endowment;
use std::test::Fail;

#[test]
fn goes_as_printed(rt: HostRuntime) -> Result<(), Fail> {
    let table = two_years(&rt)?;
    let mut proposal = Proposal::new(&table, Endowment::new(1_000_000, 2, 2)?);
    proposal.deposit(0)?;
    assert_eq!(rt; proposal.price()?.ticks(), 452_487);
    let issued = proposal.issue();
    assert_eq!(rt; (issued.reserve, issued.opening_result), (-1, 1));
    let mut contract = issued.contract;
    assert_eq!(rt; contract.close(0, 120_000), Ok(lived()));
    stands(&rt, &contract, 447_513);
    assert_eq!(rt; contract.close(1, -10_000), Ok(died()));
    stands(&rt, &contract, 0);
    assert_eq!(rt; contract.close(1, 0), Err(fault(16, 2, 1)));
    assert_eq!(rt; contract.leave(), Left { paid: 0, result: 0 });
    Ok(())
}

#[test]
fn pays_on_leaving_only_what_is_above_nought(rt: HostRuntime) -> Result<(), Fail> {
    let table = two_years(&rt)?;
    // years closed while alive; paid, result
    let cases = [(0, 0, -1), (1, 447_513, 0), (2, 1_000_000, 0)];
    for (years, paid, result) in cases {
        let mut contract = worked(&table)?;
        for _year in 0..years {
            assert!(rt; contract.close(0, 0).is_ok());
        }
        assert_eq!(rt; contract.leave(), Left { paid, result }, "{years}");
    }
    Ok(())
}
