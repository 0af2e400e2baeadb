// Proposals: what they refuse, and what they are issued on.
use super::{fault, two_years};
use basis::life::LifeTable;
use contract::proposal::Proposal;
use plan::endowment::Endowment;
use std::process::Abort;
use std::test::Fail;

// On this reserve and opening result.
fn issues(
    rt: &impl Abort,
    proposal: Proposal<'_, LifeTable, Endowment>,
    reserve: i64,
    opening: i64,
) {
    let issued = proposal.issue();
    assert_eq!(rt;
        (issued.reserve, issued.opening_result),
        (reserve, opening),
        "{reserve} {opening}"
    );
}

#[test]
fn starts_only_in_a_state_of_the_basis(rt: HostRuntime) -> Result<(), Fail> {
    let table = two_years(&rt)?;
    let mut proposal = Proposal::new(&table, Endowment::new(1_000_000, 2, 2)?);
    // where it starts so far, where it is to start; whether it may
    let cases = [
        (0, 2, false),
        (0, 8, false),
        (0, 0, true),
        (0, 1, true),
        (1, 2, false),
        (1, usize::MAX, false),
        (1, 0, true),
        (0, 2, false),
    ];
    for (start, state, may) in cases {
        let expected = if may {
            Ok(())
        } else {
            Err(fault(14, 0, start))
        };
        assert_eq!(rt; proposal.place(state), expected, "{start} {state}");
    }
    assert_eq!(rt; proposal.price()?.ticks(), 452_487);
    Ok(())
}

#[test]
fn takes_deposits_from_nought_to_the_limit(rt: HostRuntime) -> Result<(), Fail> {
    let table = two_years(&rt)?;
    // the deposit, whether it is taken, and the opening result with no premium: the reserve is
    // 819,000
    let cases = [
        (0, true, -819_000),
        (10_000_000_000, true, 9_999_181_000),
        (-1, false, -818_995),
        (10_000_000_001, false, -818_995),
        (i64::MIN, false, -818_995),
        (i64::MAX, false, -818_995),
    ];
    for (ticks, taken, result) in cases {
        let mut proposal = Proposal::new(&table, Endowment::new(1_000_000, 2, 2)?);
        proposal.deposit(5)?;
        let expected = if taken { Ok(()) } else { Err(fault(15, 0, 0)) };
        assert_eq!(rt; proposal.deposit(ticks), expected, "{ticks}");
        issues(&rt, proposal, 819_000, result);
    }
    let mut dead = Proposal::new(&table, Endowment::new(1_000_000, 2, 2)?);
    dead.place(1)?;
    assert_eq!(rt; dead.deposit(-1), Err(fault(15, 0, 1)));
    Ok(())
}

#[test]
fn prices_at_the_least_premium_or_refuses(rt: HostRuntime) -> Result<(), Fail> {
    let table = two_years(&rt)?;
    // paying years, start state, deposit; premium, reserve, opening result
    let cases = [
        (2, 0, 0, Some(452_487), -1, 1),
        (2, 0, 1, Some(452_486), 1, 0),
        (2, 0, 819_000, Some(0), 819_000, 0),
        (2, 0, 819_005, Some(0), 819_000, 5),
        (2, 1, 5, Some(0), 0, 5),
        (0, 0, 819_000, Some(0), 819_000, 0),
        (0, 0, 818_999, None, 819_000, -1),
        (0, 0, 0, None, 819_000, -819_000),
        (0, 1, 0, Some(0), 0, 0),
    ];
    for (paying, start, deposit, premium, reserve, result) in cases {
        let mut proposal = Proposal::new(&table, Endowment::new(1_000_000, 2, paying)?);
        proposal.place(start)?;
        proposal.deposit(deposit)?;
        match (proposal.price(), premium) {
            (Ok(least), Some(ticks)) => assert_eq!(rt; least.ticks(), ticks),
            (refusal, _) => assert_eq!(rt; refusal, Err(fault(20, 0, start))),
        }
        issues(&rt, proposal, reserve, result);
    }
    Ok(())
}

// The premium stays when the deposit changes after pricing.
#[test]
fn issues_at_the_premium_that_it_bears(rt: HostRuntime) -> Result<(), Fail> {
    let table = two_years(&rt)?;
    let mut proposal = Proposal::new(&table, Endowment::new(1_000_000, 2, 2)?);
    assert_eq!(rt; proposal.price()?.ticks(), 452_487);
    proposal.deposit(100)?;
    issues(&rt, proposal, -1, 101);
    Ok(())
}
