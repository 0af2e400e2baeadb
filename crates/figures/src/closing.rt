// The worked contract's first year, closed at the bound of the rate and past it.
use basis::life::LifeTable;
use contract::answer::Closed;
use contract::run::issue;
use plan::endowment::Endowment;
use units::fault::Fault;

fn print_closed(rt: &HostRuntime, outcome: Result<Closed, Fault>) -> anyhow::Result<()> {
    match outcome {
        Ok(closed) => {
            let number = closed.number;
            let interest = closed.interest_result;
            let risk = closed.risk_result;
            println!(rt;
                "closed with number {number}, result on interest {interest}, on risk {risk}"
            )?
        }
        Err(fault) => println!(rt; "{fault}")?,
    }
    Ok(())
}

pub(crate) fn print_closings(
    rt: &HostRuntime,
    basis: &LifeTable,
    plan: Endowment,
) -> anyhow::Result<()> {
    for rate in [500_000, 500_001] {
        print!(rt; "at a rate of {rate}: ")?;
        let mut contract = issue(basis, plan, 0, 0)?.contract;
        print_closed(rt, contract.close(0, rate))?;
    }
    Ok(())
}
