// The requests of a case, and how they are shown.
use crate::plans::{YEARS, pension};
use contract::request::Request;
use plan::annuity::Annuity;
use std::alloc::Global;

// The questions at issue: there are 18 reserves in the course from year 0.
fn add_questions(heap: Global, requests: &mut Vec<Request<Annuity>>) -> anyhow::Result<()> {
    requests.push(Request::Reserve)?;
    requests.push(Request::Span)?;
    requests.push(Request::Figure)?;
    requests.push(Request::Course(vec![in heap; 0; 18]?))?;
    requests.push(Request::Course(vec![in heap; 70_000; 17]?))?;
    Ok(())
}

// Two years, in the second of which the contract is found disabled.
fn add_closings(requests: &mut Vec<Request<Annuity>>) -> anyhow::Result<()> {
    for (end, rate) in [(0, 25_000), (3, 500_001), (1, 500_001), (1, 40_000)] {
        requests.push(Request::Close { end, rate })?;
    }
    Ok(())
}

// Alterations while disabled and, a year later, while active again.
fn add_alterations(heap: Global, requests: &mut Vec<Request<Annuity>>) -> anyhow::Result<()> {
    requests.push(Request::Alter(pension(480_000_000, 0)?))?;
    requests.push(Request::Alter(pension(120_000_000, YEARS)?))?;
    requests.push(Request::Reserve)?;
    requests.push(Request::Close {
        end: 0,
        rate: -15_000,
    })?;
    requests.push(Request::Alter(pension(360_000_000, YEARS)?))?;
    requests.push(Request::Reserve)?;
    requests.push(Request::Course(vec![in heap; 0; 9]?))?;
    Ok(())
}

pub(crate) fn all_requests(heap: Global) -> anyhow::Result<Vec<Request<Annuity>>> {
    let mut requests = Vec::new(heap);
    add_questions(heap, &mut requests)?;
    add_closings(&mut requests)?;
    add_alterations(heap, &mut requests)?;
    Ok(requests)
}

pub(crate) fn print_request(rt: &HostRuntime, request: &Request<Annuity>) -> anyhow::Result<()> {
    match request {
        Request::Close { end, rate } => println!(rt; "close in state {end} at a rate of {rate}")?,
        Request::Alter(_) => println!(rt; "alter the plan")?,
        Request::Reserve => println!(rt; "reserve")?,
        Request::Span => println!(rt; "span")?,
        Request::Figure => println!(rt; "figure in the mean")?,
        Request::Course(column) => {
            let length = column.len();
            println!(rt; "course into a column of {length}")?;
        }
    }
    Ok(())
}
