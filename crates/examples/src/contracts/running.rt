// Cases that are run.
use super::{closes, died, fault, lived, two_years};
use basis::life::LifeTable;
use contract::answer::{Altered, Answer, Closed, Left};
use contract::case::{Case, End, Run};
use contract::request::Request;
use contract::run::run;
use plan::endowment::Endowment;
use std::alloc::Global;
use std::process::Abort;
use std::test::Fail;
use units::failure::Failure;
use units::premium::Premium;
use valuation::mean::Mean;
use valuation::span::ends::Ends;
use valuation::span::valuation::Span;

// The printed case, with no requests yet.
fn case(heap: Global, leaves: bool) -> Result<Case<Endowment>, Fail> {
    Ok(Case {
        plan: Endowment::new(1_000_000, 2, 2)?,
        start: 0,
        deposit: 0,
        requests: vec![in heap]?,
        leaves,
    })
}

fn printed_case(heap: Global, leaves: bool) -> Result<Case<Endowment>, Fail> {
    let mut printed = case(heap, leaves)?;
    printed.requests = vec![in heap;
        Request::Close {
            end: 0,
            rate: 120_000
        },
        Request::Reserve,
        Request::Close {
            end: 1,
            rate: -10_000
        },
        Request::Close { end: 1, rate: 0 },
    ]?;
    Ok(printed)
}

// What the printed case answers, behind an answer that was there.
fn printed_answers(heap: Global) -> Result<Vec<Answer<i64>>, Fail> {
    let answers = vec![in heap;
        Answer::Reserve(7),
        Answer::Closed(lived()),
        Answer::Reserve(447_513),
        Answer::Closed(died()),
        Answer::Refused(fault(16, 2, 1)),
    ]?;
    Ok(answers)
}

// How the printed case ends, once its answers stand behind the one that was there.
fn run_printed<'a>(
    rt: &impl Abort,
    heap: Global,
    table: &'a LifeTable,
    leaves: bool,
) -> Result<End<'a, LifeTable, Endowment>, Fail> {
    let mut answers = vec![in heap; Answer::Reserve(7)]?;
    let Run {
        premium,
        opening_result,
        end,
    } = run(&Mean, table, printed_case(heap, leaves)?, &mut answers)?;
    assert_eq!(rt; (premium.ticks(), opening_result), (452_487, 1));
    assert_eq!(rt; answers, printed_answers(heap)?);
    Ok(end)
}

#[test]
fn runs_the_printed_case_and_leaves(rt: HostRuntime) -> Result<(), Fail> {
    let table = two_years(&rt)?;
    match run_printed(&rt, rt.alloc(), &table, true)? {
        End::Left(left) => assert_eq!(rt; left, Left { paid: 0, result: 0 }),
        End::Stands(_) => assert!(rt; false, "it stands"),
    }
    Ok(())
}

#[test]
fn runs_the_printed_case_and_stands(rt: HostRuntime) -> Result<(), Fail> {
    let table = two_years(&rt)?;
    match run_printed(&rt, rt.alloc(), &table, false)? {
        End::Left(_) => assert!(rt; false, "it has left"),
        End::Stands(mut contract) => {
            closes(&rt, &mut contract, 1, 0, Err(fault(16, 2, 1)));
            let altered = contract.alter(Endowment::new(5, 2, 0)?)?;
            assert_eq!(rt; altered.number, 3);
            assert_eq!(rt; contract.leave(), Left { paid: 0, result: 0 });
        }
    }
    Ok(())
}

// Of every kind, accepted and refused.
fn requests(heap: Global) -> Result<Vec<Request<Endowment>>, Fail> {
    let requests = vec![in heap;
        Request::Span,
        Request::Alter(Endowment::new(1_000_000, 2, 0)?),
        Request::Alter(Endowment::new(2_000_000, 2, 2)?),
        Request::Figure,
        Request::Course(vec![in heap; 7; 7]?),
        Request::Close { end: 2, rate: 0 },
        Request::Close {
            end: 0,
            rate: 500_001
        },
        Request::Close { end: 0, rate: 0 },
        Request::Course(vec![in heap; 7; 3]?),
    ]?;
    Ok(requests)
}

// What they are answered, in the span.
fn answers_to_requests(heap: Global) -> Result<Vec<Answer<Ends>>, Fail> {
    let altered = Altered {
        number: 1,
        premium: Premium::try_from(904_973)?,
        result: 0,
        reserve: -1,
    };
    let closed = Closed {
        number: 2,
        year: 0,
        premium: 904_973,
        benefits: 0,
        interest_earned: 0,
        interest_result: -100_552,
        risk_result: 110_497,
        reserve: 895_027,
    };
    let answers = vec![in heap;
        Answer::Span(Ends {
            least: -49_725,
            greatest: 447_513,
        }),
        Answer::Refused(fault(20, 0, 0)),
        Answer::Altered(altered),
        Answer::Figure(Ends {
            least: -99_449,
            greatest: 895_027,
        }),
        Answer::Course(vec![in heap; -1, 0, 895_027, 0, 2_000_000, 0, 7]?),
        Answer::Refused(fault(17, 0, 0)),
        Answer::Refused(fault(18, 0, 0)),
        Answer::Closed(closed),
        Answer::TooShort {
            fault: fault(22, 1, 0),
            column: vec![in heap; 7; 3]?,
        },
    ]?;
    Ok(answers)
}

#[test]
fn answers_requests_of_every_kind(rt: HostRuntime) -> Result<(), Fail> {
    let table = two_years(&rt)?;
    let mut asked = case(rt.alloc(), true)?;
    asked.requests = requests(rt.alloc())?;
    let mut answers = vec![in rt.alloc()]?;
    let outcome = run(&Span, &table, asked, &mut answers)?;
    assert_eq!(rt; outcome.premium.ticks(), 452_487);
    assert_eq!(rt; answers, answers_to_requests(rt.alloc())?);
    Ok(())
}

#[test]
fn issues_nothing_where_it_refuses(rt: HostRuntime) -> Result<(), Fail> {
    let table = two_years(&rt)?;
    // start state, deposit, paying years; the fault
    let cases = [
        (2, -1, 0, fault(14, 0, 0)),
        (1, -1, 0, fault(15, 0, 1)),
        (0, 10_000_000_001, 0, fault(15, 0, 0)),
        (0, 818_999, 0, fault(20, 0, 0)),
    ];
    for (start, deposit, paying, expected) in cases {
        let mut refused = printed_case(rt.alloc(), true)?;
        refused.start = start;
        refused.deposit = deposit;
        refused.plan = Endowment::new(1_000_000, 2, paying)?;
        let mut answers = vec![in rt.alloc(); Answer::Reserve(7)]?;
        match run(&Mean, &table, refused, &mut answers) {
            Ok(_) => assert!(rt; false, "it was issued"),
            Err(failure) => assert_eq!(rt; failure, Failure::Refused(expected)),
        }
        assert_eq!(rt; answers, vec![in rt.alloc(); Answer::Reserve(7)]?);
    }
    Ok(())
}

#[test]
fn runs_no_requests(rt: HostRuntime) -> Result<(), Fail> {
    let table = two_years(&rt)?;
    let mut answers: Vec<Answer<i64>> = vec![in rt.alloc()]?;
    let outcome = run(&Mean, &table, case(rt.alloc(), true)?, &mut answers)?;
    assert_eq!(rt;
        (outcome.premium.ticks(), outcome.opening_result),
        (452_487, 1)
    );
    assert!(rt; answers.is_empty());
    match outcome.end {
        End::Left(left) => assert_eq!(rt;
            left,
            Left {
                paid: 0,
                result: -1
            }
        ),
        End::Stands(_) => assert!(rt; false, "it stands"),
    }
    Ok(())
}
