// An endowment at the edges of its rules.
use super::{pays, refused};
use plan::endowment::Endowment;
use std::test::Fail;

#[test]
fn refuses_what_is_unfit(rt: HostRuntime) {
    // sum, term, paying years; the year of the fault
    let unfit = [
        (1, 0, 0, 0),
        (-1, 121, 0, 0),
        (1, 10, 11, 0),
        (-1, 10, 10, 10),
        (10_000_000_001, 120, 0, 120),
    ];
    for (sum, term, paying, year) in unfit {
        assert_eq!(rt; Endowment::new(sum, term, paying), refused(year, 0));
    }
    for (sum, term, paying) in [(10_000_000_000, 120, 120), (0, 1, 0)] {
        assert!(rt; Endowment::new(sum, term, paying).is_ok());
    }
}

#[test]
fn pays_at_death_or_at_the_term(rt: HostRuntime) -> Result<(), Fail> {
    let benefits = [(0, 2, 0), (0, 3, 700), (0, 4, 0), (1, 3, 0)];
    let dues = [(0, 0, true), (0, 1, true), (0, 2, false), (1, 0, false)];
    let moves = [
        (0, 1, 0, 700),
        (0, 1, 2, 700),
        (0, 1, 3, 0),
        (0, 0, 0, 0),
        (1, 1, 0, 0),
        (1, 0, 0, 0),
    ];
    pays(&rt, &Endowment::new(700, 3, 2)?, &benefits, &dues, &moves);
    Ok(())
}
