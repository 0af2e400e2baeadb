// An annuity at the edges of its rules.
use super::{pays, refused};
use plan::annuity::Annuity;
use std::test::Fail;

#[test]
fn refuses_what_is_unfit(rt: HostRuntime) {
    // amount, state, first year, end, paying years; the year and the state of the fault
    let unfit = [
        (-1, 8, 0, 10, 10, (0, 0)),
        (1, 7, 11, 10, 10, (0, 0)),
        (1, 7, 0, 121, 10, (0, 0)),
        (1, 7, 0, 10, 121, (0, 0)),
        (-1, 7, 3, 10, 0, (3, 7)),
        (10_000_000_001, 1, 120, 120, 120, (120, 1)),
    ];
    for (amount, state, first, end, paying, place) in unfit {
        assert_eq!(rt;
            Annuity::new(amount, state, first, end, paying),
            refused(place.0, place.1)
        );
    }
    assert!(rt; Annuity::new(10_000_000_000, 7, 0, 120, 120).is_ok());
    assert!(rt; Annuity::new(0, 0, 0, 0, 0).is_ok());
}

#[test]
fn pays_in_its_state_and_years(rt: HostRuntime) -> Result<(), Fail> {
    let benefits = [(1, 1, 0), (1, 2, 700), (1, 3, 700), (1, 4, 0), (0, 2, 0)];
    let dues = [(0, 0, true), (0, 2, true), (0, 3, false), (1, 0, false)];
    pays(
        &rt,
        &Annuity::new(700, 1, 2, 4, 3)?,
        &benefits,
        &dues,
        &[(0, 1, 2, 0)],
    );
    Ok(())
}
