// Figures at the edges of the rules.
use plan::annuity::Annuity;
use plan::endowment::Endowment;
use std::alloc::Global;
use std::process::Abort;
use std::test::Fail;
use units::amount::{Amount, OutsideLimit};
use units::failure::Failure;
use units::fault::{Fault, Layer, Place};
use units::francs::Francs;
use units::premium::Premium;
use units::rounding::nearest;
use units::rule::{Rule, UnknownRule};

#[test]
fn rounds_halves_up(rt: HostRuntime) {
    let cases = [
        (500_000, 1),
        (499_999, 0),
        (-500_000, 0),
        (-500_001, -1),
        (1_500_000, 2),
        (-1_500_000, -1),
        (7_000_000, 7),
        (-7_000_000, -7),
        (i64::MAX, 9_223_372_036_855),
        (i64::MIN, -9_223_372_036_855),
    ];
    for (amount, rounded) in cases {
        assert_eq!(rt; nearest(amount), rounded);
    }
}

#[test]
fn premiums_lie_from_nought_to_the_limit(rt: HostRuntime) {
    assert!(rt; Premium::new(-1).is_none());
    assert!(rt; Premium::new(0).is_some());
    assert!(rt; Premium::new(10_000_000_000).is_some());
    assert!(rt; Premium::new(10_000_000_001).is_none());
}

#[test]
fn amounts_lie_from_nought_to_the_limit(rt: HostRuntime) -> Result<(), Fail> {
    assert_eq!(rt; Amount::try_from(10_000_000_000)?.ticks(), 10_000_000_000);
    for ticks in [-1, 10_000_000_001, i64::MIN, i64::MAX] {
        assert_eq!(rt; Amount::try_from(ticks), Err(OutsideLimit(ticks)));
    }
    let outside = OutsideLimit(-1).to_string(rt.alloc())?;
    assert!(rt; outside.as_str() == "an amount is outside 0 to the limit");
    Ok(())
}

// A rule by its number, and the faults that are its breach, in these words.
fn is_told(
    rt: &impl Abort,
    heap: Global,
    number: u8,
    rule: Rule,
    layer: Layer,
    words: &str,
) -> Result<(), Fail> {
    assert_eq!(rt; Rule::try_from(number), Ok(rule));
    let fault = Fault::at_entry(number, layer, 7, 3);
    assert_eq!(rt; Fault::breach(rule, 7, 3), fault);
    let place = Place::Text { line: 7, offset: 3 };
    assert_eq!(rt;
        Fault::in_text(rule, 7, 3),
        Fault {
            number,
            layer,
            place
        }
    );
    let told = fault.to_string(heap)?;
    assert!(rt; told.as_str().ends_with(words));
    let shown = rule.to_string(heap)?;
    assert!(rt; shown.as_str() == words);
    Ok(())
}

#[test]
fn rules_go_by_their_numbers(rt: HostRuntime) -> Result<(), Fail> {
    let cases = [
        (
            1,
            Rule::Input,
            Layer::Sheet,
            "the input has more than 60000 bytes",
        ),
        (
            2,
            Rule::LineFeed,
            Layer::Sheet,
            "a line has no line feed within 40 bytes",
        ),
        (
            3,
            Rule::Form,
            Layer::Sheet,
            "a letter may not stand here or the number of fields differs",
        ),
        (
            4,
            Rule::Number,
            Layer::Field,
            "a field is not 1 to 11 digits without leading nought",
        ),
        (
            5,
            Rule::Range,
            Layer::Field,
            "a number is outside its range",
        ),
        (
            6,
            Rule::Room,
            Layer::Sheet,
            "the columns are shorter than the sheet needs",
        ),
        (
            7,
            Rule::Order,
            Layer::Sheet,
            "a year or a pair of states is out of order",
        ),
        (8, Rule::Row, Layer::Sheet, "a row misses the million"),
        (
            9,
            Rule::Size,
            Layer::Basis,
            "the number of states or years or the length of a column is unfit",
        ),
        (
            10,
            Rule::Factor,
            Layer::Basis,
            "a factor is outside 1 to a million",
        ),
        (
            11,
            Rule::Share,
            Layer::Basis,
            "a share is outside 0 to a million or a row misses the million",
        ),
        (
            12,
            Rule::Payment,
            Layer::Plan,
            "a year, a state or the length of a column of a plan is unfit or an entry is out of range",
        ),
        (
            13,
            Rule::Standing,
            Layer::Sheet,
            "a command needs a contract and none stands or a contract stands already",
        ),
        (
            14,
            Rule::StartState,
            Layer::Contract,
            "the start state is not in the basis",
        ),
        (
            15,
            Rule::Deposit,
            Layer::Contract,
            "the deposit is outside 0 to the limit",
        ),
        (
            16,
            Rule::YearLeft,
            Layer::Contract,
            "no year is left to close",
        ),
        (
            17,
            Rule::EndState,
            Layer::Contract,
            "the end state is not in the basis",
        ),
        (
            18,
            Rule::Rate,
            Layer::Contract,
            "the rate is outside -500000 to 500000",
        ),
        (
            19,
            Rule::PossibleMove,
            Layer::Contract,
            "the share of the move is nought",
        ),
        (
            20,
            Rule::Premium,
            Layer::Contract,
            "no premium from 0 to the limit will do",
        ),
        (
            21,
            Rule::NumberLeft,
            Layer::Contract,
            "number 9999 has been given",
        ),
        (
            22,
            Rule::Course,
            Layer::Contract,
            "the column for the course is too short",
        ),
    ];
    for (number, rule, layer, words) in cases {
        is_told(&rt, rt.alloc(), number, rule, layer, words)?;
    }
    assert_eq!(rt; Rule::try_from(0), Err(UnknownRule(0)));
    assert_eq!(rt; Rule::try_from(23), Err(UnknownRule(23)));
    let unknown = UnknownRule(23).to_string(rt.alloc())?;
    assert!(rt; unknown.as_str() == "no rule goes by 23");
    Ok(())
}

#[test]
fn failures_are_told_in_words(rt: HostRuntime) -> Result<(), Fail> {
    let cases = [
        (
            Failure::Refused(Fault::at_entry(10, Layer::Basis, 3, 0)),
            "refused with 10 by the basis at year 3, state 0: a factor is outside 1 to a million",
        ),
        (
            Failure::Refused(Fault::at_entry(255, Layer::Contract, 0, 7)),
            "refused with 255 by the contract at year 0, state 7: a rule is broken",
        ),
        (Failure::NoMemory, "no memory"),
    ];
    for (failure, words) in cases {
        let told = failure.to_string(rt.alloc())?;
        assert!(rt; told.as_str() == words);
    }
    Ok(())
}

#[test]
fn texts_stay_as_they_are_under_a_width_and_a_sign(rt: HostRuntime) -> Result<(), Fail> {
    let place = Place::Text {
        line: usize::MAX,
        offset: usize::MAX,
    };
    let layer = Layer::Contract;
    let fault = Fault {
        number: 12,
        layer,
        place,
    };
    let words =
        "refused with 12 by the contract at line 18446744073709551615, offset 18446744073709551615: a year, a state or the length of a column of a plan is unfit or an entry is out of range";
    let told = format!(in rt.alloc(); "{fault:#} {fault:>60} {fault:200}")?;
    let once = format!(in rt.alloc(); "{words} {words} {words}")?;
    assert!(rt; told.as_str() == once.as_str());
    let francs = Francs { ticks: -123_450 };
    let told = format!(in rt.alloc(); "{layer:#} {layer:>60} {francs:#} {francs:>60} {francs:+}")?;
    assert!(rt; told.as_str() == "contract contract -12.34 -12.34 -12.34");
    Ok(())
}

#[test]
fn amounts_equal_their_clones(rt: HostRuntime) -> Result<(), Fail> {
    let amount = Amount::try_from(10_000_000_000)?;
    assert_eq!(rt; amount.clone()?, amount);
    Ok(())
}

#[test]
fn a_premium_and_the_amounts_of_plans_read_as_numbers(rt: HostRuntime) -> Result<(), Fail> {
    let premium = Premium::try_from(700)?;
    let endowment = Endowment::new(800, 3, 2)?;
    let annuity = Annuity::new(900, 1, 0, 3, 2)?;
    let told = format!(in rt.alloc(); "{premium:?} {premium:#?} {endowment:?} {annuity:?}")?;
    let words =
        "Premium { ticks: 700 } Premium {\n    ticks: 700,\n} Endowment { sum: 800, term: 3, paying_years: 2 } Annuity { amount: 900, state: 1, first: 0, end: 3, paying_years: 2 }";
    assert!(rt; told.as_str() == words);
    Ok(())
}
