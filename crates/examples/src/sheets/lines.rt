// The lines of sheets and commands, taken apart.
use sheet::line::Line;
use sheet::part::Part;
use std::process::Abort;
use units::fault::{Fault, Layer, Place};

// A field's bytes and its offset.
fn is_told(rt: &impl Abort, field: Part<'_>, bytes: &[u8], offset: usize) {
    assert_eq!(rt; field.bytes(), bytes);
    assert_eq!(rt; field.spot().offset, offset);
}

#[test]
fn knows_the_letters_of_issues_and_alterations(rt: HostRuntime) -> Result<(), Fault> {
    match Line::split(Part::new(b"Q;1000000;2;1;50"))? {
        Line::Issue {
            sum,
            term,
            paying_years,
            deposit,
        } => {
            is_told(&rt, sum, b"1000000", 2);
            is_told(&rt, term, b"2", 10);
            is_told(&rt, paying_years, b"1", 12);
            is_told(&rt, deposit, b"50", 14);
        }
        _ => panic!(rt; "no issue"),
    }
    match Line::split(Part::new(b"A;1000000;2;1"))? {
        Line::Alter {
            sum,
            term,
            paying_years,
        } => {
            is_told(&rt, sum, b"1000000", 2);
            is_told(&rt, term, b"2", 10);
            is_told(&rt, paying_years, b"1", 12);
        }
        _ => panic!(rt; "no alteration"),
    }
    Ok(())
}

#[test]
fn knows_the_letters_of_closings_and_of_ends(rt: HostRuntime) -> Result<(), Fault> {
    match Line::split(Part::new(b"C;1;-10000"))? {
        Line::Close { state, rate } => {
            is_told(&rt, state, b"1", 2);
            is_told(&rt, rate, b"-10000", 4);
        }
        _ => panic!(rt; "no closing"),
    }
    assert_eq!(rt; Line::split(Part::new(b"L")), Ok(Line::Leave));
    assert_eq!(rt; Line::split(Part::new(b"E")), Ok(Line::End));
    Ok(())
}

#[test]
fn knows_how_many_fields_a_letter_has(rt: HostRuntime) {
    let place = Place::Text { line: 1, offset: 0 };
    let fault = Fault {
        number: 3,
        layer: Layer::Sheet,
        place,
    };
    let unfit = [
        "",
        ";",
        "B",
        "B;1",
        "B;1;2;3",
        "D;1",
        "D;1;2;3",
        "T;1;2;3",
        "T;1;2;3;4;5",
        "E;",
        "E;1",
        "Q;1;2;3",
        "Q;1;2;3;4;5",
        "C;1",
        "C;1;2;3",
        "A;1;2",
        "A;1;2;3;4",
        "L;",
        "L;1",
        "X",
        "BB;1;2",
        "b;1;2",
        ";B;1;2",
    ];
    for text in unfit {
        assert_eq!(rt;
            Line::split(Part::new(text.as_bytes())),
            Err(fault),
            "{text}"
        );
    }
    let fit = [
        "B;;",
        "D;1;2",
        "T;1;2;3;4",
        "E",
        "Q;;;;",
        "C;x;-",
        "A;1;2;3",
        "L",
    ];
    for text in fit {
        assert!(rt; Line::split(Part::new(text.as_bytes())).is_ok(), "{text}");
    }
}
