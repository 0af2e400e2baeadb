// The numbers of fields, and the first line of a text.
use sheet::part::Part;
use sheet::spot::Spot;
use std::process::Abort;
use units::fault::{Fault, Layer, Place};

fn unfit() -> Fault {
    let place = Place::Text { line: 1, offset: 0 };
    Fault {
        number: 4,
        layer: Layer::Field,
        place,
    }
}

#[test]
fn reads_numbers(rt: HostRuntime) {
    let cases: [(&str, Result<u64, Fault>); 14] = [
        ("0", Ok(0)),
        ("7", Ok(7)),
        ("10", Ok(10)),
        ("1000000", Ok(1_000_000)),
        ("99999999999", Ok(99_999_999_999)),
        ("100000000000", Err(unfit())),
        ("", Err(unfit())),
        ("00", Err(unfit())),
        ("01", Err(unfit())),
        ("-0", Err(unfit())),
        ("-1", Err(unfit())),
        ("+1", Err(unfit())),
        ("1 ", Err(unfit())),
        ("1a", Err(unfit())),
    ];
    for (text, number) in cases {
        assert_eq!(rt; Part::new(text.as_bytes()).number(), number, "{text}");
    }
}

#[test]
fn reads_signed_numbers(rt: HostRuntime) {
    let cases: [(&str, Result<i64, Fault>); 15] = [
        ("0", Ok(0)),
        ("120000", Ok(120_000)),
        ("-10000", Ok(-10_000)),
        ("-1", Ok(-1)),
        ("99999999999", Ok(99_999_999_999)),
        ("-99999999999", Ok(-99_999_999_999)),
        ("-100000000000", Err(unfit())),
        ("100000000000", Err(unfit())),
        ("-0", Err(unfit())),
        ("-", Err(unfit())),
        ("--1", Err(unfit())),
        ("-01", Err(unfit())),
        ("-00", Err(unfit())),
        ("+1", Err(unfit())),
        ("", Err(unfit())),
    ];
    for (text, number) in cases {
        assert_eq!(rt; Part::new(text.as_bytes()).signed(), number, "{text}");
    }
}

#[test]
fn tells_a_number_that_is_out_of_range(rt: HostRuntime) {
    let part = Part::new(b"7");
    assert_eq!(rt; part.within(7, 0, 7), Ok(7));
    assert_eq!(rt; part.within(7, 7, 7), Ok(7));
    let place = Place::Text { line: 1, offset: 0 };
    let outside = Fault {
        number: 5,
        layer: Layer::Field,
        place,
    };
    assert_eq!(rt; part.within(7, 0, 6), Err(outside));
    assert_eq!(rt; part.within(7, 8, 9), Err(outside));
}

fn is_part(rt: &impl Abort, part: Part<'_>, bytes: &[u8], line: usize, offset: usize) {
    assert_eq!(rt; part.bytes(), bytes);
    assert_eq!(rt; part.spot(), Spot { line, offset });
}

#[test]
fn cuts_off_the_first_line(rt: HostRuntime) -> Result<(), Fault> {
    let (line, rest) = Part::new(b"L\nC;0;-1\n").first_line()?;
    is_part(&rt, line, b"L", 1, 0);
    is_part(&rt, rest, b"C;0;-1\n", 2, 2);
    let (line, rest) = rest.first_line()?;
    is_part(&rt, line, b"C;0;-1", 2, 2);
    is_part(&rt, rest, b"", 3, 9);
    let place = Place::Text { line: 3, offset: 9 };
    let open = Fault {
        number: 2,
        layer: Layer::Sheet,
        place,
    };
    assert_eq!(rt; rest.first_line(), Err(open));
    Ok(())
}
