// Lines that are commands, and what others are refused with.
use desk::command::{Command, command_of};
use plan::endowment::Endowment;
use sheet::part::Part;
use std::process::Abort;
use std::test::Fail;
use units::fault::{Fault, Layer, Place};

fn fault(number: u8, layer: Layer, line: usize, offset: usize) -> Fault {
    let place = Place::Text { line, offset };
    Fault {
        number,
        layer,
        place,
    }
}

// Lines and the offsets of their faults, on a basis of three years.
fn check(rt: &impl Abort, number: u8, layer: Layer, cases: &[(&str, usize)]) {
    for (text, offset) in cases {
        let line = Part::new(text.as_bytes());
        let expected = fault(number, layer, 1, *offset);
        assert_eq!(rt; command_of(line, 3), Err(expected), "{text}");
    }
}

fn is_read(rt: &impl Abort, text: &str, command: Command) {
    let line = Part::new(text.as_bytes());
    assert_eq!(rt; command_of(line, 3), Ok(command), "{text}");
}

#[test]
fn reads_each_command(rt: HostRuntime) -> Result<(), Fail> {
    let most = Endowment::new(10_000_000_000, 3, 3)?;
    let least = Endowment::new(0, 1, 0)?;
    let issues = [
        ("Q;10000000000;3;3;10000000000", most, 10_000_000_000),
        ("Q;0;1;0;0", least, 0),
    ];
    for (text, plan, deposit) in issues {
        is_read(&rt, text, Command::Issue { plan, deposit });
    }
    for (text, plan) in [("A;10000000000;3;3", most), ("A;0;1;0", least)] {
        is_read(&rt, text, Command::Alter { plan });
    }
    is_read(&rt, "L", Command::Leave);
    Ok(())
}

#[test]
fn reads_each_closing(rt: HostRuntime) {
    let closings = [
        ("C;0;0", 0, 0),
        ("C;7;-1", 7, -1),
        ("C;1;500001", 1, 500_001),
        ("C;1;99999999999", 1, 99_999_999_999),
        ("C;1;-99999999999", 1, -99_999_999_999),
    ];
    for (text, state, rate) in closings {
        is_read(&rt, text, Command::Close { state, rate });
    }
}

#[test]
fn a_command_has_its_letter_and_its_fields(rt: HostRuntime) {
    let cases = [
        ("", 0),
        ("X", 0),
        ("q;1;1;0;0", 0),
        ("LL", 0),
        ("L;", 0),
        ("Q;1;1;0", 0),
        ("Q;1;1;0;0;0", 0),
        ("C;1", 0),
        ("C;1;0;0", 0),
        ("A;1;1", 0),
        ("A;1;1;0;0", 0),
        ("B;2;1", 0),
        ("D;0;1", 0),
        ("T;0;0;0;1", 0),
        ("E", 0),
    ];
    check(&rt, 3, Layer::Sheet, &cases);
}

#[test]
fn fields_are_numbers_before_ranges(rt: HostRuntime) {
    let cases = [
        ("Q;;1;0;0", 2),
        ("Q;01;1;0;0", 2),
        ("Q;-1;1;0;0", 2),
        ("Q;99999999999;4;5;100000000000", 18),
        ("Q;1;0;9;x", 8),
        ("C;-0;0", 2),
        ("C;8;-0", 4),
        ("C;8;-", 4),
        ("C;8;-01", 4),
        ("C;8;+1", 4),
        ("C;8;100000000000", 4),
        ("C;8;-100000000000", 4),
        ("A;1;-0;0", 4),
        ("A;1;1; 0", 6),
    ];
    check(&rt, 4, Layer::Field, &cases);
}

#[test]
fn numbers_lie_in_their_ranges(rt: HostRuntime) {
    let cases = [
        ("Q;10000000001;1;0;0", 2),
        ("Q;1;0;0;0", 4),
        ("Q;1;4;0;0", 4),
        ("Q;1;4;5;0", 4),
        ("Q;1;3;4;0", 6),
        ("Q;1;1;0;10000000001", 8),
        ("C;8;0", 2),
        ("A;10000000001;1;0", 2),
        ("A;1;4;0", 4),
        ("A;1;0;0", 4),
        ("A;1;2;3", 6),
    ];
    check(&rt, 5, Layer::Field, &cases);
}

// No term goes beyond the years of the basis, nor beyond 120.
#[test]
fn a_term_goes_up_to_the_last_year(rt: HostRuntime) {
    let cases: [(&str, usize, bool); 6] = [
        ("A;1;120;0", 120, true),
        ("A;1;120;0", 119, false),
        ("A;1;120;0", usize::MAX, true),
        ("A;1;121;0", usize::MAX, false),
        ("A;1;1;0", 1, true),
        ("A;1;1;0", 0, false),
    ];
    for (text, years, taken) in cases {
        let answer = command_of(Part::new(text.as_bytes()), years);
        assert_eq!(rt; answer.is_ok(), taken, "{text} {years}");
    }
}

#[test]
fn faults_stand_in_their_line(rt: HostRuntime) -> Result<(), Fault> {
    let (_, rest) = Part::new(b"L\nC;8;0\n").first_line()?;
    let (line, _) = rest.first_line()?;
    assert_eq!(rt; command_of(line, 3), Err(fault(5, Layer::Field, 2, 4)));
    Ok(())
}
