// What a sheet is refused with, a table for each rule.
use sheet::read::read;
use std::process::Abort;
use units::fault::{Fault, Layer, Place};

// A text, and the line and the offset of its fault.
type Case = (&'static str, usize, usize);

// Reads into columns for two states and two years, which a refusal leaves as they were.
fn check(rt: &impl Abort, number: u8, layer: Layer, cases: &[Case]) {
    for (text, line, offset) in cases {
        let (mut factors, mut shares) = ([-7; 2], [-7; 8]);
        let place = Place::Text {
            line: *line,
            offset: *offset,
        };
        let fault = Fault {
            number,
            layer,
            place,
        };
        assert_eq!(rt;
            read(text.as_bytes(), &mut factors, &mut shares),
            Err(fault),
            "{text}"
        );
        assert_eq!(rt; (factors, shares), ([-7; 2], [-7; 8]), "{text}");
    }
}

#[test]
fn a_line_ends_within_40_bytes(rt: HostRuntime) {
    let cases: [Case; 7] = [
        ("", 1, 0),
        ("B;2;2", 1, 0),
        ("B;2;2\n", 2, 6),
        ("B;2;2\nD;0;1", 2, 6),
        ("B;2;111111111111111111111111111111111111\n", 1, 0),
        ("B;2;2\nD;0;111111111111111111111111111111111111\n", 2, 6),
        (
            "B;2;2\nD;0;1\nT;0;0;0;1000000\nT;0;1;1;1000000\nD;1;1\nT;1;0;0;1000000\nT;1;1;1;1000000\nE",
            8,
            82,
        ),
    ];
    check(&rt, 2, Layer::Sheet, &cases);
}

#[test]
fn letters_stand_where_they_may_with_their_fields(rt: HostRuntime) {
    let cases: [Case; 35] = [
        ("\n", 1, 0),
        ("X;2;2\n", 1, 0),
        ("b;2;2\n", 1, 0),
        (" B;2;2\n", 1, 0),
        ("BB;2;2\n", 1, 0),
        (";2;2\n", 1, 0),
        ("B\n", 1, 0),
        ("B;2\n", 1, 0),
        ("B;2;2;\n", 1, 0),
        ("B;2;2;2\n", 1, 0),
        ("D;0;1\n", 1, 0),
        ("T;0;0;0;1\n", 1, 0),
        ("E\n", 1, 0),
        ("Q;1;1;1;1\n", 1, 0),
        ("C;0;0\n", 1, 0),
        ("A;1;1;1\n", 1, 0),
        ("L\n", 1, 0),
        ("B;2;2\nB;2;2\n", 2, 6),
        ("B;2;2\nT;0;0;0;1\n", 2, 6),
        ("B;2;2\nE\n", 2, 6),
        ("B;2;2\nD;0\n", 2, 6),
        ("B;2;2\nD;0;1;1\n", 2, 6),
        ("B;2;2\nQ;1;1;1;1\n", 2, 6),
        ("B;2;2\nD;0;1\nT;0;0;0\n", 3, 12),
        ("B;2;2\nD;0;1\nT;0;0;0;1;1\n", 3, 12),
        ("B;2;2\nD;0;1\nE\n", 3, 12),
        ("B;2;2\nD;0;1\nL\n", 3, 12),
        ("B;2;2\nD;0;1\nC;0;0\n", 3, 12),
        ("B;2;2\nD;0;1\nA;1;1;1\n", 3, 12),
        ("B;2;2\nD;0;1\nT;0;0;0;1000000\nT;0;1;1;1000000\nE\n", 5, 44),
        (
            "B;2;2\nD;0;1\nT;0;0;0;1000000\nT;0;1;1;1000000\nD;1;1\nT;1;0;0;1000000\nT;1;1;1;1000000\nD;2;1\n",
            8,
            82,
        ),
        (
            "B;2;2\nD;0;1\nT;0;0;0;1000000\nT;0;1;1;1000000\nD;1;1\nT;1;0;0;1000000\nT;1;1;1;1000000\nE;\n",
            8,
            82,
        ),
        (
            "B;2;2\nD;0;1\nT;0;0;0;1000000\nT;0;1;1;1000000\nD;1;1\nT;1;0;0;1000000\nT;1;1;1;1000000\nE\r\n",
            8,
            82,
        ),
        (
            "B;2;2\nD;0;1\nT;0;0;0;1000000\nT;0;1;1;1000000\nD;1;1\nT;1;0;0;1000000\nT;1;1;1;1000000\nEE\n",
            8,
            82,
        ),
        (
            "B;2;2\nD;0;1\nT;0;0;0;1000000\nT;0;1;1;1000000\nD;1;1\nT;1;0;0;1000000\nT;1;1;1;1000000\n E\n",
            8,
            82,
        ),
    ];
    check(&rt, 3, Layer::Sheet, &cases);
}

#[test]
fn fields_are_numbers(rt: HostRuntime) {
    let cases: [Case; 25] = [
        ("B;;2\n", 1, 2),
        ("B;2;\n", 1, 4),
        ("B;02;2\n", 1, 2),
        ("B;00;2\n", 1, 2),
        ("B;2;00\n", 1, 4),
        ("B;-0;2\n", 1, 2),
        ("B;-2;2\n", 1, 2),
        ("B;+2;2\n", 1, 2),
        ("B; 2;2\n", 1, 2),
        ("B;2;2 \n", 1, 4),
        ("B;2;2\r\n", 1, 4),
        ("B;2;2x\n", 1, 4),
        ("B;x;y\n", 1, 2),
        ("B;999999999999;2\n", 1, 2),
        ("B;9;02\n", 1, 4),
        ("B;2;2\nD;2;x\n", 2, 10),
        ("B;2;2\nD;;0\n", 2, 8),
        ("B;2;2\nD;1;-1\n", 2, 10),
        ("B;2;2\nD;0;1\nT;2;x;0;1\n", 3, 16),
        ("B;2;2\nD;0;1\nT;2;2;-0;1\n", 3, 18),
        ("B;2;2\nD;0;1\nT;2;2;2;01\n", 3, 20),
        ("B;2;2\nD;0;1\nT;;0;0;\n", 3, 14),
        ("B;2;2\nD;0;1\nT;0;0;0;100000000000\n", 3, 20),
        ("B;2;11111111111111111111111111111111111\n", 1, 4),
        ("B;2;2\nD;0;11111111111111111111111111111111111\n", 2, 10),
    ];
    check(&rt, 4, Layer::Field, &cases);
}

#[test]
fn numbers_lie_in_their_ranges(rt: HostRuntime) {
    let cases: [Case; 17] = [
        ("B;9;1\n", 1, 2),
        ("B;1;1\n", 1, 2),
        ("B;0;1\n", 1, 2),
        ("B;2;0\n", 1, 4),
        ("B;2;121\n", 1, 4),
        ("B;9;0\n", 1, 2),
        ("B;99999999999;2\n", 1, 2),
        ("B;2;2\nD;2;1\n", 2, 8),
        ("B;2;2\nD;0;0\n", 2, 10),
        ("B;2;2\nD;0;1000001\n", 2, 10),
        ("B;2;2\nD;2;0\n", 2, 8),
        ("B;2;2\nD;0;1\nT;2;0;0;1\n", 3, 14),
        ("B;2;2\nD;0;1\nT;0;2;0;1\n", 3, 16),
        ("B;2;2\nD;0;1\nT;0;0;2;1\n", 3, 18),
        ("B;2;2\nD;0;1\nT;0;0;0;0\n", 3, 20),
        ("B;2;2\nD;0;1\nT;0;0;0;1000001\n", 3, 20),
        ("B;2;2\nD;0;1\nT;1;2;0;0\n", 3, 16),
    ];
    check(&rt, 5, Layer::Field, &cases);
}

#[test]
fn years_and_pairs_rise(rt: HostRuntime) {
    let cases: [Case; 8] = [
        ("B;2;2\nD;1;1\n", 2, 6),
        ("B;2;2\nD;0;1\nD;0;1\n", 3, 12),
        ("B;2;2\nD;0;1\nT;1;0;0;1\n", 3, 12),
        ("B;2;2\nD;0;1\nT;0;0;0;1\nT;0;0;0;1\n", 4, 22),
        ("B;2;2\nD;0;1\nT;0;0;1;1\nT;0;0;0;1\n", 4, 22),
        ("B;2;2\nD;0;1\nT;0;1;0;1\nT;0;0;1;1\n", 4, 22),
        (
            "B;2;2\nD;0;1\nT;0;0;0;1000000\nT;0;1;1;1000000\nD;0;1\n",
            5,
            44,
        ),
        (
            "B;2;2\nD;0;1\nT;0;0;0;1000000\nT;0;1;1;1000000\nD;1;1\nT;0;0;0;1\n",
            6,
            50,
        ),
    ];
    check(&rt, 7, Layer::Sheet, &cases);
}

#[test]
fn rows_make_the_million(rt: HostRuntime) {
    let cases: [Case; 9] = [
        ("B;2;2\nD;0;1\nD;1;1\n", 3, 12),
        ("B;2;2\nD;0;1\nT;0;0;0;1000000\nD;1;1\n", 4, 28),
        ("B;2;2\nD;0;1\nT;0;1;1;1000000\nD;1;1\n", 4, 28),
        (
            "B;2;2\nD;0;1\nT;0;0;0;999999\nT;0;1;1;1000000\nD;1;1\n",
            5,
            43,
        ),
        (
            "B;2;2\nD;0;1\nT;0;0;0;1000000\nT;0;0;1;1\nT;0;1;1;1000000\nD;1;1\n",
            6,
            54,
        ),
        ("B;2;1\nD;0;1\nE\n", 3, 12),
        ("B;2;1\nD;0;1\nT;0;0;0;1000000\nE\n", 4, 28),
        ("B;2;1\nD;0;1\nT;0;0;0;1000000\nT;0;1;1;999999\nE\n", 5, 43),
        (
            "B;2;2\nD;0;1\nT;0;0;0;1000000\nT;0;1;1;1000000\nD;1;1\nT;1;0;0;1000000\nT;1;1;0;1\nE\n",
            8,
            76,
        ),
    ];
    check(&rt, 8, Layer::Sheet, &cases);
}

#[test]
fn columns_are_long_enough(rt: HostRuntime) {
    let place = Place::Text { line: 1, offset: 0 };
    let short = Fault {
        number: 6,
        layer: Layer::Sheet,
        place,
    };
    let mut factors = [-7; 2];
    let mut shares = [-7; 8];
    let cases: [(&str, usize, usize); 5] = [
        ("B;2;2\n", 1, 8),
        ("B;2;2\n", 2, 7),
        ("B;2;2\n", 0, 0),
        ("B;3;1\n", 2, 8),
        ("B;8;120\n", 2, 8),
    ];
    for (text, years, places) in cases {
        let answer = read(
            text.as_bytes(),
            &mut factors[..years],
            &mut shares[..places],
        );
        assert_eq!(rt; answer, Err(short), "{text}");
    }
    let range = Fault {
        number: 5,
        layer: Layer::Field,
        place: Place::Text { line: 1, offset: 2 },
    };
    assert_eq!(rt;
        read(b"B;9;1\n", &mut factors[..0], &mut shares[..0]),
        Err(range)
    );
    assert_eq!(rt; (factors, shares), ([-7; 2], [-7; 8]));
}
