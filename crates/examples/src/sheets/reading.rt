// Sheets that are read.
use sheet::read::read;
use std::alloc::Global;
use std::test::Fail;
use units::fault::{Fault, Layer, Place};

const TWO_YEARS: &str =
    "B;2;2\nD;0;900000\nT;0;0;0;900000\nT;0;0;1;100000\nT;0;1;1;1000000\nD;1;900000\nT;1;0;0;800000\nT;1;0;1;200000\nT;1;1;1;1000000\nE\nQ;1000000;2;2;0\n";

#[test]
fn reads_a_sheet_and_leaves_the_rest(rt: HostRuntime) -> Result<(), Fail> {
    let mut factors = [-7; 3];
    let mut shares = [-7; 9];
    let reading = read(TWO_YEARS.as_bytes(), &mut factors, &mut shares)?;
    assert_eq!(rt; (reading.states, reading.years), (2, 2));
    assert_eq!(rt; reading.rest.bytes(), b"Q;1000000;2;2;0\n".as_slice());
    let spot = reading.rest.spot();
    assert_eq!(rt; (spot.line, spot.offset), (11, 122));
    assert_eq!(rt; factors, [900_000, 900_000, -7]);
    assert_eq!(rt;
        shares,
        [
            900_000, 100_000, 0, 1_000_000, 800_000, 200_000, 0, 1_000_000, -7
        ]
    );
    Ok(())
}

// The most states and years are good, so the next line is what is missing.
#[test]
fn takes_the_most_states_and_years(rt: HostRuntime) {
    let mut factors = [-7; 120];
    let mut shares = [-7; 7680];
    let cases: [(&str, usize, usize); 5] = [
        ("B;8;120\n", 2, 8),
        ("B;2;1\n", 2, 6),
        ("B;8;120\nD;0;1\n", 3, 14),
        ("B;8;120\nD;0;1000000\n", 3, 20),
        ("B;8;120\nD;0;1\nT;0;7;7;1000000\n", 4, 30),
    ];
    for (text, line, offset) in cases {
        let place = Place::Text { line, offset };
        let fault = Fault {
            number: 2,
            layer: Layer::Sheet,
            place,
        };
        assert_eq!(rt;
            read(text.as_bytes(), &mut factors, &mut shares),
            Err(fault),
            "{text}"
        );
    }
}

// The share at a place of the column: another for every move, and a million in all in a row of eight.
fn share(place: u32) -> i64 {
    if place % 8 < 7 {
        i64::from(place) + 1
    } else {
        1_000_021 - 7 * i64::from(place)
    }
}

fn factor(year: u32) -> i64 {
    1_000_000 - 1_000 * i64::from(year)
}

// A sheet of the most states and years, with these factors and shares.
fn full_sheet(heap: Global) -> Result<String, Fail> {
    let mut text = String::new(heap);
    write!(text, "B;8;120\n")?;
    for place in 0..7680u32 {
        let (t, i, j) = (place / 64, place / 8 % 8, place % 8);
        let (v, p) = (factor(t), share(place));
        if place % 64 == 0 {
            write!(text, "D;{t};{v}\n")?;
        }
        write!(text, "T;{t};{i};{j};{p}\n")?;
    }
    write!(text, "E\n")?;
    Ok(text)
}

#[test]
fn reads_a_full_sheet_back(rt: HostRuntime) -> Result<(), Fail> {
    let text = full_sheet(rt.alloc())?;
    let mut factors = [-7; 121];
    let mut shares = [-7; 7681];
    let reading = read(text.as_str().as_bytes(), &mut factors, &mut shares)?;
    assert_eq!(rt;
        (reading.states, reading.years, reading.rest.bytes().len()),
        (8, 120, 0)
    );
    for t in 0..120u32 {
        assert_eq!(rt; factors[t as usize], factor(t));
    }
    for place in 0..7680u32 {
        assert_eq!(rt; shares[place as usize], share(place));
    }
    assert_eq!(rt; (factors[120], shares[7680]), (-7, -7));
    Ok(())
}
