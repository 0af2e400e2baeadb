// Whole runs over bytes in memory. The page was computed apart from the engine.
use super::run;
use std::alloc::{AllocError, Global};
use std::process::Abort;
use std::test::Fail;

// Three states, of which the last is for good, over twelve years that are alike.
fn sheet(heap: Global) -> Result<String, AllocError> {
    let mut text = String::new(heap);
    text.push_str("B;3;12\n")?;
    for year in 0..12 {
        let active = format!(in heap;
            "D;{year};980000\nT;{year};0;0;970000\nT;{year};0;1;20000\nT;{year};0;2;10000\n"
        )?;
        text.push_str(active.as_str())?;
        let disabled = format!(in heap;
            "T;{year};1;0;100000\nT;{year};1;1;880000\nT;{year};1;2;20000\nT;{year};2;2;1000000\n"
        )?;
        text.push_str(disabled.as_str())?;
    }
    text.push_str("E\n")?;
    Ok(text)
}

const PAGE: &str =
    "Endowment of 1000 francs over 12 years, yearly premium of 83.20 francs\n\nyear     state 0     state 1     state 2\n   0        0.00      206.25        0.00\n   1       62.12      232.10        0.00\n   2      127.00      254.70        0.00\n   3      194.87      273.19        0.00\n   4      265.99      286.55        0.00\n   5      340.67      293.56        0.00\n   6      419.24      292.76        0.00\n   7      502.11      282.41        0.00\n   8      589.74      260.46        0.00\n   9      682.66      224.44        0.00\n  10      781.50      171.44        0.00\n  11      887.00       98.00        0.00\n  12     1000.00        0.00        0.00\n";

fn check(rt: &impl Abort, heap: Global, input: &[u8], page: &[u8]) -> Result<(), Fail> {
    let mut written = Vec::new(heap);
    let mut reader = input;
    run(heap, &mut reader, &mut written)?;
    assert_eq!(rt; written.as_slice(), page);
    Ok(())
}

#[test]
fn prints_three_states_over_twelve_years(rt: HostRuntime) -> Result<(), Fail> {
    let text = sheet(rt.alloc())?;
    check(&rt, rt.alloc(), text.as_str().as_bytes(), PAGE.as_bytes())
}

// What stands after the sheet makes no difference, up to 60,000 bytes in all.
#[test]
fn prints_for_60_000_bytes_and_refuses_more(rt: HostRuntime) -> Result<(), Fail> {
    let mut text = sheet(rt.alloc())?;
    for _ in text.len()..60_000 {
        text.push_str("0")?;
    }
    check(&rt, rt.alloc(), text.as_str().as_bytes(), PAGE.as_bytes())?;
    text.push_str("0")?;
    is_refused(&rt, rt.alloc(), text.as_str().as_bytes());
    Ok(())
}

// Nothing is written where a sheet is refused.
#[test]
fn writes_nothing_for_a_refused_sheet(rt: HostRuntime) {
    is_refused(&rt, rt.alloc(), b"");
    is_refused(
        &rt,
        rt.alloc(),
        b"B;3;12\nD;0;980000\nT;0;0;0;970000\nD;1;980000\n",
    );
}

fn is_refused(rt: &impl Abort, heap: Global, input: &[u8]) {
    let mut written = Vec::new(heap);
    let mut reader = input;
    assert!(rt; run(heap, &mut reader, &mut written).is_err());
    assert!(rt; written.is_empty());
}
