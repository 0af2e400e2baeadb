// Whole inputs, and what the desk answers to them.
use desk::session::Session;
use std::alloc::Global;
use std::process::Abort;
use std::test::Fail;
use streams::input::read_input;
use streams::output::write_whole;

// Ten lines of 122 bytes: commands begin at line 11, offset 122. No move leads from state 1 to
// state 0.
const SHEET: &str =
    "B;2;2\nD;0;900000\nT;0;0;0;900000\nT;0;0;1;100000\nT;0;1;1;1000000\nD;1;900000\nT;1;0;0;800000\nT;1;0;1;200000\nT;1;1;1;1000000\nE\n";

// Commands on the sheet, and the lines that answer them.
type Case = (&'static str, &'static str);

fn check(rt: &impl Abort, heap: Global, cases: &[Case]) -> Result<(), Fail> {
    let mut session = Session::new(heap)?;
    for (commands, lines) in cases {
        let input = format!(in heap; "{SHEET}{commands}")?;
        assert_eq!(rt;
            session.answer(input.as_str().as_bytes()),
            *lines,
            "{commands}"
        );
    }
    Ok(())
}

#[test]
fn answers_a_sheet_and_its_commands(rt: HostRuntime) -> Result<(), Fail> {
    let input =
        b"B;2;2\nD;0;900000\nT;0;0;0;900000\nT;0;0;1;100000\nT;0;1;1;1000000\nD;1;900000\nT;1;0;0;800000\nT;1;0;1;200000\nT;1;1;1;1000000\nE\nQ;1000000;2;2;0\nC;0;120000\nC;1;-10000\nC;1;0\nL\n";
    let mut session = Session::new(rt.alloc())?;
    assert_eq!(rt;
        session.answer(input),
        "issue;452487;-1;1\nclose;1;0;4022;55249;447513\nclose;2;1;-109000;0;0\nrefused;16;14;160\nleave;0;0\n"
    );
    Ok(())
}

// Nothing is left in a session of the input before: neither its basis nor its contract.
#[test]
fn answers_one_input_after_another(rt: HostRuntime) -> Result<(), Fail> {
    let mut session = Session::new(rt.alloc())?;
    let input = format!(in rt.alloc(); "{SHEET}Q;1000000;2;2;0\n")?;
    let held = session.answer(input.as_str().as_bytes());
    assert_eq!(rt; held, "issue;452487;-1;1\n");
    assert_eq!(rt; session.answer(b"L\n"), "refused;3;1;0\n");
    let other =
        b"B;2;1\nD;0;1000000\nT;0;0;0;1000000\nT;0;1;1;1000000\nE\nL\nQ;7;2;0;0\nQ;7;1;1;0\n";
    assert_eq!(rt;
        session.answer(other),
        "refused;13;6;52\nrefused;5;7;58\nissue;7;0;0\n"
    );
    Ok(())
}

#[test]
fn answers_nothing_without_commands(rt: HostRuntime) -> Result<(), Fail> {
    check(&rt, rt.alloc(), &[("", "")])
}

// Nothing is answered after a refused sheet.
#[test]
fn stops_at_a_refused_sheet(rt: HostRuntime) -> Result<(), Fail> {
    let cases = [
        ("", "refused;2;1;0\n"),
        ("B;2;2\nD;0;1", "refused;2;2;6\n"),
        ("Q;1000000;2;2;0\nL\n", "refused;3;1;0\n"),
        ("B;02;2\nL\n", "refused;4;1;2\n"),
        ("B;9;1\nQ;1000000;2;2;0\nL\n", "refused;5;1;2\n"),
        ("B;2;121\n", "refused;5;1;4\n"),
        ("B;2;2\nD;1;1\nL\n", "refused;7;2;6\n"),
        (
            "B;2;1\nD;0;1\nT;0;0;0;1000000\nE\nQ;1;1;0;0\n",
            "refused;8;4;28\n",
        ),
    ];
    let mut session = Session::new(rt.alloc())?;
    for (input, line) in cases {
        assert_eq!(rt; session.answer(input.as_bytes()), line, "{input}");
    }
    Ok(())
}

// Nothing is answered after a line without a line feed in its first 40 bytes; one of 40 bytes is
// only no command.
#[test]
fn stops_at_a_line_that_does_not_end(rt: HostRuntime) -> Result<(), Fail> {
    check(
        &rt,
        rt.alloc(),
        &[
            (
                "Q;1000000;2;2;0\nL",
                "issue;452487;-1;1\nrefused;2;12;138\n",
            ),
            (
                "Q;1000000;2;2;0\n1111111111111111111111111111111111111111\nL\n",
                "issue;452487;-1;1\nrefused;2;12;138\n",
            ),
            (
                "Q;1000000;2;2;0\n111111111111111111111111111111111111111\nL\n",
                "issue;452487;-1;1\nrefused;3;12;138\nleave;0;-1\n",
            ),
        ],
    )
}

#[test]
fn goes_on_after_a_line_that_is_no_command(rt: HostRuntime) -> Result<(), Fail> {
    check(
        &rt,
        rt.alloc(),
        &[
            (
                "\nX\nB;2;2\nQ;1;1;0\nL;\nQ;1000000;2;2;0\nC;0\nE\nL\n",
                "refused;3;11;122\nrefused;3;12;123\nrefused;3;13;125\nrefused;3;14;131\nrefused;3;15;139\nissue;452487;-1;1\nrefused;3;17;158\nrefused;3;18;162\nleave;0;-1\n",
            ),
            (
                "Q;01;1;0;0\nQ;1;1;0;-1\nQ;1000000;2;2;0\nC;0;-0\nC;8;+1\nA;1;1;100000000000\n",
                "refused;4;11;124\nrefused;4;12;141\nissue;452487;-1;1\nrefused;4;14;164\nrefused;4;15;171\nrefused;4;16;180\n",
            ),
            (
                "Q;10000000001;1;0;0\nQ;1;3;0;0\nQ;1;2;3;0\nC;8;0\nQ;1000000;2;2;0\nC;8;1\nA;1;0;0\n",
                "refused;5;11;124\nrefused;5;12;146\nrefused;5;13;158\nrefused;5;14;164\nissue;452487;-1;1\nrefused;5;16;186\nrefused;5;17;194\n",
            ),
        ],
    )
}

#[test]
fn holds_one_contract_at_a_time(rt: HostRuntime) -> Result<(), Fail> {
    check(
        &rt,
        rt.alloc(),
        &[
            (
                "C;0;0\nA;1;1;0\nL\nQ;1000000;2;2;0\nQ;1000000;2;2;0\nL\nL\n",
                "refused;13;11;122\nrefused;13;12;128\nrefused;13;13;136\nissue;452487;-1;1\nrefused;13;15;154\nleave;0;-1\nrefused;13;17;172\n",
            ),
            (
                "Q;1000000;2;2;0\nL\nQ;500000;1;1;0\nC;1;0\n",
                "issue;452487;-1;1\nleave;0;-1\nissue;450000;0;0\nclose;1;0;-50000;0;0\n",
            ),
        ],
    )
}

// What a contract refuses is told at the first byte of the line. Refusal 21 is out of reach: of
// 9,999 numbers at most 120 go to closings, as many as there are years, and the shortest alteration
// has 8 bytes, so that they take more than the 60,000 of an input.
#[test]
fn tells_what_a_contract_refuses(rt: HostRuntime) -> Result<(), Fail> {
    check(
        &rt,
        rt.alloc(),
        &[
            (
                "Q;1000000;2;2;0\nC;0;0\nC;0;0\nC;0;0\nC;7;500001\n",
                "issue;452487;-1;1\nclose;1;0;-50276;55249;447513\nclose;2;1;-100000;0;1000000\nrefused;16;14;150\nrefused;16;15;156\n",
            ),
            (
                "Q;1000000;2;2;0\nC;2;0\nC;7;500001\n",
                "issue;452487;-1;1\nrefused;17;12;138\nrefused;17;13;144\n",
            ),
            (
                "Q;1000000;2;2;0\nC;0;500001\nC;0;-500001\nC;0;500000\nC;0;-500000\n",
                "issue;452487;-1;1\nrefused;18;12;138\nrefused;18;13;149\nclose;1;0;175967;55249;447513\nclose;2;1;-550000;0;1000000\n",
            ),
            (
                "Q;1000000;2;2;0\nC;1;0\nC;0;0\nC;1;0\n",
                "issue;452487;-1;1\nclose;1;0;-50276;-497238;0\nrefused;19;13;144\nclose;2;1;0;0;0\n",
            ),
            (
                "Q;1000000;2;0;0\nL\n",
                "refused;20;11;122\nrefused;13;12;138\n",
            ),
            (
                "Q;1000000;2;2;0\nC;0;120000\nA;1000000;2;1\nL\n",
                "issue;452487;-1;1\nclose;1;0;4022;55249;447513\nrefused;20;13;149\nleave;447513;0\n",
            ),
        ],
    )
}

#[test]
fn tells_an_alteration(rt: HostRuntime) -> Result<(), Fail> {
    check(
        &rt,
        rt.alloc(),
        &[
            (
                "Q;1000000;2;2;0\nC;0;120000\nA;500000;2;2\nA;100000;2;2\nL\n",
                "issue;452487;-1;1\nclose;1;0;4022;55249;447513\nalter;2;2487;447513;0\nalter;3;0;90000;357513\nleave;90000;0\n",
            ),
            (
                "Q;1000000;2;2;500000\nA;900000;1;1\nL\n",
                "issue;176243;500000;0\nalter;1;310000;500000;0\nleave;500000;0\n",
            ),
        ],
    )
}

// What is read, answered and written behind what was written; and what is left to read.
fn is_passed_on(
    rt: &impl Abort,
    heap: Global,
    input: &[u8],
    written: &[u8],
    left: &[u8],
) -> Result<(), Fail> {
    let mut session = Session::new(heap)?;
    let mut reader = input;
    let mut writer = Vec::from_slice(heap, b"before\n")?;
    let read = read_input(heap, &mut reader)?;
    write_whole(&mut writer, session.answer(&read).as_bytes())?;
    assert_eq!(rt; writer.as_slice(), written);
    assert_eq!(rt; reader, left);
    Ok(())
}

// Commands up to 60,000 bytes are answered: of the last line, that it does not end. A byte more is
// refused, and no byte after that is read.
#[test]
fn passes_on_60_000_bytes_and_refuses_more(rt: HostRuntime) -> Result<(), Fail> {
    let mut input = Vec::new(rt.alloc());
    input.extend_from_slice(SHEET.as_bytes())?;
    input.extend_from_slice(b"Q;1000000;2;2;0\n")?;
    let rest = [b'1'].repeat(rt.alloc(), 60_000 - 138)?;
    input.extend_from_slice(&rest)?;
    let answer = b"before\nissue;452487;-1;1\nrefused;2;12;138\n";
    is_passed_on(&rt, rt.alloc(), &input, answer, b"")?;
    input.extend_from_slice(b"123")?;
    is_passed_on(&rt, rt.alloc(), &input, b"before\nrefused;1;1;0\n", b"23")?;
    is_passed_on(&rt, rt.alloc(), b"L\n", b"before\nrefused;3;1;0\n", b"")
}
