// Sheets that are read into a table.
use basis::Basis;
use basis::table::TransitionTable;
use sheet::table::read_into;
use std::test::Fail;
use units::fault::{Fault, Layer, Place};

#[test]
fn reads_a_table_and_leaves_the_rest(rt: HostRuntime) -> Result<(), Fail> {
    let text = b"B;2;1\nD;0;900000\nT;0;0;0;900000\nT;0;0;1;100000\nT;0;1;1;1000000\nE\nL\n";
    let mut table = TransitionTable::new(rt.alloc())?;
    let rest = read_into(&mut table, text)?;
    assert_eq!(rt; (table.states(), table.years()), (2, 1));
    assert_eq!(rt; table.factor(0), 900_000);
    assert_eq!(rt; (table.share(0, 1, 0), table.share(1, 0, 0)), (100_000, 0));
    let spot = rest.spot();
    assert_eq!(rt;
        (rest.bytes(), spot.line, spot.offset),
        (b"L\n".as_slice(), 7, 65)
    );
    Ok(())
}

#[test]
fn keeps_the_table_where_a_sheet_is_refused(rt: HostRuntime) -> Result<(), Fail> {
    let fault = Fault {
        number: 5,
        layer: Layer::Field,
        place: Place::Text { line: 1, offset: 2 },
    };
    let mut table = TransitionTable::new(rt.alloc())?;
    let columns = [1_000_000, 0, 0, 0, 1_000_000, 0, 0, 0, 1_000_000];
    table.take_in(3, 1, &[900_000], &columns)?;
    assert_eq!(rt; read_into(&mut table, b"B;9;1\n"), Err(fault));
    assert_eq!(rt; (table.states(), table.factor(0)), (3, 900_000));
    Ok(())
}
