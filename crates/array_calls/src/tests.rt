use crate::{ArrayFormula, Draw, FormulaRefusal, Outcome, assignments, assignments_by_rounds};
use std::process::Abort;
use std::test::Fail;

// (1 or 2) and (not 1 or 3). If both were false, 1 would have two values.
static EXTREMAL: [i32; 6] = [1, 2, 0, -1, 3, 0];
// (1 or 2) and (2 or 3). Both are false if all three variables are.
static CLASHING: [i32; 6] = [1, 2, 0, 2, 3, 0];

#[test]
fn rows_have_assignments(rt: HostRuntime) -> Result<(), Fail> {
    let mut values = [2u8; 12];
    let mut useds = [0u32; 12];
    let mut counts = [9u64; 8];
    let asked = ArrayFormula {
        variables: 3,
        literals: &EXTREMAL,
    };
    let draw = Draw {
        key: [7; 32],
        height: 1000,
        first: 0,
        from: &[],
        budget: u64::MAX,
    };
    match assignments(
        rt.alloc(),
        asked,
        draw,
        &mut values,
        &mut useds,
        &mut counts,
    ) {
        Ok(Outcome::Samples) => {}
        _ => assert!(rt; false, "no samples"),
    }
    for j in 0..4 {
        let (a, b, c) = (values[3 * j], values[3 * j + 1], values[3 * j + 2]);
        assert!(rt; a < 2 && b < 2 && c < 2 && (a == 1 || b == 1) && (a == 0 || c == 1));
    }
    Ok(())
}

#[test]
fn rounds_take_clauses_that_clash(rt: HostRuntime) -> Result<(), Fail> {
    let mut values = [2u8; 12];
    let mut useds = [0u32; 12];
    let mut counts = [9u64; 8];
    let asked = ArrayFormula {
        variables: 3,
        literals: &CLASHING,
    };
    let draw = Draw {
        key: [7; 32],
        height: 1000,
        first: 0,
        from: &[],
        budget: u64::MAX,
    };
    match assignments_by_rounds(
        rt.alloc(),
        asked,
        draw,
        &mut values,
        &mut useds,
        &mut counts,
    ) {
        Ok(Outcome::Samples) => {}
        _ => assert!(rt; false, "no samples"),
    }
    for j in 0..4 {
        let (a, b, c) = (values[3 * j], values[3 * j + 1], values[3 * j + 2]);
        assert!(rt; a < 2 && b < 2 && c < 2 && (a == 1 || b == 1) && (b == 1 || c == 1));
    }
    Ok(())
}

#[test]
fn popping_refuses_clauses_that_clash(rt: HostRuntime) -> Result<(), Fail> {
    let mut values = [2u8; 3];
    let mut useds = [0u32; 3];
    let mut counts = [9u64; 2];
    let asked = ArrayFormula {
        variables: 3,
        literals: &CLASHING,
    };
    let draw = Draw {
        key: [7; 32],
        height: 1000,
        first: 0,
        from: &[],
        budget: u64::MAX,
    };
    match assignments(
        rt.alloc(),
        asked,
        draw,
        &mut values,
        &mut useds,
        &mut counts,
    ) {
        Err(FormulaRefusal::Clash(1, 2)) => {}
        _ => assert!(rt; false, "no clash"),
    }
    Ok(())
}
