//! The rows of the hierarchy table of a small store, with bytes of its block changed.

use super::*;
use pst_make::{Plan, build, m1_plan, set};
use pst_value_json::check_tc;

// Bytes set from an offset of the table's block on.
type Change = (usize, &'static [u8]);

// The second column, and that the row has a cell in it but not in the first.
const NEXT: usize = 42;

const ONES: usize = 74;

// Changes, and the rows that are then shown.
const ROWS: [(&[Change], &str); 7] = [
    (
        &[],
        "[{\"cells\":[{\"tag\":\"67F20003\",\"value\":322},{\"tag\":\"36020003\",\"value\":7}],\"row\":\"0x142\"}]",
    ),
    (
        &[(ONES, &[0x80])],
        "[{\"cells\":[{\"tag\":\"67F20003\",\"value\":322}],\"row\":\"0x142\"}]",
    ),
    // A tag that the first column has, whether the row has a cell in it or not.
    (
        &[(NEXT, &[3, 0, 0xf2, 0x67])],
        "[{\"cells\":[{\"tag\":\"67F20003\",\"value\":322}],\"row\":\"0x142\"}]",
    ),
    (
        &[(NEXT, &[3, 0, 0xf2, 0x67]), (ONES, &[0x40])],
        "[{\"cells\":[],\"row\":\"0x142\"}]",
    ),
    // A number of 2 bytes in 4, and a type that is not listed.
    (
        &[(NEXT, &[2]), (ONES, &[0x40])],
        "[{\"cells\":[{\"tag\":\"36020002\",\"value\":\"07000000\"}],\"row\":\"0x142\"}]",
    ),
    (
        &[(NEXT, &[0]), (ONES, &[0x40])],
        "[{\"cells\":[{\"tag\":\"36020000\",\"value\":\"07000000\"}],\"row\":\"0x142\"}]",
    ),
    // No row.
    (&[(26, &[0]), (54, &[0])], "[]"),
];

fn change_block<R: Abort>(rt: &R, plan: &mut Plan, changes: &[Change]) {
    let Some(found) = plan.blocks.get_mut(2) else {
        rt.panic("no block");
    };
    for (at, bytes) in changes {
        set(&mut found.body, *at, bytes).expect(rt, "past the end");
    }
}

fn are_shown<R: Abort>(rt: &R, alloc: Global, changes: &[Change], shown: &str) {
    let mut plan = m1_plan(alloc).expect(rt, MEMORY);
    change_block(rt, &mut plan, changes);
    let image = build(alloc, &plan).expect(rt, "not made");
    let Ok(tc) = check_tc(node_of(rt, alloc, &image, 0x12d)) else {
        rt.panic("no table");
    };
    let doc = table_doc(alloc, &tc, false).expect(rt, MEMORY);
    is_shown(rt, alloc, &doc, shown);
}

fn all_are_shown<R: Abort>(rt: &R, alloc: Global, rows: &[(&[Change], &str)]) {
    for (changes, shown) in rows {
        are_shown(rt, alloc, changes, shown);
    }
}

#[test]
fn rows_are_shown(rt: HostRuntime) {
    all_are_shown(&rt, rt.alloc(), &ROWS);
}
