//! The tests: each runs the cases of some texts.
use crate::runner::pass;
use acas_rows::{
    ADVISORIES, AUDITS, BOUNDS, BOXES, CALLS, CHANGED_BITS, CLEAR_CELLS, COUNTS, DAMAGES,
    DOCUMENTS, DRILLS, ENTRIES, FAILING, HEADERS, MANOEUVRES, MIGRATIONS, NUMBERS, OUTSIDES,
    REPLAYS, RISKS, STORED, VALUES, WORDS,
};

#[test]
fn words_and_documents(rt: HostRuntime) {
    pass(&rt, rt.alloc(), WORDS);
    pass(&rt, rt.alloc(), DOCUMENTS);
    pass(&rt, rt.alloc(), ADVISORIES);
    pass(&rt, rt.alloc(), NUMBERS);
}

#[test]
fn values_and_stored_tables(rt: HostRuntime) {
    pass(&rt, rt.alloc(), VALUES);
    pass(&rt, rt.alloc(), STORED);
    pass(&rt, rt.alloc(), BOUNDS);
    pass(&rt, rt.alloc(), MIGRATIONS);
}

#[test]
fn refused_tables(rt: HostRuntime) {
    pass(&rt, rt.alloc(), HEADERS);
    pass(&rt, rt.alloc(), ENTRIES);
}

#[test]
fn changed_bits(rt: HostRuntime) {
    pass(&rt, rt.alloc(), CHANGED_BITS);
}

#[test]
fn verdicts(rt: HostRuntime) {
    pass(&rt, rt.alloc(), AUDITS);
    pass(&rt, rt.alloc(), BOXES);
    pass(&rt, rt.alloc(), MANOEUVRES);
    pass(&rt, rt.alloc(), CLEAR_CELLS);
}

#[test]
fn risks_replays_and_drills(rt: HostRuntime) {
    pass(&rt, rt.alloc(), RISKS);
    pass(&rt, rt.alloc(), REPLAYS);
    pass(&rt, rt.alloc(), DRILLS);
}

#[test]
fn counts_and_failing_calls(rt: HostRuntime) {
    pass(&rt, rt.alloc(), COUNTS);
    pass(&rt, rt.alloc(), FAILING);
}

#[test]
fn each_call_of_each_form(rt: HostRuntime) {
    pass(&rt, rt.alloc(), CALLS);
}

#[test]
fn each_file_and_output_of_each_form(rt: HostRuntime) {
    pass(&rt, rt.alloc(), OUTSIDES);
}

#[test]
fn each_damage_of_a_table_under_each_form(rt: HostRuntime) {
    pass(&rt, rt.alloc(), DAMAGES);
}
