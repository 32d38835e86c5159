//! Jobs that are run to their end, and what they write, replayed. What they give was worked out by
//! hand; only the text of the twelve processors was written by an interpreter of its own, and then
//! held against what each look-up, sum and store of that job must give.
use crate::asking::{REPLAY, RUN, Row, answered, whole};
use crate::jobs_bytes::{BYTES_IN_A_ROW, NO_SUCH_SIZE, SIXTY_FIVE_PLACES, STORED_BYTES};
use crate::jobs_memory::{LOOK_UP, LOOSE, NOTHING, UNIFORM_WORDS, UNIFORMS};
use crate::jobs_twelve::TWELVE;
use crate::jobs_units::{CARRIES, NEIGHBOUR, PACKS, PASSED_BY, ROTATIONS};
use crate::jobs_vpm::{
    ALL_READ, DOWN_AND_ACROSS, LOAD, SETUPS_FULL, STORE_OF_64, STORE_OF_128, STORE_PAST_MEMORY,
};
use crate::jobs_waits::{
    BOTH_WAIT, ENDS_WITHOUT_A_STEP, FIFTEEN, HANDED_OVER, MUTEX_KEPT, NO_STEP, ROUND_AND_ROUND,
};
use std::alloc::{AllocError, Global};
use std::test::Fail;

/// The report at the end of a text.
fn report_of(rest: &str) -> &str {
    match rest.find("report\nqpu ") {
        Some(at) => rest.get(at..).unwrap_or(""),
        None => rest
            .get(rest.find("report\nmem ").unwrap_or(0)..)
            .unwrap_or(""),
    }
}

/// Whether a record is replayed to a report, with the status of its run.
fn replays(alloc: Global, record: &[u8], row: &Row) -> Result<bool, AllocError> {
    let answer = answered(alloc, &REPLAY, record, &[], &[])?;
    Ok(answer.status == row.status && answer.text.as_slice() == report_of(row.rest).as_bytes())
}

/// Whether the run of a row's job answers as the row says, and what it writes is replayed, with its
/// report and without.
fn holds(alloc: Global, row: &Row) -> Result<bool, AllocError> {
    let answer = answered(alloc, &RUN, row.job.as_bytes(), &[], &[])?;
    let text = whole(alloc, row)?;
    let end = text.len().saturating_sub(report_of(row.rest).len());
    let record = text.get(..end).unwrap_or(b"");
    Ok(
        answer.status == row.status
            && answer.text.as_slice() == text.as_slice()
            && replays(alloc, &text, row)?
            && replays(alloc, record, row)?,
    )
}

#[test]
fn units_flags_packing_and_rotation(rt: HostRuntime) -> Result<(), Fail> {
    let alloc = rt.alloc();
    assert!(rt; holds(alloc, &CARRIES)?);
    assert!(rt; holds(alloc, &ROTATIONS)?);
    assert!(rt; holds(alloc, &PACKS)?);
    Ok(())
}

#[test]
fn the_word_before_is_the_one_executed_before(rt: HostRuntime) -> Result<(), Fail> {
    let alloc = rt.alloc();
    assert!(rt; holds(alloc, &NEIGHBOUR)?);
    assert!(rt; holds(alloc, &PASSED_BY)?);
    Ok(())
}

#[test]
fn memory_is_read_by_uniforms_and_look_ups(rt: HostRuntime) -> Result<(), Fail> {
    let alloc = rt.alloc();
    assert!(rt; holds(alloc, &NOTHING)?);
    assert!(rt; holds(alloc, &LOOSE)?);
    assert!(rt; holds(alloc, &UNIFORMS)?);
    assert!(rt; holds(alloc, &UNIFORM_WORDS)?);
    assert!(rt; holds(alloc, &LOOK_UP)?);
    Ok(())
}

#[test]
fn elements_of_8_bits_lie_side_by_side_or_in_lanes(rt: HostRuntime) -> Result<(), Fail> {
    let alloc = rt.alloc();
    assert!(rt; holds(alloc, &BYTES_IN_A_ROW)?);
    assert!(rt; holds(alloc, &STORED_BYTES)?);
    assert!(rt; holds(alloc, &NO_SUCH_SIZE)?);
    assert!(rt; holds(alloc, &SIXTY_FIVE_PLACES)?);
    Ok(())
}

#[test]
fn vectors_are_read_while_a_setup_lasts(rt: HostRuntime) -> Result<(), Fail> {
    let alloc = rt.alloc();
    assert!(rt; holds(alloc, &DOWN_AND_ACROSS)?);
    assert!(rt; holds(alloc, &ALL_READ)?);
    assert!(rt; holds(alloc, &SETUPS_FULL)?);
    Ok(())
}

#[test]
fn transfers_are_moves_of_their_own(rt: HostRuntime) -> Result<(), Fail> {
    let alloc = rt.alloc();
    assert!(rt; holds(alloc, &STORE_OF_128)?);
    assert!(rt; holds(alloc, &STORE_OF_64)?);
    assert!(rt; holds(alloc, &STORE_PAST_MEMORY)?);
    assert!(rt; holds(alloc, &LOAD)?);
    Ok(())
}

#[test]
fn processors_wait_for_one_another(rt: HostRuntime) -> Result<(), Fail> {
    let alloc = rt.alloc();
    assert!(rt; holds(alloc, &HANDED_OVER)?);
    assert!(rt; holds(alloc, &BOTH_WAIT)?);
    assert!(rt; holds(alloc, &FIFTEEN)?);
    assert!(rt; holds(alloc, &MUTEX_KEPT)?);
    Ok(())
}

#[test]
fn a_processor_runs_out_at_the_limit(rt: HostRuntime) -> Result<(), Fail> {
    let alloc = rt.alloc();
    assert!(rt; holds(alloc, &ROUND_AND_ROUND)?);
    assert!(rt; holds(alloc, &NO_STEP)?);
    assert!(rt; holds(alloc, &ENDS_WITHOUT_A_STEP)?);
    Ok(())
}

#[test]
fn twelve_processors_store_what_they_looked_up(rt: HostRuntime) -> Result<(), Fail> {
    assert!(rt; holds(rt.alloc(), &TWELVE)?);
    Ok(())
}
