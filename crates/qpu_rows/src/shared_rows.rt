//! What a program and its processors leave in the shared parts. The words come from an independent
//! assembler of the manual's tables, checked against words that were encoded by hand; beside each
//! stands its line. Expected values were worked out by hand.
use crate::shared::{run, shared_with, step};
use qpu_local::Processor;
use qpu_shared::{Cause, Did, Shared};
use qpu_word::{FaultKind, Halt, LANES, Word};
use std::test::Fail;

/// `nop; thrend`, after which two more words are executed.
const END: u64 = 0x300009e7009e7000;

/// `nop`.
const NOP: u64 = 0x100009e7009e7000;

/// More steps than any of these programs has.
const ALL: u32 = 100;

#[test]
fn a_uniform_is_one_word_for_both_files(rt: HostRuntime) -> Result<(), Fail> {
    let mut shared = shared_with(rt.alloc(), 2, &[5, 6])?;
    let mut p = Processor::new(0, 0);
    let words = [
        0x100208270c820dc0, // add r0, unif, unifb
        0x1002086715827d80, // or r1, unif, unif
        0x100208a715827d80, // or r2, unif, unif
        END,
        NOP,
        NOP,
    ];
    let last = run(&words, &mut p, &mut shared, ALL);
    assert!(rt; last == Some(Did::Faulted(FaultKind::Uniform)));
    assert!(rt; p.halt() == Halt::Faulted(FaultKind::Uniform, 2));
    assert!(rt; p.executed() == 2);
    for (n, value) in [(0, 10), (1, 6), (2, 0)] {
        assert!(rt; p.accumulator(n).v == [value; LANES], "r{n}");
    }
    assert!(rt; shared.memory().word(0) == Some(5));
    assert!(rt; shared.memory().word(1) == Some(6));
    Ok(())
}

#[test]
fn a_vector_is_written_down_and_read_across(rt: HostRuntime) -> Result<(), Fail> {
    let mut shared = shared_with(rt.alloc(), 16, &[])?;
    let mut p = Processor::new(0, 0);
    let words = [
        0xe0021c670000023f, // ldi vw_setup, 0x0000023f
        0x10020c27159a7d80, // or vpm, elem_num, elem_num
        0xe0020c6700100a3f, // ldi vr_setup, 0x00100a3f
        0x1002082715c27d80, // or r0, vpm, vpm
        END,
        NOP,
        NOP,
    ];
    let last = run(&words, &mut p, &mut shared, ALL);
    assert!(rt; last.is_none() && p.halt() == Halt::Ended);
    for i in 0..16 {
        assert!(rt; shared.vpm().word(48 + i, 15) == i, "row {i}");
        assert!(rt; shared.vpm().word(48 + i, 14) == 0, "row {i}");
    }
    let mut last_lane = [0; LANES];
    last_lane[15] = 15;
    assert!(rt; p.accumulator(0).v == last_lane);
    Ok(())
}

#[test]
fn a_read_setup_ends_after_its_vectors(rt: HostRuntime) -> Result<(), Fail> {
    let mut shared = shared_with(rt.alloc(), 16, &[])?;
    let mut p = Processor::new(0, 0);
    // or r0, vpm, vpm
    let mut words = [0x1002082715c27d80; 18];
    // ldi vr_setup, 0x00001a00
    words[0] = 0xe0020c6700001a00;
    let last = run(&words, &mut p, &mut shared, ALL);
    assert!(rt; last == Some(Did::Faulted(FaultKind::NoSetup)));
    assert!(rt; p.halt() == Halt::Faulted(FaultKind::NoSetup, 17));
    assert!(rt; p.executed() == 17);
    Ok(())
}

/// Whether processor 0 has so many rows of a store to move, and no more; it moves them.
fn stores(shared: &mut Shared, rows: u32) -> bool {
    for _ in 0..rows {
        if !shared.move_store(0) {
            return false;
        }
    }
    !shared.move_store(0)
}

#[test]
fn a_store_fits_the_vpm_and_memory(rt: HostRuntime) -> Result<(), Fail> {
    // ldi vw_setup, 0x80104000, a store of 128 rows; and 0xa0104000, of 64 rows
    let (of_128, of_64) = (0xe0021c6780104000, 0xe0021c67a0104000);
    for (setup, memory, fits) in [
        (of_128, 1024, false),
        (of_64, 1024, true),
        (of_64, 1023, false),
    ] {
        let mut shared = shared_with(rt.alloc(), memory, &[])?;
        let mut p = Processor::new(0, 0);
        // ldi vw_addr, 0
        let words = [setup, 0xe0021ca700000000, END, NOP, NOP];
        let last = run(&words, &mut p, &mut shared, 2);
        if fits {
            assert!(rt; last == Some(Did::Stepped) && shared.store_pending(0));
            assert!(rt; stores(&mut shared, 64));
            assert!(rt; run(&words, &mut p, &mut shared, ALL).is_none());
            assert!(rt; p.halt() == Halt::Ended && p.executed() == 5);
        } else {
            assert!(rt; last == Some(Did::Faulted(FaultKind::Transfer)));
            assert!(rt; p.halt() == Halt::Faulted(FaultKind::Transfer, 1));
            assert!(rt; p.executed() == 1 && !shared.store_pending(0));
        }
    }
    Ok(())
}

#[test]
fn a_wait_for_a_load_leaves_its_move_alone(rt: HostRuntime) -> Result<(), Fail> {
    let mut shared = shared_with(rt.alloc(), 16, &[9])?;
    let mut p = Processor::new(0, 0);
    let words = [
        0xe0020c6780011000, // ldi vr_setup, 0x80011000
        0xe0020ca700000000, // ldi vr_addr, 0
        0x100209e715ca7d80, // or -, vpm_ld_wait, vpm_ld_wait
        END,
        NOP,
        NOP,
    ];
    assert!(rt; run(&words, &mut p, &mut shared, 2) == Some(Did::Stepped));
    assert!(rt; step(&words, &mut p, &mut shared) == Some(Did::Awaits(Cause::LoadWait)));
    assert!(rt; p.executed() == 2 && p.halt() == Halt::Going);
    assert!(rt; !shared.move_store(0) && !shared.fetch(0, 0) && !shared.fetch(0, 1));
    for other in 1..12 {
        assert!(rt; !shared.move_load(other), "processor {other}");
    }
    assert!(rt; shared.vpm().word(0, 0) == 0);
    assert!(rt; shared.move_load(0) && !shared.move_load(0));
    assert!(rt; shared.vpm().word(0, 0) == 9 && shared.vpm().word(0, 1) == 0);
    assert!(rt; run(&words, &mut p, &mut shared, ALL).is_none());
    assert!(rt; p.halt() == Halt::Ended && p.executed() == 6);
    Ok(())
}

#[test]
fn two_processors_meet_by_semaphores(rt: HostRuntime) -> Result<(), Fail> {
    let mut shared = shared_with(rt.alloc(), 16, &[])?;
    let (mut p, mut q) = (Processor::new(0, 0), Processor::new(1, 0));
    // sinc 0; sdec 1; and for the other sdec 0; sinc 1
    let one = [0xe80009e700000000, 0xe80009e700000011, END, NOP, NOP];
    let other = [0xe80009e700000010, 0xe80009e700000001, END, NOP, NOP];
    assert!(rt; run(&one, &mut p, &mut shared, ALL) == Some(Did::Awaits(Cause::Down(1))));
    assert!(rt; p.executed() == 1 && shared.sync().count(0) == 1);
    assert!(rt; run(&other, &mut q, &mut shared, 2) == Some(Did::Stepped));
    assert!(rt; shared.sync().count(0) == 0 && shared.sync().count(1) == 1);
    assert!(rt; step(&one, &mut p, &mut shared) == Some(Did::Stepped));
    assert!(rt; run(&other, &mut q, &mut shared, ALL).is_none());
    assert!(rt; run(&one, &mut p, &mut shared, ALL).is_none());
    assert!(rt; p.halt() == Halt::Ended && p.executed() == 5);
    assert!(rt; q.halt() == Halt::Ended && q.executed() == 5);
    assert!(rt; shared.sync().count(0) == 0 && shared.sync().count(1) == 0);
    Ok(())
}

#[test]
fn two_processors_wait_for_one_another(rt: HostRuntime) -> Result<(), Fail> {
    let mut shared = shared_with(rt.alloc(), 16, &[])?;
    // sdec 0; sinc 0
    let words = [0xe80009e700000010, 0xe80009e700000000, END, NOP, NOP];
    for number in 0..2 {
        let mut p = Processor::new(number, 0);
        let last = run(&words, &mut p, &mut shared, ALL);
        assert!(rt; last == Some(Did::Awaits(Cause::Down(0))));
        assert!(rt; p.halt() == Halt::Going && p.place() == 0 && p.executed() == 0);
    }
    Ok(())
}

#[test]
fn a_semaphore_stops_at_fifteen(rt: HostRuntime) -> Result<(), Fail> {
    let mut shared = shared_with(rt.alloc(), 16, &[])?;
    let mut p = Processor::new(0, 0);
    // sinc 3
    let words = [0xe80009e700000003; 16];
    let last = run(&words, &mut p, &mut shared, ALL);
    assert!(rt; last == Some(Did::Awaits(Cause::Up(3))));
    assert!(rt; p.place() == 15 && p.executed() == 15);
    assert!(rt; shared.sync().count(3) == 15);
    Ok(())
}

#[test]
fn a_mutex_stays_with_a_processor_that_ended(rt: HostRuntime) -> Result<(), Fail> {
    let mut shared = shared_with(rt.alloc(), 16, &[])?;
    let (mut p, mut q) = (Processor::new(0, 0), Processor::new(1, 0));
    // or -, mutex_acq, mutex_acq
    let words = [0x100209e715ce7d80, END, NOP, NOP];
    assert!(rt; run(&words, &mut p, &mut shared, ALL).is_none());
    assert!(rt; p.halt() == Halt::Ended && shared.sync().holder() == Some(0));
    let last = run(&words, &mut q, &mut shared, ALL);
    assert!(rt; last == Some(Did::Awaits(Cause::Mutex)));
    assert!(rt; q.place() == 0 && q.executed() == 0);
    // or mutex_rel, r0, r0: of another than the holder it does nothing
    let release = [0x10020ce7159e7000];
    assert!(rt; step(&release, &mut q, &mut shared) == Some(Did::Stepped));
    assert!(rt; shared.sync().holder() == Some(0));
    Ok(())
}

#[test]
fn a_look_up_is_taken_once_it_is_fetched(rt: HostRuntime) -> Result<(), Fail> {
    let mut shared = shared_with(rt.alloc(), 16, &[7])?;
    let mut p = Processor::new(0, 0);
    let words = [
        0x10020e27159e7000, // or t0s, r0, r0
        0xa00009e7009e7000, // nop; ldtmu0
        0x10020867159e7900, // or r1, r4, r4
        END,
        NOP,
        NOP,
    ];
    let last = run(&words, &mut p, &mut shared, ALL);
    assert!(rt; last == Some(Did::Awaits(Cause::TmuLoad(0))));
    assert!(rt; p.executed() == 1 && shared.fetch_pending(0, 0));
    assert!(rt; shared.fetch(0, 0) && !shared.fetch(0, 0));
    assert!(rt; run(&words, &mut p, &mut shared, ALL).is_none());
    assert!(rt; p.halt() == Halt::Ended && p.executed() == 6);
    assert!(rt; p.accumulator(1).v == [7; LANES]);
    assert!(rt; p.accumulator(4).v == [7; LANES]);
    Ok(())
}

#[test]
fn four_look_ups_are_taken_in_their_order(rt: HostRuntime) -> Result<(), Fail> {
    let mut shared = shared_with(rt.alloc(), 20, &SQUARES)?;
    let mut p = Processor::new(0, 0);
    // or t1s, r0, r0; add r0, r0, 4; nop; ldtmu1; or t0s, r0, r0
    let (look, on, take, elsewhere) = (
        0x10020f27159e7000,
        0xd00208270c9c41c0,
        0xb00009e7009e7000,
        0x10020e27159e7000,
    );
    let words = [
        0x10020827159a7d80, // or r0, elem_num, elem_num
        0xd0020827119c21c0, // shl r0, r0, 2
        look,
        on,
        look,
        on,
        look,
        on,
        look,
        take,
        0x10020827159e7900, // or r0, r4, r4
        take,
        0x10020867159e7900, // or r1, r4, r4
        take,
        0x100208a7159e7900, // or r2, r4, r4
        take,
        0x100208e7159e7900, // or r3, r4, r4
    ];
    assert!(rt; run(&words, &mut p, &mut shared, 8) == Some(Did::Stepped));
    assert!(rt; shared.looks_outstanding(0, 1) == 3 && shared.has_room(0, Word(look)));
    assert!(rt; step(&words, &mut p, &mut shared) == Some(Did::Stepped));
    assert!(rt; shared.looks_outstanding(0, 1) == 4 && !shared.has_room(0, Word(look)));
    assert!(rt; shared.looks_outstanding(0, 0) == 0 && shared.has_room(0, Word(elsewhere)));
    assert!(rt; shared.has_room(1, Word(look)) && shared.has_room(0, Word(take)));
    for _ in 0..4 {
        assert!(rt; shared.fetch(0, 1) && !shared.fetch(0, 0));
    }
    assert!(rt; !shared.fetch(0, 1) && !shared.has_room(0, Word(look)));
    let last = run(&words, &mut p, &mut shared, 8);
    assert!(rt; last == Some(Did::Stepped) && shared.looks_outstanding(0, 1) == 0);
    for n in 0..4 {
        for i in 0..LANES {
            assert!(rt;
                p.accumulator(n).v[i] == SQUARES[i + n as usize],
                "r{n} lane {i}"
            );
        }
    }
    Ok(())
}

/// What the look-ups find.
const SQUARES: [u32; 20] = [
    0, 1, 4, 9, 16, 25, 36, 49, 64, 81, 100, 121, 144, 169, 196, 225, 256, 289, 324, 361,
];

#[test]
fn a_load_and_a_store_are_pending_at_once(rt: HostRuntime) -> Result<(), Fail> {
    let mut shared = shared_with(rt.alloc(), 64, &[9])?;
    let mut p = Processor::new(0, 0);
    let words = [
        0xe0021c6700001a00, // ldi vw_setup, 0x00001a00
        0x10020c27159a7d80, // or vpm, elem_num, elem_num
        0xe0020c6780011020, // ldi vr_setup, 0x80011020: one row of 16 words to row 2
        0xe0021c6780904000, // ldi vw_setup, 0x80904000: one row of 16 words from row 0
        0xe0020ca700000000, // ldi vr_addr, 0
        0xe0021ca700000040, // ldi vw_addr, 64
        0xe0021ca700000040, // ldi vw_addr, 64
        0xe0020ca700000000, // ldi vr_addr, 0
    ];
    let awaits_store = Some(Did::Awaits(Cause::StoreStart));
    assert!(rt; run(&words, &mut p, &mut shared, ALL) == awaits_store);
    assert!(rt; p.executed() == 6 && shared.load_pending(0) && shared.store_pending(0));
    assert!(rt; shared.move_store(0) && shared.load_pending(0) && !shared.store_pending(0));
    let awaits_load = Some(Did::Awaits(Cause::LoadStart));
    assert!(rt; run(&words, &mut p, &mut shared, ALL) == awaits_load);
    assert!(rt; p.executed() == 7 && shared.load_pending(0) && shared.store_pending(0));
    assert!(rt; shared.move_load(0) && !shared.load_pending(0) && shared.store_pending(0));
    for i in 0..16 {
        let loaded = if i == 0 { 9 } else { 0 };
        assert!(rt; shared.vpm().word(0, i) == i && shared.vpm().word(2, i) == loaded);
        assert!(rt; shared.memory().word(16 + i) == Some(i), "word {i}");
        assert!(rt; shared.memory().word(32 + i) == Some(0), "word {i}");
    }
    Ok(())
}

#[test]
fn a_start_is_seen_from_the_next_word_on(rt: HostRuntime) -> Result<(), Fail> {
    // of a load: ldi vr_setup, 0x80011000; or vr_addr, r1, r1 and v8min r0, vpm_ld_busy,
    // vpm_ld_busy; or r2, vpm_ld_busy, vpm_ld_busy
    let load = [0xe0020c6780011000, 0x10024ca095c67276, 0x100208a715c67d80];
    // of a store: ldi vw_setup, 0x80904000; or vw_addr, r1, r1 and v8min r0, vpm_st_busy,
    // vpm_st_busy; or r2, vpm_st_busy, vpm_st_busy
    let store = [0xe0021c6780904000, 0x10025ca0959f127f, 0x100208a7159f1fc0];
    for (is_load, [setup, start, busy]) in [(true, load), (false, store)] {
        let mut shared = shared_with(rt.alloc(), 16, &[])?;
        let mut p = Processor::new(0, 0);
        // ldi r0, 7; ldi r2, 7
        let words = [
            0xe002082700000007,
            0xe00208a700000007,
            setup,
            start,
            busy,
            busy,
        ];
        assert!(rt; run(&words, &mut p, &mut shared, 4) == Some(Did::Stepped));
        assert!(rt; p.accumulator(0).v == [0; LANES] && p.accumulator(2).v == [7; LANES]);
        assert!(rt; shared.load_pending(0) == is_load && shared.store_pending(0) != is_load);
        assert!(rt; step(&words, &mut p, &mut shared) == Some(Did::Stepped));
        assert!(rt; p.accumulator(2).v == [1; LANES]);
        assert!(rt; shared.move_load(0) == is_load && shared.move_store(0) != is_load);
        assert!(rt; step(&words, &mut p, &mut shared) == Some(Did::Stepped));
        assert!(rt; p.accumulator(2).v == [0; LANES]);
    }
    Ok(())
}

#[test]
fn a_copy_goes_its_own_way(rt: HostRuntime) -> Result<(), Fail> {
    let mut shared = shared_with(rt.alloc(), 16, &[9])?;
    let mut p = Processor::new(0, 0);
    let words = [
        0xe80009e700000003, // sinc 3
        0xe0020c6780011000, // ldi vr_setup, 0x80011000
        0xe0020ca700000000, // ldi vr_addr, 0
    ];
    assert!(rt; run(&words, &mut p, &mut shared, 3) == Some(Did::Stepped));
    let mut copy = shared.copy(rt.alloc())?;
    assert!(rt; copy.sync().count(3) == 1 && copy.memory().word(0) == Some(9));
    assert!(rt; copy.move_load(0) && copy.vpm().word(0, 0) == 9);
    assert!(rt; shared.vpm().word(0, 0) == 0 && shared.load_pending(0));
    Ok(())
}
