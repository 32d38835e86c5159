//! Jobs that use the VPM and transfers, and what they give.
use crate::asking::Row;
use qpu_tool::Status;

/// A column that is written, and a row that is read.
pub const DOWN_AND_ACROSS: Row = Row {
    job: "\
        qpujob 1\n\
        memory 16\n\
        limit 100\n\
        program a\n\
        ldi vw_setup, 0x0000023f\n\
        or vpm, elem_num, elem_num\n\
        ldi vr_setup, 0x00100a3f\n\
        or r0, vpm, vpm\n\
        nop; thrend\n\
        nop\n\
        nop\n\
        endprogram\n\
        start 0 a 0\n\
        ",
    size: "175",
    status: Status::Done,
    rest: "\
        schedule\n\
        q 0 7\n\
        endrecord\n\
        report\n\
        qpu 0 ended executed 7 interrupts 0\n\
        r0 00000000 00000000 00000000 00000000 00000000 00000000 00000000 00000000 00000000 00000000 00000000 00000000 00000000 00000000 00000000 0000000f\n\
        vpm 49 00000000 00000000 00000000 00000000 00000000 00000000 00000000 00000000 00000000 00000000 00000000 00000000 00000000 00000000 00000000 00000001\n\
        vpm 50 00000000 00000000 00000000 00000000 00000000 00000000 00000000 00000000 00000000 00000000 00000000 00000000 00000000 00000000 00000000 00000002\n\
        vpm 51 00000000 00000000 00000000 00000000 00000000 00000000 00000000 00000000 00000000 00000000 00000000 00000000 00000000 00000000 00000000 00000003\n\
        vpm 52 00000000 00000000 00000000 00000000 00000000 00000000 00000000 00000000 00000000 00000000 00000000 00000000 00000000 00000000 00000000 00000004\n\
        vpm 53 00000000 00000000 00000000 00000000 00000000 00000000 00000000 00000000 00000000 00000000 00000000 00000000 00000000 00000000 00000000 00000005\n\
        vpm 54 00000000 00000000 00000000 00000000 00000000 00000000 00000000 00000000 00000000 00000000 00000000 00000000 00000000 00000000 00000000 00000006\n\
        vpm 55 00000000 00000000 00000000 00000000 00000000 00000000 00000000 00000000 00000000 00000000 00000000 00000000 00000000 00000000 00000000 00000007\n\
        vpm 56 00000000 00000000 00000000 00000000 00000000 00000000 00000000 00000000 00000000 00000000 00000000 00000000 00000000 00000000 00000000 00000008\n\
        vpm 57 00000000 00000000 00000000 00000000 00000000 00000000 00000000 00000000 00000000 00000000 00000000 00000000 00000000 00000000 00000000 00000009\n\
        vpm 58 00000000 00000000 00000000 00000000 00000000 00000000 00000000 00000000 00000000 00000000 00000000 00000000 00000000 00000000 00000000 0000000a\n\
        vpm 59 00000000 00000000 00000000 00000000 00000000 00000000 00000000 00000000 00000000 00000000 00000000 00000000 00000000 00000000 00000000 0000000b\n\
        vpm 60 00000000 00000000 00000000 00000000 00000000 00000000 00000000 00000000 00000000 00000000 00000000 00000000 00000000 00000000 00000000 0000000c\n\
        vpm 61 00000000 00000000 00000000 00000000 00000000 00000000 00000000 00000000 00000000 00000000 00000000 00000000 00000000 00000000 00000000 0000000d\n\
        vpm 62 00000000 00000000 00000000 00000000 00000000 00000000 00000000 00000000 00000000 00000000 00000000 00000000 00000000 00000000 00000000 0000000e\n\
        vpm 63 00000000 00000000 00000000 00000000 00000000 00000000 00000000 00000000 00000000 00000000 00000000 00000000 00000000 00000000 00000000 0000000f\n\
        ending done\n\
        endreport\n\
        ",
};

/// A read setup of 16 vectors, and seventeen reads.
pub const ALL_READ: Row = Row {
    job: "\
        qpujob 1\n\
        memory 16\n\
        limit 100\n\
        program a\n\
        ldi vr_setup, 0x00001a00\n\
        or r0, vpm, vpm\n\
        or r0, vpm, vpm\n\
        or r0, vpm, vpm\n\
        or r0, vpm, vpm\n\
        or r0, vpm, vpm\n\
        or r0, vpm, vpm\n\
        or r0, vpm, vpm\n\
        or r0, vpm, vpm\n\
        or r0, vpm, vpm\n\
        or r0, vpm, vpm\n\
        or r0, vpm, vpm\n\
        or r0, vpm, vpm\n\
        or r0, vpm, vpm\n\
        or r0, vpm, vpm\n\
        or r0, vpm, vpm\n\
        or r0, vpm, vpm\n\
        or r0, vpm, vpm\n\
        nop; thrend\n\
        nop\n\
        nop\n\
        endprogram\n\
        start 0 a 0\n\
        ",
    size: "379",
    status: Status::Faulted,
    rest: "\
        schedule\n\
        q 0 18\n\
        endrecord\n\
        report\n\
        qpu 0 faulted NoSetup at 17 executed 17 interrupts 0\n\
        ending faulted\n\
        endreport\n\
        ",
};

/// A third read setup where two are unfinished.
pub const SETUPS_FULL: Row = Row {
    job: "\
        qpujob 1\n\
        memory 16\n\
        limit 100\n\
        program a\n\
        ldi vr_setup, 0x00001a00\n\
        ldi vr_setup, 0x00001a00\n\
        ldi vr_setup, 0x00001a00\n\
        nop; thrend\n\
        nop\n\
        nop\n\
        endprogram\n\
        start 0 a 0\n\
        ",
    size: "157",
    status: Status::Faulted,
    rest: "\
        schedule\n\
        q 0 3\n\
        endrecord\n\
        report\n\
        qpu 0 faulted SetupsFull at 2 executed 2 interrupts 0\n\
        ending faulted\n\
        endreport\n\
        ",
};

/// A store of 128 rows, more than the VPM has.
pub const STORE_OF_128: Row = Row {
    job: "\
        qpujob 1\n\
        memory 1024\n\
        limit 100\n\
        program a\n\
        ldi vw_setup, 0x80104000\n\
        ldi vw_addr, 0x00000000\n\
        nop; thrend\n\
        nop\n\
        nop\n\
        endprogram\n\
        start 0 a 0\n\
        ",
    size: "133",
    status: Status::Faulted,
    rest: "\
        schedule\n\
        q 0 2\n\
        endrecord\n\
        report\n\
        qpu 0 faulted Transfer at 1 executed 1 interrupts 0\n\
        ending faulted\n\
        endreport\n\
        ",
};

/// A store of 64 rows of 16 words.
pub const STORE_OF_64: Row = Row {
    job: "\
        qpujob 1\n\
        memory 1024\n\
        limit 100\n\
        program a\n\
        ldi vw_setup, 0xa0104000\n\
        ldi vw_addr, 0x00000000\n\
        nop; thrend\n\
        nop\n\
        nop\n\
        endprogram\n\
        start 0 a 0\n\
        ",
    size: "133",
    status: Status::Done,
    rest: "\
        schedule\n\
        q 0 2\n\
        s 0 1\n\
        q 0 3\n\
        s 0 63\n\
        endrecord\n\
        report\n\
        qpu 0 ended executed 5 interrupts 0\n\
        ending done\n\
        endreport\n\
        ",
};

/// The same with one word of memory less than the store writes.
pub const STORE_PAST_MEMORY: Row = Row {
    job: "\
        qpujob 1\n\
        memory 1023\n\
        limit 100\n\
        program a\n\
        ldi vw_setup, 0xa0104000\n\
        ldi vw_addr, 0x00000000\n\
        nop; thrend\n\
        nop\n\
        nop\n\
        endprogram\n\
        start 0 a 0\n\
        ",
    size: "133",
    status: Status::Faulted,
    rest: "\
        schedule\n\
        q 0 2\n\
        endrecord\n\
        report\n\
        qpu 0 faulted Transfer at 1 executed 1 interrupts 0\n\
        ending faulted\n\
        endreport\n\
        ",
};

/// A load of one row, and the word that awaits it.
pub const LOAD: Row = Row {
    job: "\
        qpujob 1\n\
        memory 16\n\
        limit 100\n\
        data 0 9\n\
        program a\n\
        ldi vr_setup, 0x80011000\n\
        ldi vr_addr, 0x00000000\n\
        or -, vpm_ld_wait, vpm_ld_wait\n\
        nop; thrend\n\
        nop\n\
        nop\n\
        endprogram\n\
        start 0 a 0\n\
        ",
    size: "171",
    status: Status::Done,
    rest: "\
        schedule\n\
        q 0 2\n\
        l 0 1\n\
        q 0 4\n\
        endrecord\n\
        report\n\
        qpu 0 ended executed 6 interrupts 0\n\
        vpm 0 00000009 00000000 00000000 00000000 00000000 00000000 00000000 00000000 00000000 00000000 00000000 00000000 00000000 00000000 00000000 00000000\n\
        mem 00000000 00000009 00000000 00000000 00000000 00000000 00000000 00000000 00000000\n\
        ending done\n\
        endreport\n\
        ",
};
