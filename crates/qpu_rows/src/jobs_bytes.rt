//! Jobs whose elements have 8 bits, and what they give.
use crate::asking::Row;
use qpu_tool::Status;

/// Sixteen packed bytes, of which each fourth is read as the low byte of a column.
pub const BYTES_IN_A_ROW: Row = Row {
    job: "\
        qpujob 1\n\
        memory 16\n\
        limit 100\n\
        program a\n\
        ldi vw_setup, 0x00001801\n\
        or vpm, elem_num, elem_num\n\
        ldi vr_setup, 0x00101c00\n\
        or r0, vpm, vpm\n\
        nop; thrend\n\
        nop\n\
        nop\n\
        endprogram\n\
        start 0 a 0\n\
        ",
    size: "175",
    status: Status::Done,
    rest: "\
        schedule\n\
        q 0 7\n\
        endrecord\n\
        report\n\
        qpu 0 ended executed 7 interrupts 0\n\
        r0 00000000 00000000 00000000 00000000 00000000 00000004 00000008 0000000c 00000000 00000000 00000000 00000000 00000000 00000000 00000000 00000000\n\
        vpm 0 00000000 00000000 00000000 00000000 03020100 07060504 0b0a0908 0f0e0d0c 00000000 00000000 00000000 00000000 00000000 00000000 00000000 00000000\n\
        ending done\n\
        endreport\n\
        ",
};

/// The same bytes, stored from byte address 1 on.
pub const STORED_BYTES: Row = Row {
    job: "\
        qpujob 1\n\
        memory 16\n\
        limit 100\n\
        program a\n\
        ldi vw_setup, 0x00001801\n\
        or vpm, elem_num, elem_num\n\
        ldi vw_setup, 0x80904024\n\
        ldi vw_addr, 1\n\
        nop; thrend\n\
        nop\n\
        nop\n\
        endprogram\n\
        start 0 a 0\n\
        ",
    size: "174",
    status: Status::Done,
    rest: "\
        schedule\n\
        q 0 4\n\
        s 0 1\n\
        q 0 3\n\
        endrecord\n\
        report\n\
        qpu 0 ended executed 7 interrupts 0\n\
        vpm 0 00000000 00000000 00000000 00000000 03020100 07060504 0b0a0908 0f0e0d0c 00000000 00000000 00000000 00000000 00000000 00000000 00000000 00000000\n\
        mem 00000000 02010000 06050403 0a090807 0e0d0c0b 0000000f 00000000 00000000 00000000\n\
        ending done\n\
        endreport\n\
        ",
};

/// A read setup of a size that no elements have.
pub const NO_SUCH_SIZE: Row = Row {
    job: "\
        qpujob 1\n\
        memory 16\n\
        limit 100\n\
        program a\n\
        ldi vr_setup, 0x00100b00\n\
        nop; thrend\n\
        nop\n\
        nop\n\
        endprogram\n\
        start 0 a 0\n\
        ",
    size: "107",
    status: Status::Faulted,
    rest: "\
        schedule\n\
        q 0 1\n\
        endrecord\n\
        report\n\
        qpu 0 faulted Setup Size at 0 executed 0 interrupts 0\n\
        ending faulted\n\
        endreport\n\
        ",
};

/// Packed bytes in 65 places, four in a row.
pub const SIXTY_FIVE_PLACES: Row = Row {
    job: "\
        qpujob 1\n\
        memory 16\n\
        limit 100\n\
        program a\n\
        ldi vw_setup, 0x00001800\n\
        .rep 65\n\
        or vpm, elem_num, elem_num\n\
        .endr\n\
        nop; thrend\n\
        nop\n\
        nop\n\
        endprogram\n\
        start 0 a 0\n\
        ",
    size: "148",
    status: Status::Done,
    rest: "\
        schedule\n\
        q 0 69\n\
        endrecord\n\
        report\n\
        qpu 0 ended executed 69 interrupts 0\n\
        vpm 0 03020100 07060504 0b0a0908 0f0e0d0c 03020100 07060504 0b0a0908 0f0e0d0c 03020100 07060504 0b0a0908 0f0e0d0c 03020100 07060504 0b0a0908 0f0e0d0c\n\
        vpm 1 03020100 07060504 0b0a0908 0f0e0d0c 03020100 07060504 0b0a0908 0f0e0d0c 03020100 07060504 0b0a0908 0f0e0d0c 03020100 07060504 0b0a0908 0f0e0d0c\n\
        vpm 2 03020100 07060504 0b0a0908 0f0e0d0c 03020100 07060504 0b0a0908 0f0e0d0c 03020100 07060504 0b0a0908 0f0e0d0c 03020100 07060504 0b0a0908 0f0e0d0c\n\
        vpm 3 03020100 07060504 0b0a0908 0f0e0d0c 03020100 07060504 0b0a0908 0f0e0d0c 03020100 07060504 0b0a0908 0f0e0d0c 03020100 07060504 0b0a0908 0f0e0d0c\n\
        vpm 4 03020100 07060504 0b0a0908 0f0e0d0c 03020100 07060504 0b0a0908 0f0e0d0c 03020100 07060504 0b0a0908 0f0e0d0c 03020100 07060504 0b0a0908 0f0e0d0c\n\
        vpm 5 03020100 07060504 0b0a0908 0f0e0d0c 03020100 07060504 0b0a0908 0f0e0d0c 03020100 07060504 0b0a0908 0f0e0d0c 03020100 07060504 0b0a0908 0f0e0d0c\n\
        vpm 6 03020100 07060504 0b0a0908 0f0e0d0c 03020100 07060504 0b0a0908 0f0e0d0c 03020100 07060504 0b0a0908 0f0e0d0c 03020100 07060504 0b0a0908 0f0e0d0c\n\
        vpm 7 03020100 07060504 0b0a0908 0f0e0d0c 03020100 07060504 0b0a0908 0f0e0d0c 03020100 07060504 0b0a0908 0f0e0d0c 03020100 07060504 0b0a0908 0f0e0d0c\n\
        vpm 8 03020100 07060504 0b0a0908 0f0e0d0c 03020100 07060504 0b0a0908 0f0e0d0c 03020100 07060504 0b0a0908 0f0e0d0c 03020100 07060504 0b0a0908 0f0e0d0c\n\
        vpm 9 03020100 07060504 0b0a0908 0f0e0d0c 03020100 07060504 0b0a0908 0f0e0d0c 03020100 07060504 0b0a0908 0f0e0d0c 03020100 07060504 0b0a0908 0f0e0d0c\n\
        vpm 10 03020100 07060504 0b0a0908 0f0e0d0c 03020100 07060504 0b0a0908 0f0e0d0c 03020100 07060504 0b0a0908 0f0e0d0c 03020100 07060504 0b0a0908 0f0e0d0c\n\
        vpm 11 03020100 07060504 0b0a0908 0f0e0d0c 03020100 07060504 0b0a0908 0f0e0d0c 03020100 07060504 0b0a0908 0f0e0d0c 03020100 07060504 0b0a0908 0f0e0d0c\n\
        vpm 12 03020100 07060504 0b0a0908 0f0e0d0c 03020100 07060504 0b0a0908 0f0e0d0c 03020100 07060504 0b0a0908 0f0e0d0c 03020100 07060504 0b0a0908 0f0e0d0c\n\
        vpm 13 03020100 07060504 0b0a0908 0f0e0d0c 03020100 07060504 0b0a0908 0f0e0d0c 03020100 07060504 0b0a0908 0f0e0d0c 03020100 07060504 0b0a0908 0f0e0d0c\n\
        vpm 14 03020100 07060504 0b0a0908 0f0e0d0c 03020100 07060504 0b0a0908 0f0e0d0c 03020100 07060504 0b0a0908 0f0e0d0c 03020100 07060504 0b0a0908 0f0e0d0c\n\
        vpm 15 03020100 07060504 0b0a0908 0f0e0d0c 03020100 07060504 0b0a0908 0f0e0d0c 03020100 07060504 0b0a0908 0f0e0d0c 03020100 07060504 0b0a0908 0f0e0d0c\n\
        vpm 16 03020100 07060504 0b0a0908 0f0e0d0c 00000000 00000000 00000000 00000000 00000000 00000000 00000000 00000000 00000000 00000000 00000000 00000000\n\
        ending done\n\
        endreport\n\
        ",
};
