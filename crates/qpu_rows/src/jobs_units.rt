//! Jobs whose words compute, and what they give.
use crate::asking::Row;
use qpu_tool::Status;

/// A product of 24 bits, a borrow in every lane, and the zeros in front of 0.
pub const CARRIES: Row = Row {
    job: "\
        qpujob 1\n\
        memory 16\n\
        limit 100\n\
        program a\n\
        ldi r0, 0x00ffffff\n\
        nop; mul24 r1, r0, r0\n\
        sub.setf r2, r3, 1; mul24 r3, r3, r3\n\
        clz r3, r3\n\
        nop; thrend\n\
        nop\n\
        nop\n\
        endprogram\n\
        start 0 a 0\n\
        ",
    size: "171",
    status: Status::Done,
    rest: "\
        schedule\n\
        q 0 7\n\
        endrecord\n\
        report\n\
        qpu 0 ended executed 7 interrupts 0\n\
        r0 00ffffff 00ffffff 00ffffff 00ffffff 00ffffff 00ffffff 00ffffff 00ffffff 00ffffff 00ffffff 00ffffff 00ffffff 00ffffff 00ffffff 00ffffff 00ffffff\n\
        r1 fe000001 fe000001 fe000001 fe000001 fe000001 fe000001 fe000001 fe000001 fe000001 fe000001 fe000001 fe000001 fe000001 fe000001 fe000001 fe000001\n\
        r2 ffffffff ffffffff ffffffff ffffffff ffffffff ffffffff ffffffff ffffffff ffffffff ffffffff ffffffff ffffffff ffffffff ffffffff ffffffff ffffffff\n\
        r3 00000020 00000020 00000020 00000020 00000020 00000020 00000020 00000020 00000020 00000020 00000020 00000020 00000020 00000020 00000020 00000020\n\
        flags z 0000 n ffff c ffff\n\
        ending done\n\
        endreport\n\
        ",
};

/// Lanes rotated by a number, and by an accumulator that is 0.
pub const ROTATIONS: Row = Row {
    job: "\
        qpujob 1\n\
        memory 16\n\
        limit 100\n\
        program a\n\
        or r0, elem_num, elem_num\n\
        nop\n\
        nop; v8min r1, r0, r0; rot 1\n\
        nop; v8min r2, r0, r0; rot r5\n\
        nop; thrend\n\
        nop\n\
        nop\n\
        endprogram\n\
        start 0 a 0\n\
        ",
    size: "171",
    status: Status::Done,
    rest: "\
        schedule\n\
        q 0 7\n\
        endrecord\n\
        report\n\
        qpu 0 ended executed 7 interrupts 0\n\
        r0 00000000 00000001 00000002 00000003 00000004 00000005 00000006 00000007 00000008 00000009 0000000a 0000000b 0000000c 0000000d 0000000e 0000000f\n\
        r1 0000000f 00000000 00000001 00000002 00000003 00000004 00000005 00000006 00000007 00000008 00000009 0000000a 0000000b 0000000c 0000000d 0000000e\n\
        r2 00000000 00000001 00000002 00000003 00000004 00000005 00000006 00000007 00000008 00000009 0000000a 0000000b 0000000c 0000000d 0000000e 0000000f\n\
        ending done\n\
        endreport\n\
        ",
};

/// Sums of bytes that stop at 255, and packing that clamps to a byte.
pub const PACKS: Row = Row {
    job: "\
        qpujob 1\n\
        memory 16\n\
        limit 100\n\
        program a\n\
        ldi r0, 0xff01ff01\n\
        ldi r1, 0x02020202\n\
        v8adds r2, r0, r1\n\
        ldi r3, 300\n\
        or ra0.8as, r3, r3\n\
        ldi ra1, 0xffffffff\n\
        or ra1.8as, -1, -1\n\
        nop; thrend\n\
        nop\n\
        nop\n\
        endprogram\n\
        start 0 a 0\n\
        ",
    size: "208",
    status: Status::Done,
    rest: "\
        schedule\n\
        q 0 10\n\
        endrecord\n\
        report\n\
        qpu 0 ended executed 10 interrupts 0\n\
        ra0 000000ff 000000ff 000000ff 000000ff 000000ff 000000ff 000000ff 000000ff 000000ff 000000ff 000000ff 000000ff 000000ff 000000ff 000000ff 000000ff\n\
        ra1 ffffff00 ffffff00 ffffff00 ffffff00 ffffff00 ffffff00 ffffff00 ffffff00 ffffff00 ffffff00 ffffff00 ffffff00 ffffff00 ffffff00 ffffff00 ffffff00\n\
        r0 ff01ff01 ff01ff01 ff01ff01 ff01ff01 ff01ff01 ff01ff01 ff01ff01 ff01ff01 ff01ff01 ff01ff01 ff01ff01 ff01ff01 ff01ff01 ff01ff01 ff01ff01 ff01ff01\n\
        r1 02020202 02020202 02020202 02020202 02020202 02020202 02020202 02020202 02020202 02020202 02020202 02020202 02020202 02020202 02020202 02020202\n\
        r2 ff03ff03 ff03ff03 ff03ff03 ff03ff03 ff03ff03 ff03ff03 ff03ff03 ff03ff03 ff03ff03 ff03ff03 ff03ff03 ff03ff03 ff03ff03 ff03ff03 ff03ff03 ff03ff03\n\
        r3 0000012c 0000012c 0000012c 0000012c 0000012c 0000012c 0000012c 0000012c 0000012c 0000012c 0000012c 0000012c 0000012c 0000012c 0000012c 0000012c\n\
        ending done\n\
        endreport\n\
        ",
};

/// A row that is read two words after it was written.
pub const NEIGHBOUR: Row = Row {
    job: "\
        qpujob 1\n\
        memory 16\n\
        limit 100\n\
        program a\n\
        or ra1, r0, r0\n\
        nop\n\
        or r2, ra1, ra1\n\
        nop; thrend\n\
        nop\n\
        nop\n\
        endprogram\n\
        start 0 a 0\n\
        ",
    size: "117",
    status: Status::Done,
    rest: "\
        schedule\n\
        q 0 6\n\
        endrecord\n\
        report\n\
        qpu 0 ended executed 6 interrupts 0\n\
        ending done\n\
        endreport\n\
        ",
};

/// A word behind the last slot of a branch, which is never executed.
pub const PASSED_BY: Row = Row {
    job: "\
        qpujob 1\n\
        memory 16\n\
        limit 100\n\
        program a\n\
        brr -, :t\n\
        nop\n\
        nop\n\
        or ra1, r0, r0\n\
        or r2, ra1, ra1\n\
        :t nop\n\
        nop; thrend\n\
        nop\n\
        nop\n\
        endprogram\n\
        start 0 a 0\n\
        ",
    size: "138",
    status: Status::Done,
    rest: "\
        schedule\n\
        q 0 8\n\
        endrecord\n\
        report\n\
        qpu 0 ended executed 8 interrupts 0\n\
        ending done\n\
        endreport\n\
        ",
};
