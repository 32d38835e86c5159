//! Jobs that read memory, and what they give.
use crate::asking::Row;
use qpu_tool::Status;

/// Starts nothing.
pub const NOTHING: Row = Row {
    job: "\
        qpujob 1\n\
        memory 2\n\
        limit 10\n\
        data 4 7\n\
        ",
    size: "36",
    status: Status::Done,
    rest: "\
        schedule\n\
        endrecord\n\
        report\n\
        mem 00000000 00000000 00000007\n\
        ending done\n\
        endreport\n\
        ",
};

/// What the words that read uniforms write after their job.
const UNIFORMS_REST: &str = "\
    schedule\n\
    q 0 3\n\
    endrecord\n\
    report\n\
    qpu 0 faulted Uniform at 2 executed 2 interrupts 0\n\
    r0 0000000a 0000000a 0000000a 0000000a 0000000a 0000000a 0000000a 0000000a 0000000a 0000000a 0000000a 0000000a 0000000a 0000000a 0000000a 0000000a\n\
    r1 00000006 00000006 00000006 00000006 00000006 00000006 00000006 00000006 00000006 00000006 00000006 00000006 00000006 00000006 00000006 00000006\n\
    mem 00000000 00000005 00000006\n\
    ending faulted\n\
    endreport\n\
    ";

/// Three words that read uniforms, of which two lie inside memory.
pub const UNIFORMS: Row = Row {
    job: "\
        qpujob 1\n\
        memory 2\n\
        limit 100\n\
        data 0 5 6\n\
        program a\n\
        add r0, unif, unifb\n\
        or r1, unif, unif\n\
        or r2, unif, unif\n\
        nop; thrend\n\
        nop\n\
        nop\n\
        endprogram\n\
        start 0 a 0\n\
        ",
    size: "148",
    status: Status::Faulted,
    rest: UNIFORMS_REST,
};

/// The same words as numbers.
pub const UNIFORM_WORDS: Row = Row {
    job: "\
        qpujob 1\n\
        memory 2\n\
        limit 100\n\
        data 0 5 6\n\
        program a\n\
        .word 0x100208270c820dc0\n\
        .word 0x1002086715827d80\n\
        .word 0x100208a715827d80\n\
        .word 0x300009e7009e7000\n\
        .word 0x100009e7009e7000\n\
        .word 0x100009e7009e7000\n\
        endprogram\n\
        start 0 a 0\n\
        ",
    size: "222",
    status: Status::Faulted,
    rest: UNIFORMS_REST,
};

/// One look-up, fetched by a step of its own.
pub const LOOK_UP: Row = Row {
    job: "\
        qpujob 1\n\
        memory 16\n\
        limit 100\n\
        data 0 7\n\
        program a\n\
        or t0s, r0, r0\n\
        nop; ldtmu0\n\
        or r1, r4, r4\n\
        nop; thrend\n\
        nop\n\
        nop\n\
        endprogram\n\
        start 0 a 0\n\
        ",
    size: "132",
    status: Status::Done,
    rest: "\
        schedule\n\
        q 0 1\n\
        t 0 0 1\n\
        q 0 5\n\
        endrecord\n\
        report\n\
        qpu 0 ended executed 6 interrupts 0\n\
        r1 00000007 00000007 00000007 00000007 00000007 00000007 00000007 00000007 00000007 00000007 00000007 00000007 00000007 00000007 00000007 00000007\n\
        r4 00000007 00000007 00000007 00000007 00000007 00000007 00000007 00000007 00000007 00000007 00000007 00000007 00000007 00000007 00000007 00000007\n\
        mem 00000000 00000007 00000000 00000000 00000000 00000000 00000000 00000000 00000000\n\
        ending done\n\
        endreport\n\
        ",
};

/// Comments, empty lines, tabs, CR before LF, numbers in both bases and zeros in front of them; a
/// later value in place of an earlier one.
pub const LOOSE: Row = Row {
    job: "\
        # A job in a loose form\r\n\
        qpujob 1 # the form\r\n\
        \r\n\
        \tmemory\t0x2\t\n\
        limit 0010\n\
        data 0 1 0x2\n\
        data 4 3 # in place of 2\n\
        program 0x10\n\
        # the end\n\
        \n\
        .word 0x300009E7009E7000 # nop; thrend\n\
        \t.word\t1152932392359325696\r\n\
        nop\n\
        endprogram\r\n\
        start 0x3 0x10 0\n\
        ",
    size: "234",
    status: Status::Done,
    rest: "\
        schedule\n\
        q 3 3\n\
        endrecord\n\
        report\n\
        qpu 3 ended executed 3 interrupts 0\n\
        mem 00000000 00000001 00000003\n\
        ending done\n\
        endreport\n\
        ",
};
