//! Jobs whose processors wait or run out, and what they give.
use crate::asking::Row;
use qpu_tool::Status;

/// Two processors that take turns by two semaphores.
pub const HANDED_OVER: Row = Row {
    job: "\
        qpujob 1\n\
        memory 16\n\
        limit 100\n\
        program a\n\
        sinc 0\n\
        sdec 1\n\
        nop; thrend\n\
        nop\n\
        nop\n\
        endprogram\n\
        program b\n\
        sdec 0\n\
        sinc 1\n\
        nop; thrend\n\
        nop\n\
        nop\n\
        endprogram\n\
        start 0 a 0\n\
        start 1 b 0\n\
        ",
    size: "163",
    status: Status::Done,
    rest: "\
        schedule\n\
        q 0 1\n\
        q 1 2\n\
        q 0 1\n\
        q 1 3\n\
        q 0 3\n\
        endrecord\n\
        report\n\
        qpu 0 ended executed 5 interrupts 0\n\
        qpu 1 ended executed 5 interrupts 0\n\
        ending done\n\
        endreport\n\
        ",
};

/// Two processors that both lower a semaphore first.
pub const BOTH_WAIT: Row = Row {
    job: "\
        qpujob 1\n\
        memory 16\n\
        limit 100\n\
        program a\n\
        sdec 0\n\
        sinc 0\n\
        nop; thrend\n\
        nop\n\
        nop\n\
        endprogram\n\
        start 0 a 0\n\
        start 1 a 0\n\
        ",
    size: "108",
    status: Status::Stuck,
    rest: "\
        schedule\n\
        endrecord\n\
        report\n\
        qpu 0 awaits semaphore 0 down at 0 executed 0 interrupts 0\n\
        qpu 1 awaits semaphore 0 down at 0 executed 0 interrupts 0\n\
        ending stuck\n\
        endreport\n\
        ",
};

/// A semaphore that is raised sixteen times.
pub const FIFTEEN: Row = Row {
    job: "\
        qpujob 1\n\
        memory 16\n\
        limit 100\n\
        program a\n\
        .rep 16\n\
        sinc 3\n\
        .endr\n\
        nop; thrend\n\
        nop\n\
        nop\n\
        endprogram\n\
        start 0 a 0\n\
        ",
    size: "103",
    status: Status::Stuck,
    rest: "\
        schedule\n\
        q 0 15\n\
        endrecord\n\
        report\n\
        qpu 0 awaits semaphore 3 up at 15 executed 15 interrupts 0\n\
        sem 3 15\n\
        ending stuck\n\
        endreport\n\
        ",
};

/// A processor that ends and keeps the mutex.
pub const MUTEX_KEPT: Row = Row {
    job: "\
        qpujob 1\n\
        memory 16\n\
        limit 100\n\
        program a\n\
        or -, mutex_acq, mutex_acq\n\
        nop; thrend\n\
        nop\n\
        nop\n\
        endprogram\n\
        start 0 a 0\n\
        start 1 a 0\n\
        ",
    size: "121",
    status: Status::Stuck,
    rest: "\
        schedule\n\
        q 0 4\n\
        endrecord\n\
        report\n\
        qpu 0 ended executed 4 interrupts 0\n\
        qpu 1 awaits mutex at 0 executed 0 interrupts 0\n\
        mutex 0\n\
        ending stuck\n\
        endreport\n\
        ",
};

/// A loop without end.
pub const ROUND_AND_ROUND: Row = Row {
    job: "\
        qpujob 1\n\
        memory 16\n\
        limit 1000\n\
        program a\n\
        :a brr -, :a\n\
        nop\n\
        nop\n\
        nop\n\
        endprogram\n\
        start 0 a 0\n\
        ",
    size: "88",
    status: Status::RanOut,
    rest: "\
        schedule\n\
        q 0 1000\n\
        endrecord\n\
        report\n\
        qpu 0 ran out executed 1000 interrupts 0\n\
        ending ranout\n\
        endreport\n\
        ",
};

/// The same where no instruction is allowed.
pub const NO_STEP: Row = Row {
    job: "\
        qpujob 1\n\
        memory 16\n\
        limit 0\n\
        program a\n\
        :a brr -, :a\n\
        nop\n\
        nop\n\
        nop\n\
        endprogram\n\
        start 0 a 0\n\
        ",
    size: "85",
    status: Status::RanOut,
    rest: "\
        schedule\n\
        endrecord\n\
        report\n\
        qpu 0 ran out executed 0 interrupts 0\n\
        ending ranout\n\
        endreport\n\
        ",
};

/// The end alone, where no instruction is allowed.
pub const ENDS_WITHOUT_A_STEP: Row = Row {
    job: "\
        qpujob 1\n\
        memory 16\n\
        limit 0\n\
        program a\n\
        nop; thrend\n\
        nop\n\
        nop\n\
        endprogram\n\
        start 0 a 0\n\
        ",
    size: "80",
    status: Status::RanOut,
    rest: "\
        schedule\n\
        endrecord\n\
        report\n\
        qpu 0 ran out executed 0 interrupts 0\n\
        ending ranout\n\
        endreport\n\
        ",
};
