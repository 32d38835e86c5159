//! Jobs and what they give, written by hand.

/// A job of four words as numbers: `ldi r0, 0x12345678`, program end, and its two slots.
pub const FIRST: &[u8] =
    b"qpujob 1\nmemory 16\nlimit 100\nprogram a\n.word 0xe002082712345678\n.word 0x300009e7009e7000\n.word 0x100009e7009e7000\n.word 0x100009e7009e7000\nendprogram\nstart 0 a 0\n";

/// What it gives.
pub const FIRST_OUTPUT: &[u8] =
    b"qpurecord 2\njob 162\nqpujob 1\nmemory 16\nlimit 100\nprogram a\n.word 0xe002082712345678\n.word 0x300009e7009e7000\n.word 0x100009e7009e7000\n.word 0x100009e7009e7000\nendprogram\nstart 0 a 0\nschedule\nq 0 4\nendrecord\nreport\nqpu 0 ended executed 4 interrupts 0\nr0 12345678 12345678 12345678 12345678 12345678 12345678 12345678 12345678 12345678 12345678 12345678 12345678 12345678 12345678 12345678 12345678\nending done\nendreport\n";

/// The same in assembly text.
pub const ASSEMBLED: &[u8] =
    b"qpujob 1\nmemory 16\nlimit 100\nprogram a\nldi r0, 0x12345678\nnop; thrend\nnop\nnop\nendprogram\nstart 0 a 0\n";

/// What it gives.
pub const ASSEMBLED_OUTPUT: &[u8] =
    b"qpurecord 2\njob 101\nqpujob 1\nmemory 16\nlimit 100\nprogram a\nldi r0, 0x12345678\nnop; thrend\nnop\nnop\nendprogram\nstart 0 a 0\nschedule\nq 0 4\nendrecord\nreport\nqpu 0 ended executed 4 interrupts 0\nr0 12345678 12345678 12345678 12345678 12345678 12345678 12345678 12345678 12345678 12345678 12345678 12345678 12345678 12345678 12345678 12345678\nending done\nendreport\n";

/// The same with `add r1, r0, r0` as second word.
pub const SECOND: &[u8] =
    b"qpujob 1\nmemory 16\nlimit 100\nprogram a\n.word 0xe002082712345678\n.word 0x100208670c9e7000\n.word 0x300009e7009e7000\n.word 0x100009e7009e7000\n.word 0x100009e7009e7000\nendprogram\nstart 0 a 0\n";

/// What it gives.
pub const SECOND_OUTPUT: &[u8] =
    b"qpurecord 2\njob 187\nqpujob 1\nmemory 16\nlimit 100\nprogram a\n.word 0xe002082712345678\n.word 0x100208670c9e7000\n.word 0x300009e7009e7000\n.word 0x100009e7009e7000\n.word 0x100009e7009e7000\nendprogram\nstart 0 a 0\nschedule\nq 0 5\nendrecord\nreport\nqpu 0 ended executed 5 interrupts 0\nr0 12345678 12345678 12345678 12345678 12345678 12345678 12345678 12345678 12345678 12345678 12345678 12345678 12345678 12345678 12345678 12345678\nr1 2468acf0 2468acf0 2468acf0 2468acf0 2468acf0 2468acf0 2468acf0 2468acf0 2468acf0 2468acf0 2468acf0 2468acf0 2468acf0 2468acf0 2468acf0 2468acf0\nending done\nendreport\n";

/// The first job without its line `endprogram`.
pub const WITHOUT_END: &[u8] =
    b"qpujob 1\nmemory 16\nlimit 100\nprogram a\n.word 0xe002082712345678\n.word 0x300009e7009e7000\n.word 0x100009e7009e7000\n.word 0x100009e7009e7000\nstart 0 a 0\n";
