//! Lines of words. Words and their lines come from the table of worked words, or were put together
//! by hand from their fields.
use crate::{disassemble, line_of};
use qpu_io::{MemSink, PlainSink, SinkFailed};
use qpu_word::Word;
use std::alloc::Global;
use std::test::Fail;

/// Whether words have these lines.
fn prints(alloc: Global, words: &[Word], lines: &str) -> Result<bool, Fail> {
    let mut sink = PlainSink::new(alloc);
    sink.reserve(1000).map_err(|_| "memory")?;
    disassemble(words, &mut sink).map_err(|_| "a sink with room")?;
    Ok(sink.bytes() == lines.as_bytes())
}

#[test]
fn the_worked_words_have_their_lines(rt: HostRuntime) -> Result<(), Fail> {
    let words = [
        Word(0x100009e7009e7000),
        Word(0x300009e7009e7000),
        Word(0xa00009e7009e7000),
        Word(0xe002082712345678),
        Word(0xe0021c6700001a00),
        Word(0x1002082715827d80),
        Word(0x100208270c820dc0),
        Word(0xd00208670c9c41c0),
        Word(0xd00228e70d9c17c0),
        Word(0x10020067159e7000),
        Word(0x100208a715067d80),
        Word(0x10020c27159e7480),
        Word(0x100209e715ce7d80),
        Word(0xd00049e1809f1000),
        Word(0xf0f809e7ffffffe0),
        Word(0xf03809e7ffffff90),
        Word(0xe80009e700000003),
        Word(0xe80009e700000013),
    ];
    let lines = "nop\n\
         nop; thrend\n\
         nop; ldtmu0\n\
         ldi r0, 0x12345678\n\
         ldi vw_setup, 0x00001a00\n\
         or r0, unif, unif\n\
         add r0, unif, unifb\n\
         add r1, r0, 4\n\
         sub.setf r3, r3, 1\n\
         or ra1, r0, r0\n\
         or r2, ra1, ra1\n\
         or vpm, r2, r2\n\
         or -, mutex_acq, mutex_acq\n\
         nop; v8min r1, r0, r0; rot 1\n\
         brr -, -32\n\
         brr.anynz -, -112\n\
         sinc 3\n\
         sdec 3\n";
    assert!(rt; prints(rt.alloc(), &words, lines)?);
    Ok(())
}

#[test]
fn other_words_stand_as_they_are(rt: HostRuntime) -> Result<(), Fail> {
    let words = [
        Word(0x100009e7009e7001),
        Word(0x10020827019e7280),
        Word(0x0000000000000000),
        Word(0xffffffffffffffff),
        Word(0xd00009e7009e7000),
        Word(0x100029e7009e7000),
        Word(0x100019e7009e7000),
        Word(0xe00209e700000000),
        Word(0xf0c009e700000000),
        Word(0xe80009e700000023),
    ];
    let lines = ".word 0x100009e7009e7001\n\
         .word 0x10020827019e7280\n\
         .word 0x0000000000000000\n\
         .word 0xffffffffffffffff\n\
         .word 0xd00009e7009e7000\n\
         .word 0x100029e7009e7000\n\
         .word 0x100019e7009e7000\n\
         .word 0xe00209e700000000\n\
         .word 0xf0c009e700000000\n\
         .word 0xe80009e700000023\n";
    assert!(rt; prints(rt.alloc(), &words, lines)?);
    Ok(())
}

#[test]
fn each_operation_has_its_name(rt: HostRuntime) -> Result<(), Fail> {
    let words = [
        Word(0x100208270c9e7280),
        Word(0x100208270d9e7280),
        Word(0x100208270e9e7280),
        Word(0x100208270f9e7280),
        Word(0x10020827109e7280),
        Word(0x10020827119e7280),
        Word(0x10020827129e7280),
        Word(0x10020827139e7280),
        Word(0x10020827149e7280),
        Word(0x10020827159e7280),
        Word(0x10020827169e7280),
        Word(0x100208271e9e7280),
        Word(0x100208271f9e7280),
        Word(0x10020827179e7240),
        Word(0x10020867189e7b40),
        Word(0x100049e0409e700a),
        Word(0x100049e0609e700a),
        Word(0x100049e0809e700a),
        Word(0x100049e0a09e700a),
        Word(0x100049e0c09e700a),
        Word(0x100049e0e09e700a),
        Word(0x10024821de9e729c),
        Word(0x10024823ec9e7053),
    ];
    let lines = "add r0, r1, r2\n\
         sub r0, r1, r2\n\
         shr r0, r1, r2\n\
         asr r0, r1, r2\n\
         ror r0, r1, r2\n\
         shl r0, r1, r2\n\
         min r0, r1, r2\n\
         max r0, r1, r2\n\
         and r0, r1, r2\n\
         or r0, r1, r2\n\
         xor r0, r1, r2\n\
         v8adds r0, r1, r2\n\
         v8subs r0, r1, r2\n\
         not r0, r1\n\
         clz r1, r5\n\
         nop; mul24 r0, r1, r2\n\
         nop; v8muld r0, r1, r2\n\
         nop; v8min r0, r1, r2\n\
         nop; v8max r0, r1, r2\n\
         nop; v8adds r0, r1, r2\n\
         nop; v8subs r0, r1, r2\n\
         v8adds r0, r1, r2; v8adds r1, r3, r4\n\
         add r0, r0, r1; v8subs r3, r2, r3\n";
    assert!(rt; prints(rt.alloc(), &words, lines)?);
    Ok(())
}

#[test]
fn conditions_and_flags_are_suffixes(rt: HostRuntime) -> Result<(), Fail> {
    let words = [
        Word(0x100408270c9e7280),
        Word(0x1000c9e0409e700a),
        Word(0x100808270c9e7280),
        Word(0x100149e0409e700a),
        Word(0x100c08270c9e7280),
        Word(0x1001c9e0409e700a),
        Word(0x100069e0409e700a),
        Word(0x1007a8214c9e728a),
        Word(0x100229e70d9e7280),
    ];
    let lines = "add.ifz r0, r1, r2\n\
         nop; mul24.ifnz r0, r1, r2\n\
         add.ifn r0, r1, r2\n\
         nop; mul24.ifnn r0, r1, r2\n\
         add.ifc r0, r1, r2\n\
         nop; mul24.ifnc r0, r1, r2\n\
         nop; mul24.setf r0, r1, r2\n\
         add.ifnz.setf r0, r1, r2; mul24.ifc r1, r1, r2\n\
         sub.setf -, r1, r2\n";
    assert!(rt; prints(rt.alloc(), &words, lines)?);
    Ok(())
}

#[test]
fn each_pack_is_a_suffix(rt: HostRuntime) -> Result<(), Fail> {
    let words = [
        Word(0x10120027159e7240),
        Word(0x10220027159e7240),
        Word(0x10320027159e7240),
        Word(0x10420027159e7240),
        Word(0x10520027159e7240),
        Word(0x10620027159e7240),
        Word(0x10720027159e7240),
        Word(0x10920027159e7240),
        Word(0x10a20027159e7240),
        Word(0x10b20027159e7240),
        Word(0x10c20027159e7240),
        Word(0x10d20027159e7240),
        Word(0x10e20027159e7240),
        Word(0x10f20027159e7240),
        Word(0x106059c5809e700a),
        Word(0x10f251df959e7252),
    ];
    let lines = "or ra0.16a, r1, r1\n\
         or ra0.16b, r1, r1\n\
         or ra0.8abcd, r1, r1\n\
         or ra0.8a, r1, r1\n\
         or ra0.8b, r1, r1\n\
         or ra0.8c, r1, r1\n\
         or ra0.8d, r1, r1\n\
         or ra0.16as, r1, r1\n\
         or ra0.16bs, r1, r1\n\
         or ra0.8abcds, r1, r1\n\
         or ra0.8as, r1, r1\n\
         or ra0.8bs, r1, r1\n\
         or ra0.8cs, r1, r1\n\
         or ra0.8ds, r1, r1\n\
         nop; v8min ra5.8c, r1, r2\n\
         or rb7, r1, r1; v8min ra31.8ds, r2, r2\n";
    assert!(rt; prints(rt.alloc(), &words, lines)?);
    Ok(())
}

#[test]
fn each_unpack_is_a_suffix(rt: HostRuntime) -> Result<(), Fail> {
    let words = [
        Word(0x12020827150e7c40),
        Word(0x14020827150e7c40),
        Word(0x16020827150e7c40),
        Word(0x18020827150e7c40),
        Word(0x1a020827150e7c40),
        Word(0x1c020827150e7c40),
        Word(0x1e020827150e7c40),
        Word(0x1a0248218c7e7db0),
        Word(0x1e42002715067d80),
    ];
    let lines = "or r0, ra3.16a, r1\n\
         or r0, ra3.16b, r1\n\
         or r0, ra3.8dr, r1\n\
         or r0, ra3.8a, r1\n\
         or r0, ra3.8b, r1\n\
         or r0, ra3.8c, r1\n\
         or r0, ra3.8d, r1\n\
         add r0, ra31.8b, ra31.8b; v8min r1, ra31.8b, r0\n\
         or ra0.8a, ra1.8d, ra1.8d\n";
    assert!(rt; prints(rt.alloc(), &words, lines)?);
    Ok(())
}

#[test]
fn signals_and_other_reads_stand_behind_the_parts(rt: HostRuntime) -> Result<(), Fail> {
    let words = [
        Word(0xb00009e7009e7000),
        Word(0x300248218c9e728a),
        Word(0xa002082715105dc0),
        Word(0xd00049e0809f1009),
        Word(0xd00049e0809ff009),
        Word(0xd00049e2809f0003),
        Word(0x100009e700ca7000),
        Word(0x100009e7009e6000),
        Word(0x3002082715830240),
        Word(0xd00049e080cf2009),
    ];
    let lines = "nop; ldtmu1\n\
         add r0, r1, r2; v8min r1, r1, r2; thrend\n\
         or r0, ra4, rb5; ldtmu0\n\
         nop; v8min r0, r1, r1; rot 1\n\
         nop; v8min r0, r1, r1; rot 15\n\
         nop; v8min r2, r0, r3; rot r5\n\
         nop; reada vpm_ld_wait\n\
         nop; readb qpu_num\n\
         or r0, r1, r1; thrend; reada unif; readb vpmb\n\
         nop; v8min r0, r1, r1; rot 2; reada mutex_acq\n";
    assert!(rt; prints(rt.alloc(), &words, lines)?);
    Ok(())
}

#[test]
fn places_have_their_names(rt: HostRuntime) -> Result<(), Fail> {
    let words = [
        Word(0x10020827157e7d80),
        Word(0x1002082715c27d80),
        Word(0x10020827159c0fc0),
        Word(0x10020827159f0fc0),
        Word(0x10024821959a6df7),
        Word(0x100208e7159e7000),
        Word(0x100049e7809e7000),
        Word(0x10020c27159e7000),
        Word(0x10024041959e7009),
        Word(0x10025041959e7009),
    ];
    let lines = "or r0, ra31, ra31\n\
         or r0, vpm, vpm\n\
         or r0, rb0, rb0\n\
         or r0, vpmb, vpmb\n\
         or r0, elem_num, qpu_num; v8min r1, elem_num, qpu_num\n\
         or r3, r0, r0\n\
         nop; v8min -, r0, r0\n\
         or vpm, r0, r0\n\
         or ra1, r0, r0; v8min rb1, r1, r1\n\
         or rb1, r0, r0; v8min ra1, r1, r1\n";
    assert!(rt; prints(rt.alloc(), &words, lines)?);
    Ok(())
}

#[test]
fn small_immediates_have_their_values(rt: HostRuntime) -> Result<(), Fail> {
    let words = [
        Word(0xd00208270c9cf1c0),
        Word(0xd00208270c9d01c0),
        Word(0xd00208270c9df1c0),
        Word(0xd00208270c9e01c0),
        Word(0xd00208270c9e71c0),
        Word(0xd00208270c9e81c0),
        Word(0xd00208270c9ef1c0),
    ];
    let lines = "add r0, r0, 15\n\
         add r0, r0, -16\n\
         add r0, r0, -1\n\
         add r0, r0, 0x3f800000\n\
         add r0, r0, 0x43000000\n\
         add r0, r0, 0x3b800000\n\
         add r0, r0, 0x3f000000\n";
    assert!(rt; prints(rt.alloc(), &words, lines)?);
    Ok(())
}

#[test]
fn loads_name_setups_and_addresses(rt: HostRuntime) -> Result<(), Fail> {
    let words = [
        Word(0xe0020c6700001a00),
        Word(0xe0020ca700000100),
        Word(0xe0021ca700000100),
        Word(0xe002096700000001),
        Word(0xe002196700000001),
        Word(0xe00049f100000002),
        Word(0xe00059f100000002),
    ];
    let lines = "ldi vr_setup, 0x00001a00\n\
         ldi vr_addr, 0x00000100\n\
         ldi vw_addr, 0x00000100\n\
         ldi r5quad, 0x00000001\n\
         ldi r5rep, 0x00000001\n\
         ldi -, 0x00000002; also vw_setup\n\
         ldi -, 0x00000002; also vr_setup\n";
    assert!(rt; prints(rt.alloc(), &words, lines)?);
    Ok(())
}

#[test]
fn loads_and_semaphores_have_their_lines(rt: HostRuntime) -> Result<(), Fail> {
    let words = [
        Word(0xe2020867ffff0001),
        Word(0xe60240c400000007),
        Word(0xe005e821abcdef01),
        Word(0xe20029e780000000),
        Word(0xe80009e700000000),
        Word(0xe80009e70000001f),
    ];
    let lines = "ldis r1, 0xffff0001\n\
         ldiu ra3, 0x00000007; also rb4\n\
         ldi.ifz.setf r0, 0xabcdef01; also.ifnc r1\n\
         ldis.setf -, 0x80000000\n\
         sinc 0\n\
         sdec 15\n";
    assert!(rt; prints(rt.alloc(), &words, lines)?);
    Ok(())
}

#[test]
fn each_branch_condition_is_a_suffix(rt: HostRuntime) -> Result<(), Fail> {
    let words = [
        Word(0xf00009e700000008),
        Word(0xf01809e700000008),
        Word(0xf02009e700000008),
        Word(0xf03809e700000008),
        Word(0xf04009e700000008),
        Word(0xf05809e700000008),
        Word(0xf06009e700000008),
        Word(0xf07809e700000008),
        Word(0xf08009e700000008),
        Word(0xf09809e700000008),
        Word(0xf0a009e700000008),
        Word(0xf0b809e700000008),
    ];
    let lines = "bra.allz -, 0x00000008\n\
         brr.allnz -, 8\n\
         bra.anyz -, 0x00000008\n\
         brr.anynz -, 8\n\
         bra.alln -, 0x00000008\n\
         brr.allnn -, 8\n\
         bra.anyn -, 0x00000008\n\
         brr.anynn -, 8\n\
         bra.allc -, 0x00000008\n\
         brr.allnc -, 8\n\
         bra.anyc -, 0x00000008\n\
         brr.anync -, 8\n";
    assert!(rt; prints(rt.alloc(), &words, lines)?);
    Ok(())
}

#[test]
fn branches_have_links_and_a_row(rt: HostRuntime) -> Result<(), Fail> {
    let words = [
        Word(0xf0f809e780000000),
        Word(0xf0f809e77fffffff),
        Word(0xf0f009e7ffffffff),
        Word(0xf0f810e700000000),
        Word(0xf0f019c400000010),
        Word(0xf0f4a9e700000000),
        Word(0xf00fe81ffffffff8),
    ];
    let lines = "brr -, -2147483648\n\
         brr -, 2147483647\n\
         bra -, 0xffffffff\n\
         brr rb3, 0\n\
         bra -, 0x00000010; link ra4\n\
         bra -, 0x00000000; reg ra5\n\
         brr.allz r0, -8; link rb31; reg ra31\n";
    assert!(rt; prints(rt.alloc(), &words, lines)?);
    Ok(())
}

#[test]
fn a_line_has_no_end_of_its_own(rt: HostRuntime) -> Result<(), Fail> {
    let mut sink = PlainSink::new(rt.alloc());
    sink.reserve(40).map_err(|_| "memory")?;
    assert_eq!(rt; line_of(Word(0x300009e7009e7000), &mut sink), Ok(()));
    assert_eq!(rt; sink.bytes(), b"nop; thrend".as_slice());
    Ok(())
}

#[test]
fn passes_no_failed_write_over(rt: HostRuntime) -> Result<(), Fail> {
    for (call, front) in [(0, ""), (1, "nop"), (2, "nop; "), (3, "nop; thrend")] {
        let fails = [call].to_vec(rt.alloc())?;
        let mut sink = MemSink::new(rt.alloc(), fails);
        sink.reserve(40).map_err(|_| "memory")?;
        let words = [Word(0x300009e7009e7000)];
        assert_eq!(rt;
            disassemble(&words, &mut sink),
            Err(SinkFailed),
            "call {call}"
        );
        assert_eq!(rt; sink.bytes(), front.as_bytes(), "call {call}");
    }
    Ok(())
}
