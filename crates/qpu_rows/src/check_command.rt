//! The command `check`: programs, and whether they are accepted.
use crate::asking::{CHECK, answered};
use qpu_tool::Status;
use std::test::Fail;

#[test]
fn a_clean_program_is_accepted(rt: HostRuntime) -> Result<(), Fail> {
    let alloc = rt.alloc();
    let rows = [
        ("nop; thrend\nnop\nnop\n", "accepted 3 words\n"),
        // a word stands between the write of a row and its read
        (
            "or ra1, r0, r0\nnop\nor r2, ra1, ra1\nnop; thrend\nnop\nnop\n",
            "accepted 6 words\n",
        ),
        // the neighbour in the text is never executed behind the write
        (
            "brr -, :t\nnop\nnop\nor ra1, r0, r0\nor r2, ra1, ra1\n:t nop\nnop; thrend\nnop\nnop\n",
            "accepted 9 words\n",
        ),
        // a rotation two words behind the write of its accumulator
        (
            "or r0, elem_num, elem_num\nnop\nnop; v8min r1, r0, r0; rot 1\nnop; v8min r2, r0, r0; rot r5\nnop; thrend\nnop\nnop\n",
            "accepted 7 words\n",
        ),
        // three words stand behind the branch, which comes back
        (":a brr -, :a\nnop\nnop\nnop\n", "accepted 4 words\n"),
    ];
    for (text, line) in rows {
        let answer = answered(alloc, &CHECK, text.as_bytes(), &[], &[])?;
        assert!(rt; answer.status == Status::Done, "{text}");
        assert!(rt; answer.text.as_slice() == line.as_bytes(), "{text}");
    }
    Ok(())
}

#[test]
fn a_hazard_is_refused_with_its_place(rt: HostRuntime) -> Result<(), Fail> {
    let alloc = rt.alloc();
    let rows = [
        ("", "refused hazard H10 at 0 after 0\n"),
        (
            "or ra1, r0, r0\nor r2, ra1, ra1\nnop; thrend\nnop\nnop\n",
            "refused hazard H1 at 1 after 0\n",
        ),
        (
            "brr -, :t\nnop\nnop\nor ra1, r0, r0\nnop\n:t or r2, ra1, ra1\nnop; thrend\nnop\nnop\n",
            "refused hazard H1 at 5 after 3\n",
        ),
        (
            "or r0, elem_num, elem_num\nnop; v8min r1, r0, r0; rot 1\nnop; v8min r2, r0, r0; rot r5\nnop; thrend\nnop\nnop\n",
            "refused hazard H3 at 1 after 0\n",
        ),
        ("nop\n", "refused hazard H10 at 0 after 0\n"),
        (
            ":a brr -, :a\nnop\nnop\n",
            "refused hazard H10 at 2 after 2\n",
        ),
    ];
    for (text, line) in rows {
        let answer = answered(alloc, &CHECK, text.as_bytes(), &[], &[])?;
        assert!(rt; answer.status == Status::HazardRefused, "{text}");
        assert!(rt; answer.text.as_slice() == line.as_bytes(), "{text}");
    }
    Ok(())
}

#[test]
fn a_word_outside_the_profile_comes_before_hazards(rt: HostRuntime) -> Result<(), Fail> {
    let alloc = rt.alloc();
    let rows = [
        (".word 0x10020827019e7280\n", "refused word FloatOp at 0\n"),
        (
            "or ra1, r0, r0\nor r2, ra1, ra1\n.word 0x200009e7009e7000\n",
            "refused word Signal at 2\n",
        ),
    ];
    for (text, line) in rows {
        let answer = answered(alloc, &CHECK, text.as_bytes(), &[], &[])?;
        assert!(rt; answer.status == Status::HazardRefused, "{text}");
        assert!(rt; answer.text.as_slice() == line.as_bytes(), "{text}");
    }
    Ok(())
}

#[test]
fn a_text_with_a_fault_is_refused_before_its_words(rt: HostRuntime) -> Result<(), Fail> {
    let alloc = rt.alloc();
    let rows = [
        (
            "ldi r0, 4294967296\n",
            "refused asm NumberTooLarge at line 1 column 9\n",
        ),
        (
            ".word 0x10020827019e7280\nfoo\n",
            "refused asm UnknownOp at line 2 column 1\n",
        ),
    ];
    for (text, line) in rows {
        let answer = answered(alloc, &CHECK, text.as_bytes(), &[], &[])?;
        assert!(rt; answer.status == Status::AsmRefused, "{text}");
        assert!(rt; answer.text.as_slice() == line.as_bytes(), "{text}");
    }
    let high = answered(alloc, &CHECK, &[0x61, 0xc3], &[], &[])?;
    assert!(rt; high.status == Status::NotAscii);
    let cut = answered(alloc, &CHECK, b"nop; thrend\nnop\nnop\n", &[], &[0])?;
    assert!(rt; cut.status == Status::WriteFault);
    Ok(())
}
