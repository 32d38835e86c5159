use crate::{CheckFault, check, judge};
use qpu_flow::Flow;
use qpu_word::{Program, Word, WordFault};
use std::test::Fail;

/// `nop`, and `nop; thrend`.
const NOP: Word = Word(0x100009e7009e7000);

const END: Word = Word(0x300009e7009e7000);

/// A program, and its first hazard: the rule, the place, and the place told with it.
struct Case {
    name: &'static str,
    words: &'static [Word],
    refusal: Option<(u32, u32, u32)>,
}

/// Words and refusals were written by hand after the manual's tables; docs/HAZARDS.md has them as
/// assembly.
static CASES: [Case; 61] = [
    Case {
        name: "H1: a read of a row directly after its write",
        words: &[
            Word(0x10020067159e7000),
            Word(0x100208a715067d80),
            END,
            NOP,
            NOP,
        ],
        refusal: Some((1, 1, 0)),
    },
    Case {
        name: "H1: a nop between",
        words: &[
            Word(0x10020067159e7000),
            NOP,
            Word(0x100208a715067d80),
            END,
            NOP,
            NOP,
        ],
        refusal: None,
    },
    Case {
        name: "H1: a read of the row of that number in the other file",
        words: &[
            Word(0x10021067159e7000),
            Word(0x100208a715067d80),
            END,
            NOP,
            NOP,
        ],
        refusal: None,
    },
    Case {
        name: "H1: a row of file B",
        words: &[
            Word(0x10021067159e7000),
            Word(0x100208a7159c1fc0),
            END,
            NOP,
            NOP,
        ],
        refusal: Some((1, 1, 0)),
    },
    Case {
        name: "H1: a branch adds the row that the word before wrote",
        words: &[
            Word(0xf0f000a700000020),
            NOP,
            NOP,
            NOP,
            Word(0x10020067159e7000),
            Word(0xf0f429e700000000),
            NOP,
            NOP,
            NOP,
        ],
        refusal: Some((1, 5, 4)),
    },
    Case {
        name: "H2: a rotation by r5 directly after a write of r5",
        words: &[
            Word(0x10021967159e7000),
            Word(0xd00049e2809f0000),
            END,
            NOP,
            NOP,
        ],
        refusal: Some((2, 1, 0)),
    },
    Case {
        name: "H2: a nop between",
        words: &[
            Word(0x10021967159e7000),
            NOP,
            Word(0xd00049e2809f0000),
            END,
            NOP,
            NOP,
        ],
        refusal: None,
    },
    Case {
        name: "H2: a rotation by 1 directly after a write of r5",
        words: &[
            Word(0x10021967159e7000),
            Word(0xd00049e1809f1000),
            END,
            NOP,
            NOP,
        ],
        refusal: None,
    },
    Case {
        name: "H3: a rotation of an accumulator directly after its write",
        words: &[
            Word(0x10020827159a7d80),
            Word(0xd00049e1809f1000),
            Word(0xd00049e2809f0000),
            END,
            NOP,
            NOP,
        ],
        refusal: Some((3, 1, 0)),
    },
    Case {
        name: "H3: a nop between",
        words: &[
            Word(0x10020827159a7d80),
            NOP,
            Word(0xd00049e1809f1000),
            Word(0xd00049e2809f0000),
            END,
            NOP,
            NOP,
        ],
        refusal: None,
    },
    Case {
        name: "H3: a rotation by r5 of an accumulator directly after its write",
        words: &[
            Word(0x10020827159a7d80),
            Word(0xd00049e2809f0000),
            END,
            NOP,
            NOP,
        ],
        refusal: Some((3, 1, 0)),
    },
    Case {
        name: "H3: a rotation of another accumulator",
        words: &[
            Word(0x100208e7159e7240),
            Word(0xd00049e1809f1000),
            END,
            NOP,
            NOP,
        ],
        refusal: None,
    },
    Case {
        name: "H4: a uniform two words after the uniforms address",
        words: &[
            Word(0xe0020a2700000000),
            NOP,
            Word(0x1002082715827d80),
            END,
            NOP,
            NOP,
        ],
        refusal: Some((4, 2, 0)),
    },
    Case {
        name: "H4: two nops between",
        words: &[
            Word(0xe0020a2700000000),
            NOP,
            NOP,
            Word(0x1002082715827d80),
            END,
            NOP,
            NOP,
        ],
        refusal: None,
    },
    Case {
        name: "H4: two writes, told with the earlier one",
        words: &[
            Word(0xe0020a2700000000),
            Word(0xe0020a2700000000),
            Word(0x1002082715827d80),
            END,
            NOP,
            NOP,
        ],
        refusal: Some((4, 2, 0)),
    },
    Case {
        name: "H5: program end reads a uniform",
        words: &[Word(0x3002082715827d80), NOP, NOP],
        refusal: Some((5, 0, 0)),
    },
    Case {
        name: "H5: a slot of program end reads a uniform",
        words: &[END, NOP, Word(0x1002082715827d80)],
        refusal: Some((5, 2, 0)),
    },
    Case {
        name: "H5: a uniform directly before program end",
        words: &[Word(0x1002082715827d80), END, NOP, NOP],
        refusal: None,
    },
    Case {
        name: "H6: program end writes a row",
        words: &[Word(0x30020067159e7000), NOP, NOP],
        refusal: Some((6, 0, 0)),
    },
    Case {
        name: "H6: a slot of program end writes a row",
        words: &[END, Word(0x10020067159e7000), NOP],
        refusal: None,
    },
    Case {
        name: "H7: a slot of program end writes row 14",
        words: &[END, Word(0x100203a7159e7000), NOP],
        refusal: Some((7, 1, 0)),
    },
    Case {
        name: "H7: program end reads row 14",
        words: &[Word(0x30020827159cefc0), NOP, NOP],
        refusal: Some((7, 0, 0)),
    },
    Case {
        name: "H7: a slot of program end writes row 13",
        words: &[END, Word(0x10020367159e7000), NOP],
        refusal: None,
    },
    Case {
        name: "H8: two look-ups in a word",
        words: &[Word(0x10024e3c959e7000), END, NOP, NOP],
        refusal: Some((8, 0, 0)),
    },
    Case {
        name: "H8: both files read the mutex",
        words: &[Word(0x100209e715cf3dc0), END, NOP, NOP],
        refusal: Some((8, 0, 0)),
    },
    Case {
        name: "H8: one look-up and one reading of the mutex, in two words",
        words: &[
            Word(0x10020e27159e7000),
            Word(0x100209e715ce7d80),
            END,
            NOP,
            NOP,
        ],
        refusal: None,
    },
    Case {
        name: "H9: program end in a slot of a branch",
        words: &[Word(0xf0f809e700000000), NOP, END, NOP, END, NOP, NOP],
        refusal: Some((9, 2, 0)),
    },
    Case {
        name: "H9: a branch in a slot of program end",
        words: &[END, NOP, Word(0xf0f809e7ffffffd0), NOP, NOP, NOP],
        refusal: Some((9, 2, 0)),
    },
    Case {
        name: "H9: program end directly after the slots",
        words: &[Word(0xf0f809e700000000), NOP, NOP, NOP, END, NOP, NOP],
        refusal: None,
    },
    Case {
        name: "H10: a third slot that is no word",
        words: &[Word(0xf0f809e7ffffffe0), NOP, NOP],
        refusal: Some((10, 2, 2)),
    },
    Case {
        name: "H10: three slots",
        words: &[Word(0xf0f809e7ffffffe0), NOP, NOP, NOP],
        refusal: None,
    },
    Case {
        name: "H10: no word at all",
        words: &[],
        refusal: Some((10, 0, 0)),
    },
    Case {
        name: "H10: no program end",
        words: &[NOP],
        refusal: Some((10, 0, 0)),
    },
    Case {
        name: "H10: a conditional branch whose next word is missing",
        words: &[
            Word(0x100229e7159e7000),
            Word(0xf03809e7ffffffe0),
            NOP,
            NOP,
            NOP,
        ],
        refusal: Some((10, 4, 4)),
    },
    Case {
        name: "H10: a target between two words",
        words: &[Word(0xf0f009e700000004), NOP, NOP, NOP],
        refusal: Some((10, 3, 3)),
    },
    Case {
        name: "H10: a target behind the last word",
        words: &[Word(0xf0f009e700000020), NOP, NOP, NOP],
        refusal: Some((10, 3, 3)),
    },
    Case {
        name: "H11: both units write r0",
        words: &[Word(0x10024820959e7249), END, NOP, NOP],
        refusal: Some((11, 0, 0)),
    },
    Case {
        name: "H11: one unit writes ra1, the other rb1",
        words: &[Word(0x10024041959e7249), END, NOP, NOP],
        refusal: None,
    },
    Case {
        name: "H11: both link places are r0",
        words: &[Word(0xf0f8082000000000), NOP, NOP, NOP, END, NOP, NOP],
        refusal: Some((11, 0, 0)),
    },
    Case {
        name: "H12: r4 before any TMU load",
        words: &[Word(0x10020827159e7900), END, NOP, NOP],
        refusal: Some((12, 0, 0)),
    },
    Case {
        name: "H12: r4 after a TMU load",
        words: &[
            Word(0x10020e27159e7000),
            Word(0xa00009e7009e7000),
            Word(0x10020827159e7900),
            END,
            NOP,
            NOP,
        ],
        refusal: None,
    },
    Case {
        name: "H12: a test of Z before any setting",
        words: &[Word(0x10040827159e7240), END, NOP, NOP],
        refusal: Some((12, 0, 0)),
    },
    Case {
        name: "H12: a test of Z after a setting",
        words: &[
            Word(0x100229e7159e7000),
            Word(0x10040827159e7240),
            END,
            NOP,
            NOP,
        ],
        refusal: None,
    },
    Case {
        name: "H12: a test of C after a setting by or",
        words: &[
            Word(0x100229e7159e7000),
            Word(0x100c0827159e7240),
            END,
            NOP,
            NOP,
        ],
        refusal: Some((12, 1, 1)),
    },
    Case {
        name: "H12: a test of C after a setting by sub",
        words: &[
            Word(0x100229e70d9e7040),
            Word(0x100c0827159e7240),
            END,
            NOP,
            NOP,
        ],
        refusal: None,
    },
    Case {
        name: "H12: C is defined on one way to the test alone",
        words: &[
            Word(0x100229e70d9e7040),
            Word(0xf0a809e700000008),
            NOP,
            NOP,
            NOP,
            Word(0xe00229e700000000),
            Word(0x100c0827159e7240),
            END,
            NOP,
            NOP,
        ],
        refusal: Some((12, 6, 6)),
    },
    Case {
        name: "H13: five look-ups outstanding",
        words: &[
            Word(0x10020e27159e7000),
            Word(0x10020e27159e7000),
            Word(0x10020e27159e7000),
            Word(0x10020e27159e7000),
            Word(0x10020e27159e7000),
            END,
            NOP,
            NOP,
        ],
        refusal: Some((13, 4, 4)),
    },
    Case {
        name: "H13: four look-ups outstanding",
        words: &[
            Word(0x10020e27159e7000),
            Word(0x10020e27159e7000),
            Word(0x10020e27159e7000),
            Word(0x10020e27159e7000),
            END,
            NOP,
            NOP,
        ],
        refusal: None,
    },
    Case {
        name: "H13: a TMU load without a look-up",
        words: &[Word(0xa00009e7009e7000), END, NOP, NOP],
        refusal: Some((13, 0, 0)),
    },
    Case {
        name: "H13: a TMU load of the other unit",
        words: &[
            Word(0x10020f27159e7000),
            Word(0xa00009e7009e7000),
            END,
            NOP,
            NOP,
        ],
        refusal: Some((13, 1, 1)),
    },
    Case {
        name: "H13: a fifth look-up in a loop",
        words: &[
            Word(0x100229e7159e7000),
            Word(0x10020e27159e7000),
            Word(0xf03809e7ffffffd8),
            NOP,
            NOP,
            NOP,
            END,
            NOP,
            NOP,
        ],
        refusal: Some((13, 1, 1)),
    },
    Case {
        name: "H15: a write of the VPM by a condition",
        words: &[
            Word(0x100229e7159e7000),
            Word(0x10040c27159e7000),
            END,
            NOP,
            NOP,
        ],
        refusal: Some((15, 1, 1)),
    },
    Case {
        name: "H15: a write of r0 by a condition",
        words: &[
            Word(0x100229e7159e7000),
            Word(0x10040827159e7000),
            END,
            NOP,
            NOP,
        ],
        refusal: None,
    },
    Case {
        name: "H16: both files read the VPM",
        words: &[Word(0x1002082715c30dc0), END, NOP, NOP],
        refusal: Some((16, 0, 0)),
    },
    Case {
        name: "H16: a read and a write of the VPM",
        words: &[Word(0x10020c2715c27d80), END, NOP, NOP],
        refusal: Some((16, 0, 0)),
    },
    Case {
        name: "H16: one read of the VPM",
        words: &[Word(0x1002082715c27d80), END, NOP, NOP],
        refusal: None,
    },
    Case {
        name: "H1: neighbours that execute one after the other, not in the text",
        words: &[
            Word(0xf0f809e700000008),
            NOP,
            NOP,
            Word(0x10020067159e7000),
            NOP,
            Word(0x100208a715067d80),
            END,
            NOP,
            NOP,
        ],
        refusal: Some((1, 5, 3)),
    },
    Case {
        name: "H1: textual neighbours that never execute one after the other",
        words: &[
            Word(0xf0f809e700000008),
            NOP,
            NOP,
            Word(0x10020067159e7000),
            Word(0x100208a715067d80),
            NOP,
            END,
            NOP,
            NOP,
        ],
        refusal: None,
    },
    Case {
        name: "H1: a register branch back to a link point",
        words: &[
            Word(0xf0f800a700000018),
            NOP,
            NOP,
            NOP,
            END,
            NOP,
            NOP,
            Word(0xf0f449e700000000),
            NOP,
            NOP,
            Word(0x10020067159e7000),
        ],
        refusal: None,
    },
    Case {
        name: "H1: the word at the link point reads what the last slot wrote",
        words: &[
            Word(0xf0f800a700000020),
            NOP,
            NOP,
            NOP,
            Word(0x100208a715067d80),
            END,
            NOP,
            NOP,
            Word(0xf0f449e700000000),
            NOP,
            NOP,
            Word(0x10020067159e7000),
        ],
        refusal: Some((1, 4, 11)),
    },
    Case {
        name: "H1: the earlier of two breaks",
        words: &[
            Word(0x10024e3c959e7000),
            Word(0x10020067159e7000),
            Word(0x100208a715067d80),
            END,
            NOP,
            NOP,
        ],
        refusal: Some((8, 0, 0)),
    },
];

#[test]
fn programs_are_refused_at_their_first_hazard(rt: HostRuntime) -> Result<(), Fail> {
    for case in &CASES {
        let name = case.name;
        assert!(rt; case.words.len() <= 4096);
        let refusal = match check(rt.alloc(), case.words) {
            Ok(_) => None,
            Err(CheckFault::Hazard { rule, at, before }) => Some((rule, at, before)),
            Err(_) => return Err(Fail::from("the words are in the profile")),
        };
        assert!(rt; refusal == case.refusal, "{name}: {refusal:?}");
    }
    Ok(())
}

#[test]
fn a_word_outside_the_profile_comes_before_hazards(rt: HostRuntime) -> Result<(), Fail> {
    let fadd = Word(0x10020827019e7280);
    let Err(fault) = check(rt.alloc(), &[Word(0x3002082715827d80), fadd, fadd]) else {
        return Err(Fail::from("an fadd is outside the profile"));
    };
    assert!(rt; fault == CheckFault::Word(1, WordFault::FloatOp));
    Ok(())
}

#[test]
fn a_program_of_the_profile_is_judged(rt: HostRuntime) -> Result<(), Fail> {
    let Ok(clean) = Flow::of(rt.alloc(), &[END, NOP, NOP]) else {
        return Err(Fail::from("the words are in the profile"));
    };
    let Ok(checked) = judge(rt.alloc(), clean) else {
        return Err(Fail::from("no path breaks a rule"));
    };
    assert!(rt; checked.len() == 3 && checked.word(0) == Some(END));
    let Ok(endless) = Flow::of(rt.alloc(), &[NOP, NOP]) else {
        return Err(Fail::from("the words are in the profile"));
    };
    let Err(fault) = judge(rt.alloc(), endless) else {
        return Err(Fail::from("the program has no end"));
    };
    let (rule, at, before) = (10, 1, 1);
    assert!(rt; fault == CheckFault::Hazard { rule, at, before });
    Ok(())
}

#[test]
fn a_checked_program_gives_its_words(rt: HostRuntime) -> Result<(), Fail> {
    let link = Word(0xf0f800a700000000);
    let Ok(checked) = check(rt.alloc(), &[link, NOP, NOP, NOP, END, NOP, NOP]) else {
        return Err(Fail::from("no path breaks a rule"));
    };
    assert!(rt; checked.len() == 7);
    assert!(rt; checked.word(0) == Some(link));
    assert!(rt; checked.word(7) == None);
    assert!(rt; checked.is_link(4) && !checked.is_link(5));
    assert!(rt; checked.words().len() == 7);
    Ok(())
}
