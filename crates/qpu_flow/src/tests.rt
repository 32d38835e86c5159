use crate::{Control, Flow, FlowFault, Next, Progress, Target};
use qpu_word::{Word, WordFault};
use std::test::Fail;

const NOP: Word = Word(0x100009e7009e7000);

/// `brr -, -32`: always, back to itself.
const TO_ITSELF: Word = Word(0xf0f809e7ffffffe0);

/// `brr.anynz ra0, 8`: writes a link, over the word after its slots.
const OVER_ONE: Word = Word(0xf038002700000008);

/// `bra -, 0; reg ra0`: always, to a link point.
const BACK: Word = Word(0xf0f409e700000000);

const END: Word = Word(0x300009e7009e7000);

/// An fadd, which is outside the profile.
const FADD: Word = Word(0x10020827019e7280);

#[test]
fn control_goes_its_ways(rt: HostRuntime) -> Result<(), Fail> {
    let words = [
        OVER_ONE, NOP, NOP, NOP, BACK, NOP, NOP, NOP, END, NOP, TO_ITSELF,
    ];
    let Ok(flow) = Flow::of(rt.alloc(), &words) else {
        return Err(Fail::from("the words are in the profile"));
    };
    assert!(rt; flow.links() == [4].as_slice());
    let at = |place, rest| Control { place, rest };
    let over = Target::Byte(40);
    let table = [
        (
            at(0, Progress::Straight),
            true,
            Next::At(at(1, Progress::To(3, over))),
        ),
        (
            at(0, Progress::Straight),
            false,
            Next::At(at(1, Progress::Straight)),
        ),
        (
            at(1, Progress::To(3, over)),
            false,
            Next::At(at(2, Progress::To(2, over))),
        ),
        (
            at(3, Progress::To(1, over)),
            false,
            Next::At(at(5, Progress::Straight)),
        ),
        (
            at(4, Progress::Straight),
            false,
            Next::At(at(5, Progress::To(3, Target::AnyLink))),
        ),
        (
            at(7, Progress::To(1, Target::AnyLink)),
            false,
            Next::AnyLink,
        ),
        (
            at(8, Progress::Straight),
            true,
            Next::At(at(9, Progress::Ending(2))),
        ),
        (at(9, Progress::Ending(1)), true, Next::Ended),
        (
            at(9, Progress::To(1, Target::Byte(88))),
            true,
            Next::Outside,
        ),
        (at(9, Progress::To(1, Target::Byte(4))), true, Next::Outside),
        (at(10, Progress::Straight), true, Next::Outside),
    ];
    for (control, taken, next) in table {
        if control.place < flow.len() {
            assert!(rt; flow.follow(control, taken) == next, "after {control:?}");
        }
    }
    Ok(())
}

#[test]
fn a_word_outside_the_profile_is_named(rt: HostRuntime) -> Result<(), Fail> {
    let Err(fault) = Flow::of(rt.alloc(), &[NOP, FADD, FADD]) else {
        return Err(Fail::from("an fadd is outside the profile"));
    };
    assert!(rt; fault == FlowFault::Word(1, WordFault::FloatOp));
    Ok(())
}
