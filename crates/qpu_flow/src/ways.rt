//! Where control goes after a word: with its choices made, and with all of them open.
ghost use Rattle.std.specs.Prelude.{◌≡◌, ◌<◌, ◌/◌, length, Option, IfSome, IsTrue};
ghost use Rattle.std.specs.Option.{SomeIff};
ghost use Rattle.qpu_flow.specs.declared.slots.Slots.{Slots};
ghost use Rattle.qpu_flow.specs.Control.{is_word_byte, one_less, slots_after, after_branch, after_last_slot, next_from, is_past, is_no_word, leads_out};
ghost use Rattle.qpu_flow.specs.Follow.{RestIs, Follows};
ghost use Rattle.qpu_flow.specs.Steps.{going, arrived, gone_on, follow};

use crate::branch::{branched, is_always, is_register, plain_target};
use crate::control::{Control, Next, Progress, Target};
use crate::flow::Flow;
use crate::slots::{Slots, Successors};
use qpu_word::code::{BRANCH_SLOTS, END_SLOTS, INSTRUCTION_BYTES};

/// One word further in the slots; none one word after the last.
fn one_less(slots: Option<Slots>) -> Option<Slots>
    ensures { result ≡ one_less slots }
{
    let slots = slots?;
    if slots.left == 0 {
        return None;
    }
    Some(Slots {
        place: slots.place,
        left: slots.left - 1,
    })
}

impl Flow {
    /// The place of the word at a byte address; none where no word of the program stands there.
    pub fn place_of(&self, byte: u32) -> Option<u32>
        ensures { SomeIff result (IsTrue (is_word_byte self.now byte)) (byte / 8) }
    {
        if self.is_word_byte(byte) {
            Some(byte / INSTRUCTION_BYTES)
        } else {
            None
        }
    }

    /// Whether a word of the program stands at a byte address.
    fn is_word_byte(&self, byte: u32) -> bool
        ensures { result ≡ is_word_byte self.now byte }
    {
        byte % INSTRUCTION_BYTES == 0 && byte / INSTRUCTION_BYTES < self.len()
    }

    /// The slots in progress after the word at a place, a word of the program, where `slots` were in
    /// progress before it.
    pub fn slots_after(&self, slots: Option<Slots>, at: u32) -> Option<Slots>
        requires { at < length self.now }
        ensures { result ≡ slots_after self.now slots at }
    {
        let f = self.fields(at);
        if f.is_branch() {
            return Some(Slots {
                place: at,
                left: BRANCH_SLOTS,
            });
        }
        if f.is_program_end() {
            return Some(Slots {
                place: at,
                left: END_SLOTS,
            });
        }
        one_less(slots)
    }

    /// What follows the last slot of a branch, at a place.
    fn after_branch(&self, branch: u32, at: u32) -> Successors
        requires branch { branch < length self.now }
        requires at { at < length self.now }
        ensures { result ≡ after_branch self.now branch at }
    {
        let _ = self.len();
        let f = self.fields(branch);
        Successors {
            ahead: if is_always(&f) { None } else { Some(at + 1) },
            jump: if is_register(&f) {
                None
            } else {
                Some(plain_target(branch, &f))
            },
            any_link: is_register(&f),
        }
    }

    /// What follows the last slot of a branch or program end.
    fn after_last_slot(&self, begun: u32, at: u32) -> Successors
        requires begun { begun < length self.now }
        requires at { at < length self.now }
        ensures { result ≡ after_last_slot self.now begun at }
    {
        if self.fields(begun).is_branch() {
            return self.after_branch(begun, at);
        }
        Successors {
            ahead: None,
            jump: None,
            any_link: false,
        }
    }

    /// What follows the last executed word, after which these slots are in progress; word 0 where
    /// none was executed. Both places are words of the program.
    pub fn next_from(&self, slots: Option<Slots>, last: Option<u32>) -> Successors
        requires slots { IfSome slots (λ s. s.place < length self.now) }
        requires last { IfSome last (λ at. at < length self.now) }
        ensures { result ≡ next_from self.now slots last }
    {
        let Some(at) = last else {
            return Successors {
                ahead: Some(0),
                jump: None,
                any_link: false,
            };
        };
        let _ = self.len();
        if let Some(slots) = slots {
            if slots.left == 0 {
                return self.after_last_slot(slots.place, at);
            }
        }
        Successors {
            ahead: Some(at + 1),
            jump: None,
            any_link: false,
        }
    }

    /// Whether a place is behind the last word.
    fn is_past(&self, at: Option<u32>) -> bool
        ensures { result ≡ is_past self.now at }
    {
        match at {
            None => false,
            Some(at) => self.len() <= at,
        }
    }

    /// Whether a byte address is no word's.
    fn is_no_word(&self, byte: Option<u32>) -> bool
        ensures { result ≡ is_no_word self.now byte }
    {
        match byte {
            None => false,
            Some(byte) => !self.is_word_byte(byte),
        }
    }

    /// Whether successors ask for an address that is no word of the program.
    pub fn leads_out(&self, next: Successors) -> bool
        ensures { result ≡ leads_out self.now next }
    {
        self.is_past(next.ahead) || self.is_no_word(next.jump)
    }

    /// Control at a place, where a word stands there.
    fn going(&self, place: u32, rest: Progress) -> Next
        ensures { result ≡ going self.now place rest }
    {
        if place < self.len() {
            Next::At(Control { place, rest })
        } else {
            Next::Outside
        }
    }

    /// Control at a target.
    fn arrived(&self, target: Target) -> Next
        ensures { result ≡ arrived self.now target }
    {
        match target {
            Target::AnyLink => Next::AnyLink,
            Target::Byte(byte) => if self.is_word_byte(byte) {
                Next::At(Control {
                    place: byte / INSTRUCTION_BYTES,
                    rest: Progress::Straight,
                })
            } else {
                Next::Outside
            },
        }
    }

    /// Control after a word that is no branch and no program end.
    fn gone_on(&self, rest: Progress, at: u32) -> Next
        requires { at < 4096 }
        ensures { result ≡ gone_on self.now rest at }
    {
        match rest {
            Progress::Straight => self.going(at + 1, Progress::Straight),
            Progress::Ending(slots) => if slots < 2 {
                Next::Ended
            } else {
                self.going(at + 1, Progress::Ending(slots - 1))
            },
            Progress::To(slots, target) => if slots < 2 {
                self.arrived(target)
            } else {
                self.going(at + 1, Progress::To(slots - 1, target))
            },
        }
    }

    /// Control after the word at its place.
    fn stepped(&self, control: Control, taken: bool) -> Next
        requires { control.place < length self.now }
        ensures { result ≡ follow self.now control taken }
    {
        let _ = self.len();
        let f = self.fields(control.place);
        if f.is_branch() {
            return self.going(control.place + 1, branched(control.place, &f, taken));
        }
        if f.is_program_end() {
            return self.going(control.place + 1, Progress::Ending(END_SLOTS));
        }
        self.gone_on(control.rest, control.place)
    }

    /// Control after the word at its place, which is a word of the program. The clause speaks of what
    /// is in progress in the slots of one of its branches or program ends. An unconditional branch
    /// goes its way whatever `taken` is. `AnyLink` is where the last slot of a taken register branch
    /// was executed, `Ended` where that of program end was, and `Outside` where no word stands at
    /// the address that comes next.
    pub fn follow(&self, control: Control, taken: bool) -> Next
        requires { control.place < length self.now }
        ensures { (slots : Option Slots) → RestIs self.now slots control.rest → Follows self.now slots control taken result }
    {
        self.stepped(control, taken)
    }
}
