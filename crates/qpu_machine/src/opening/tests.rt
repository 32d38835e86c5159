use crate::{Actor, Machine, Start};
use arrayvec::ArrayVec;
use qpu_hazard::{Programs, check};
use qpu_mem::Memory;
use qpu_word::Word;
use std::sync::Arc;
use std::test::Fail;

/// `nop; thrend`, and two `nop`.
const WORDS: [Word; 3] = [
    Word(0x300009e7009e7000),
    Word(0x100009e7009e7000),
    Word(0x100009e7009e7000),
];

/// Processor 3 with uniforms at byte 8.
const THREE: Start = Start {
    q: 3,
    program: 0,
    uniforms: 8,
};

#[test]
fn a_machine_opens_and_a_copy_goes_its_own_way(rt: HostRuntime) -> Result<(), Fail> {
    let alloc = rt.alloc();
    let memory = Memory::new(alloc, 4).map_err(|_| Fail::from("want of memory"))?;
    let checked = check(alloc, &WORDS).map_err(|_| Fail::from("the program is refused"))?;
    let list = vec![in alloc; checked].map_err(|_| Fail::from("want of memory"))?;
    let programs = Arc::new(alloc, Programs { list }).map_err(|_| Fail::from("want of memory"))?;
    let mut starts = ArrayVec::new();
    starts.push(THREE);
    let mut machine = Machine::new(alloc, memory, 10, programs, starts);
    assert!(rt; machine.start_of(3) == Some(THREE));
    assert!(rt; machine.start_of(0) == None);
    assert!(rt; machine.processor(0).is_none());
    assert!(rt; !machine.step(Actor::Exec(0)));
    assert!(rt; machine.step(Actor::Exec(3)));
    let mut copy = machine
        .copy(alloc)
        .map_err(|_| Fail::from("want of memory"))?;
    assert!(rt; copy.step(Actor::Exec(3)));
    assert!(rt; machine.processor(3).map(|p| p.executed()) == Some(1));
    assert!(rt; copy.processor(3).map(|p| p.executed()) == Some(2));
    assert!(rt; copy.start_of(3) == Some(THREE));
    let shared = copy
        .share_programs(alloc)
        .map_err(|_| Fail::from("want of memory"))?;
    assert!(rt; shared.list.len() == 1);
    Ok(())
}
