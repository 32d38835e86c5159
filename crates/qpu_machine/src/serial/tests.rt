//! Worked rows: words, and the schedule of their serial run.
ghost use Rattle.std.specs.Prelude.{◌<◌, ◌≤◌};

use crate::{Actor, Ending, Journal, Machine, Run, Start};
use arrayvec::ArrayVec;
use qpu_hazard::{Checked, Programs, check};
use qpu_mem::Memory;
use qpu_word::{FaultKind, Halt, Word};
use std::alloc::Global;
use std::sync::Arc;
use std::test::Fail;

const NOP: Word = Word(0x100009e7009e7000);

const END: Word = Word(0x300009e7009e7000);
/// `or r0, vpm, vpm`.
const READ: Word = Word(0x1002082715c27d80);
/// `sinc 3`.
const UP: Word = Word(0xe80009e700000003);

/// `add r0, unif, unifb`; `or r1, unif, unif`; `or r2, unif, unif`; program end.
const UNIFORMS: [Word; 6] = [
    Word(0x100208270c820dc0),
    Word(0x1002086715827d80),
    Word(0x100208a715827d80),
    END,
    NOP,
    NOP,
];

/// `ldi vw_setup, 0x0000023f`; `or vpm, elem_num, elem_num`; `ldi vr_setup, 0x00100a3f`;
/// `or r0, vpm, vpm`; program end.
const VECTORS: [Word; 7] = [
    Word(0xe0021c670000023f),
    Word(0x10020c27159a7d80),
    Word(0xe0020c6700100a3f),
    Word(0x1002082715c27d80),
    END,
    NOP,
    NOP,
];

/// `ldi vr_setup, 0x00001a00`; seventeen times `or r0, vpm, vpm`, of which sixteen are set up; program
/// end.
const SEVENTEEN: [Word; 21] = [
    Word(0xe0020c6700001a00),
    READ,
    READ,
    READ,
    READ,
    READ,
    READ,
    READ,
    READ,
    READ,
    READ,
    READ,
    READ,
    READ,
    READ,
    READ,
    READ,
    READ,
    END,
    NOP,
    NOP,
];

/// `ldi vw_setup, 0x80104000`, 128 rows; `ldi vw_addr, 0`; program end.
const LONG_STORE: [Word; 5] = [
    Word(0xe0021c6780104000),
    Word(0xe0021ca700000000),
    END,
    NOP,
    NOP,
];

/// `ldi vw_setup, 0xa0104000`, 64 rows; `ldi vw_addr, 0`; program end.
const STORE: [Word; 5] = [
    Word(0xe0021c67a0104000),
    Word(0xe0021ca700000000),
    END,
    NOP,
    NOP,
];

/// `ldi vr_setup, 0x80011000`; `ldi vr_addr, 0`; `or -, vpm_ld_wait, vpm_ld_wait`; program end.
const LOAD: [Word; 6] = [
    Word(0xe0020c6780011000),
    Word(0xe0020ca700000000),
    Word(0x100209e715ca7d80),
    END,
    NOP,
    NOP,
];

/// `or t0s, r0, r0`; `nop; ldtmu0`; `or r1, r4, r4`; program end.
const LOOK_UP: [Word; 6] = [
    Word(0x10020e27159e7000),
    Word(0xa00009e7009e7000),
    Word(0x10020867159e7900),
    END,
    NOP,
    NOP,
];

/// Sixteen times `sinc 3`; program end.
const UPS: [Word; 19] = [
    UP, UP, UP, UP, UP, UP, UP, UP, UP, UP, UP, UP, UP, UP, UP, UP, END, NOP, NOP,
];

/// `:a brr -, :a` and its slots.
const LOOP: [Word; 4] = [Word(0xf0f809e7ffffffe0), NOP, NOP, NOP];

/// `sinc 0`; `sdec 1`; program end.
const FIRST: [Word; 5] = [
    Word(0xe80009e700000000),
    Word(0xe80009e700000011),
    END,
    NOP,
    NOP,
];

/// `sdec 0`; `sinc 1`; program end.
const SECOND: [Word; 5] = [
    Word(0xe80009e700000010),
    Word(0xe80009e700000001),
    END,
    NOP,
    NOP,
];

/// `sdec 0`; `sinc 0`; program end.
const DOWN_FIRST: [Word; 5] = [
    Word(0xe80009e700000010),
    Word(0xe80009e700000000),
    END,
    NOP,
    NOP,
];

/// `or -, mutex_acq, mutex_acq`; program end.
const ACQUIRE: [Word; 4] = [Word(0x100209e715ce7d80), END, NOP, NOP];

/// A run of one processor: its words, what memory holds, how many words of memory and instructions
/// it has, and then its schedule, how it came out, and its halt and count.
struct Case {
    name: &'static str,
    words: &'static [Word],
    data: [u32; 2],
    memory: u32,
    limit: u32,
    schedule: &'static [(Actor, u64)],
    ending: Ending,
    halt: Halt,
    executed: u32,
}

/// Schedules, endings and counts are worked by hand.
static CASES: [Case; 11] = [
    Case {
        name: "a uniform outside memory",
        words: &UNIFORMS,
        data: [5, 6],
        memory: 2,
        limit: 100,
        schedule: &[(Actor::Exec(0), 3)],
        ending: Ending::Faulted,
        halt: Halt::Faulted(FaultKind::Uniform, 2),
        executed: 2,
    },
    Case {
        name: "a column of the VPM",
        words: &VECTORS,
        data: [0, 0],
        memory: 16,
        limit: 100,
        schedule: &[(Actor::Exec(0), 7)],
        ending: Ending::Done,
        halt: Halt::Ended,
        executed: 7,
    },
    Case {
        name: "a vector more than was set up",
        words: &SEVENTEEN,
        data: [0, 0],
        memory: 16,
        limit: 100,
        schedule: &[(Actor::Exec(0), 18)],
        ending: Ending::Faulted,
        halt: Halt::Faulted(FaultKind::NoSetup, 17),
        executed: 17,
    },
    Case {
        name: "a store of more rows than the VPM has",
        words: &LONG_STORE,
        data: [0, 0],
        memory: 1024,
        limit: 100,
        schedule: &[(Actor::Exec(0), 2)],
        ending: Ending::Faulted,
        halt: Halt::Faulted(FaultKind::Transfer, 1),
        executed: 1,
    },
    Case {
        name: "a store of the whole VPM",
        words: &STORE,
        data: [0, 0],
        memory: 1024,
        limit: 100,
        schedule: &[
            (Actor::Exec(0), 2),
            (Actor::Store(0), 1),
            (Actor::Exec(0), 3),
            (Actor::Store(0), 63),
        ],
        ending: Ending::Done,
        halt: Halt::Ended,
        executed: 5,
    },
    Case {
        name: "a store for which memory is a word short",
        words: &STORE,
        data: [0, 0],
        memory: 1023,
        limit: 100,
        schedule: &[(Actor::Exec(0), 2)],
        ending: Ending::Faulted,
        halt: Halt::Faulted(FaultKind::Transfer, 1),
        executed: 1,
    },
    Case {
        name: "a load that is awaited",
        words: &LOAD,
        data: [9, 0],
        memory: 16,
        limit: 100,
        schedule: &[
            (Actor::Exec(0), 2),
            (Actor::Load(0), 1),
            (Actor::Exec(0), 4),
        ],
        ending: Ending::Done,
        halt: Halt::Ended,
        executed: 6,
    },
    Case {
        name: "a look-up",
        words: &LOOK_UP,
        data: [7, 0],
        memory: 16,
        limit: 100,
        schedule: &[
            (Actor::Exec(0), 1),
            (Actor::Fetch(0, 0), 1),
            (Actor::Exec(0), 5),
        ],
        ending: Ending::Done,
        halt: Halt::Ended,
        executed: 6,
    },
    Case {
        name: "a semaphore that is full",
        words: &UPS,
        data: [0, 0],
        memory: 16,
        limit: 100,
        schedule: &[(Actor::Exec(0), 15)],
        ending: Ending::Stuck,
        halt: Halt::Going,
        executed: 15,
    },
    Case {
        name: "a loop up to the limit",
        words: &LOOP,
        data: [0, 0],
        memory: 16,
        limit: 1000,
        schedule: &[(Actor::Exec(0), 1000)],
        ending: Ending::RanOut,
        halt: Halt::Going,
        executed: 1000,
    },
    Case {
        name: "a loop that has no instruction",
        words: &LOOP,
        data: [0, 0],
        memory: 16,
        limit: 0,
        schedule: &[],
        ending: Ending::RanOut,
        halt: Halt::Going,
        executed: 0,
    },
];

/// The start of processor 0 at the first program, and of processor 1 at the second.
const FIRST_START: Start = Start {
    q: 0,
    program: 0,
    uniforms: 0,
};

const SECOND_START: Start = Start {
    q: 1,
    program: 1,
    uniforms: 0,
};

/// Memory whose first words hold data, as far as they are there.
fn memory_of(alloc: Global, words: u32, data: &[u32; 2]) -> Result<Memory, Fail> {
    if words == 0 || words > 2048 {
        return Err(Fail::from("no size of a trial"));
    }
    let mut memory = Memory::new(alloc, words).map_err(|_| Fail::from("want of memory"))?;
    memory.set(0, data[0]);
    memory.set(1, data[1]);
    Ok(memory)
}

/// A checked program.
fn checked(alloc: Global, words: &[Word]) -> Result<Checked, Fail> {
    if words.len() > 4096 {
        return Err(Fail::from("too long a program"));
    }
    check(alloc, words).map_err(|_| Fail::from("the program is refused"))
}

/// A machine of processor 0.
fn machine_of_one(
    alloc: Global,
    memory: Memory,
    limit: u32,
    program: Checked,
) -> Result<Machine, Fail>
    requires { limit ≤ 1000000 }
{
    let list = vec![in alloc; program].map_err(|_| Fail::from("want of memory"))?;
    let programs = Arc::new(alloc, Programs { list }).map_err(|_| Fail::from("want of memory"))?;
    let mut starts = ArrayVec::new();
    starts.push(FIRST_START);
    Ok(Machine::new(alloc, memory, limit, programs, starts))
}

/// A machine of processors 0 and 1, with 16 words of memory and 100 instructions each.
fn machine_of_two(alloc: Global, first: &[Word], second: &[Word]) -> Result<Machine, Fail> {
    let memory = memory_of(alloc, 16, &[0, 0])?;
    let list = vec![in alloc; checked(alloc, first)?, checked(alloc, second)?].map_err(
        |_| Fail::from("want of memory"),
    )?;
    let programs = Arc::new(alloc, Programs { list }).map_err(|_| Fail::from("want of memory"))?;
    let mut starts = ArrayVec::new();
    starts.push(FIRST_START);
    starts.push(SECOND_START);
    Ok(Machine::new(alloc, memory, 100, programs, starts))
}

/// Whether runs are those of a schedule.
fn are_runs(runs: &[Run], schedule: &[(Actor, u64)]) -> bool {
    if runs.len() != schedule.len() {
        return false;
    }
    for (run, (actor, count)) in runs.iter().zip(schedule.iter()) {
        if run.actor != *actor || run.count != *count {
            return false;
        }
    }
    true
}

/// Runs a machine, and says how it came out; none where its schedule was another.
fn ended(
    alloc: Global,
    machine: &mut Machine,
    schedule: &[(Actor, u64)],
) -> Result<Option<Ending>, Fail> {
    let mut journal = Journal::new(alloc);
    let Ok(ending) = machine.run_serial(&mut journal) else {
        return Err(Fail::from("want of memory"));
    };
    if !are_runs(journal.runs(), schedule) {
        return Ok(None);
    }
    Ok(Some(ending))
}

#[test]
fn worked_rows_have_their_schedules(rt: HostRuntime) -> Result<(), Fail> {
    let alloc = rt.alloc();
    for case in &CASES {
        let name = case.name;
        assert!(rt; case.limit <= 1000000, "{name}");
        let memory = memory_of(alloc, case.memory, &case.data)?;
        let program = checked(alloc, case.words)?;
        let mut machine = machine_of_one(alloc, memory, case.limit, program)?;
        let ending = ended(alloc, &mut machine, case.schedule)?;
        assert!(rt; ending == Some(case.ending), "{name}: {ending:?}");
        assert!(rt;
            machine.processor(0).map(|p| p.halt()) == Some(case.halt),
            "{name}"
        );
        assert!(rt;
            machine.processor(0).map(|p| p.executed()) == Some(case.executed),
            "{name}"
        );
        assert!(rt; machine.ending() == ending, "{name}");
    }
    Ok(())
}

#[test]
fn two_processors_take_turns(rt: HostRuntime) -> Result<(), Fail> {
    let alloc = rt.alloc();
    let mut machine = machine_of_two(alloc, &FIRST, &SECOND)?;
    let turns = [
        (Actor::Exec(0), 1),
        (Actor::Exec(1), 2),
        (Actor::Exec(0), 1),
        (Actor::Exec(1), 3),
        (Actor::Exec(0), 3),
    ];
    assert!(rt; ended(alloc, &mut machine, &turns)? == Some(Ending::Done));
    let mut machine = machine_of_two(alloc, &DOWN_FIRST, &DOWN_FIRST)?;
    assert!(rt; ended(alloc, &mut machine, &[])? == Some(Ending::Stuck));
    let mut machine = machine_of_two(alloc, &ACQUIRE, &ACQUIRE)?;
    assert!(rt; ended(alloc, &mut machine, &[(Actor::Exec(0), 4)])? == Some(Ending::Stuck));
    assert!(rt; machine.shared().sync().holder() == Some(0));
    Ok(())
}

/// A machine of processor 0 after its serial run.
fn run_of(alloc: Global, words: &[Word], memory: u32, data: &[u32; 2]) -> Result<Machine, Fail> {
    let memory = memory_of(alloc, memory, data)?;
    let program = checked(alloc, words)?;
    let mut machine = machine_of_one(alloc, memory, 100, program)?;
    let _ending = ended(alloc, &mut machine, &[])?;
    Ok(machine)
}

/// Whether accumulator n of processor 0 has these lanes.
fn has(machine: &Machine, n: u32, lanes: &[u32; 16]) -> bool
    requires { n < 6 }
{
    match machine.processor(0) {
        Some(processor) => processor.accumulator(n).v == *lanes,
        None => false,
    }
}

#[test]
fn uniforms_and_vectors_are_read(rt: HostRuntime) -> Result<(), Fail> {
    let machine = run_of(rt.alloc(), &UNIFORMS, 2, &[5, 6])?;
    assert!(rt; has(&machine, 0, &[10; 16]));
    assert!(rt; has(&machine, 1, &[6; 16]));
    let machine = run_of(rt.alloc(), &VECTORS, 16, &[0, 0])?;
    assert!(rt;
        has(
            &machine,
            0,
            &[0, 0, 0, 0, 0, 0, 0, 0, 0, 0, 0, 0, 0, 0, 0, 15]
        )
    );
    Ok(())
}

#[test]
fn moves_carry_words(rt: HostRuntime) -> Result<(), Fail> {
    let machine = run_of(rt.alloc(), &LOOK_UP, 16, &[7, 0])?;
    assert!(rt; has(&machine, 1, &[7; 16]));
    assert!(rt; has(&machine, 4, &[7; 16]));
    let machine = run_of(rt.alloc(), &LOAD, 16, &[9, 0])?;
    assert!(rt; machine.shared().vpm().word(0, 0) == 9);
    Ok(())
}
