//! Journals by hand, and what they come to.
ghost use Rattle.std.specs.Prelude.{◌≡◌, ◌+◌, ◌^◌, ◌<◌, ◌≤◌, OnOk};
ghost use Rattle.qpu_machine.specs.Journal.{pushed, last_count};

use crate::{ReplayFault, WidenFault, replay, widen};
use arrayvec::ArrayVec;
use qpu_hazard::{Checked, Programs, check};
use qpu_machine::{Actor, Ending, Journal, Machine, Run, Start};
use qpu_mem::Memory;
use qpu_word::Word;
use std::alloc::Global;
use std::sync::Arc;
use std::test::Fail;

const NOP: Word = Word(0x100009e7009e7000);

const END: Word = Word(0x300009e7009e7000);

/// `ldi r0, 0x12345678`; program end.
const FOUR: [Word; 4] = [Word(0xe002082712345678), END, NOP, NOP];

/// `ldi vw_setup, 0xa0104000`, 64 rows; `ldi vw_addr, 0`; program end. The first two words start the
/// store.
const STORE: [Word; 5] = [
    Word(0xe0021c67a0104000),
    Word(0xe0021ca700000000),
    END,
    NOP,
    NOP,
];

/// A journal of one run, what its replay answers, and how many instructions processor 0 has executed
/// after it.
struct Case {
    name: &'static str,
    actor: Actor,
    count: u64,
    answer: Result<Ending, ReplayFault>,
    executed: u32,
}

/// Answers and counts are by hand: the program has four words, and processor 0 alone is started.
static CASES: [Case; 7] = [
    Case {
        name: "the whole program",
        actor: Actor::Exec(0),
        count: 4,
        answer: Ok(Ending::Done),
        executed: 4,
    },
    Case {
        name: "a step too few",
        actor: Actor::Exec(0),
        count: 3,
        answer: Err(ReplayFault::NotFinished),
        executed: 3,
    },
    Case {
        name: "a step too many",
        actor: Actor::Exec(0),
        count: 5,
        answer: Err(ReplayFault::NotEnabled { item: 1, step: 5 }),
        executed: 4,
    },
    Case {
        name: "the most steps that a run can have",
        actor: Actor::Exec(0),
        count: 18446744073709551615,
        answer: Err(ReplayFault::NotEnabled { item: 1, step: 5 }),
        executed: 4,
    },
    Case {
        name: "a processor that wasn't started",
        actor: Actor::Exec(3),
        count: 1,
        answer: Err(ReplayFault::NotEnabled { item: 1, step: 1 }),
        executed: 0,
    },
    Case {
        name: "a load that isn't pending",
        actor: Actor::Load(0),
        count: 1,
        answer: Err(ReplayFault::NotEnabled { item: 1, step: 1 }),
        executed: 0,
    },
    Case {
        name: "a processor that no machine has",
        actor: Actor::Exec(12),
        count: 2,
        answer: Err(ReplayFault::NotEnabled { item: 1, step: 1 }),
        executed: 0,
    },
];

/// A checked program.
fn checked(alloc: Global, words: &[Word]) -> Result<Checked, Fail> {
    if words.len() > 4096 {
        return Err(Fail::from("too long a program"));
    }
    check(alloc, words).map_err(|_| Fail::from("the program is refused"))
}

/// A machine of processor 0, with 1,024 words of memory and 100 instructions.
fn machine_of(alloc: Global, words: &[Word]) -> Result<Machine, Fail> {
    let memory = Memory::new(alloc, 1024).map_err(|_| Fail::from("want of memory"))?;
    let program = checked(alloc, words)?;
    let list = vec![in alloc; program].map_err(|_| Fail::from("want of memory"))?;
    let programs = Arc::new(alloc, Programs { list }).map_err(|_| Fail::from("want of memory"))?;
    let mut starts = ArrayVec::new();
    starts.push(Start {
        q: 0,
        program: 0,
        uniforms: 0,
    });
    Ok(Machine::new(alloc, memory, 100, programs, starts))
}

fn push(journal: &mut Journal, actor: Actor, count: u64) -> Result<(), Fail>
    requires some { 1 ≤ count }
    requires fits { last_count journal.old actor + count < 2 ^ 64 }
    ensures { OnOk result (journal.new ≡ pushed journal.old actor count) }
{
    match journal.push(actor, count) {
        Ok(()) => Ok(()),
        Err(_) => Err(Fail::from("want of memory")),
    }
}

/// How many instructions processor 0 has executed.
fn executed(machine: &Machine) -> Option<u32> {
    machine.processor(0).map(|p| p.executed())
}

#[test]
#[tactic(auto, unfolding(qpu_machine::specs::Journal::last_count))]
fn journals_of_one_run_have_their_answers(rt: HostRuntime) -> Result<(), Fail> {
    let alloc = rt.alloc();
    for case in &CASES {
        let name = case.name;
        assert!(rt; case.count >= 1, "{name}");
        let mut journal = Journal::new(alloc);
        push(&mut journal, case.actor, case.count)?;
        let mut machine = machine_of(alloc, &FOUR)?;
        let answer = replay(&mut machine, journal.iter());
        assert!(rt; answer == case.answer, "{name}: {answer:?}");
        assert!(rt; executed(&machine) == Some(case.executed), "{name}");
    }
    Ok(())
}

#[test]
fn a_journal_of_no_steps_moves_nothing(rt: HostRuntime) -> Result<(), Fail> {
    let alloc = rt.alloc();
    let mut machine = machine_of(alloc, &FOUR)?;
    let answer = replay(&mut machine, Journal::new(alloc).iter());
    assert!(rt; answer == Err(ReplayFault::NotFinished));
    assert!(rt; executed(&machine) == Some(0));
    Ok(())
}

/// A journal of two words, so many moves of the store that these start, and three words.
#[tactic(auto, unfolding(qpu_machine::specs::Journal::pushed, qpu_machine::specs::Journal::last_count))]
fn around_store(alloc: Global, moves: u64) -> Result<Journal, Fail>
    requires { 1 ≤ moves }
{
    let mut journal = Journal::new(alloc);
    push(&mut journal, Actor::Exec(0), 2)?;
    push(&mut journal, Actor::Store(0), moves)?;
    push(&mut journal, Actor::Exec(0), 3)?;
    Ok(journal)
}

/// A journal of one move of that store, and three words.
#[tactic(auto, unfolding(qpu_machine::specs::Journal::pushed, qpu_machine::specs::Journal::last_count))]
fn from_store(alloc: Global) -> Result<Journal, Fail> {
    let mut journal = Journal::new(alloc);
    push(&mut journal, Actor::Store(0), 1)?;
    push(&mut journal, Actor::Exec(0), 3)?;
    Ok(journal)
}

/// A journal of so many words.
#[tactic(auto, unfolding(qpu_machine::specs::Journal::last_count))]
fn of_words(alloc: Global, count: u64) -> Result<Journal, Fail>
    requires { 1 ≤ count }
{
    let mut journal = Journal::new(alloc);
    push(&mut journal, Actor::Exec(0), count)?;
    Ok(journal)
}

/// The store has 64 rows, each of which is a step.
#[test]
fn later_runs_are_counted(rt: HostRuntime) -> Result<(), Fail> {
    let alloc = rt.alloc();
    let mut machine = machine_of(alloc, &STORE)?;
    let answer = replay(&mut machine, around_store(alloc, 64)?.iter());
    assert!(rt; answer == Ok(Ending::Done), "{answer:?}");
    let mut machine = machine_of(alloc, &STORE)?;
    let answer = replay(&mut machine, around_store(alloc, 1)?.iter());
    assert!(rt; answer == Err(ReplayFault::NotFinished), "{answer:?}");
    let mut machine = machine_of(alloc, &STORE)?;
    let answer = replay(&mut machine, around_store(alloc, 65)?.iter());
    assert!(rt;
        answer == Err(ReplayFault::NotEnabled { item: 2, step: 65 }),
        "{answer:?}"
    );
    assert!(rt; executed(&machine) == Some(2));
    let never = of_words(alloc, 5)?;
    let mut machine = machine_of(alloc, &STORE)?;
    let answer = replay(&mut machine, never.iter());
    assert!(rt; answer == Err(ReplayFault::NotFinished), "{answer:?}");
    assert!(rt;
        replay(&mut machine, never.iter()) == Err(ReplayFault::NotEnabled { item: 1, step: 1 })
    );
    Ok(())
}

/// Whether a journal has these runs.
fn has_runs(journal: &Journal, runs: &[(Actor, u64)]) -> bool {
    if journal.runs().len() != runs.len() {
        return false;
    }
    for (run, (actor, count)) in journal.runs().iter().zip(runs.iter()) {
        let expected = Run {
            actor: *actor,
            count: *count,
        };
        if *run != expected {
            return false;
        }
    }
    true
}

/// One step of the store stands for its 64 rows, and for 61 where three are moved.
#[test]
fn a_store_is_widened_to_its_rows(rt: HostRuntime) -> Result<(), Fail> {
    let alloc = rt.alloc();
    let mut machine = machine_of(alloc, &STORE)?;
    let wide = widen(alloc, &machine, around_store(alloc, 1)?.iter());
    let wide = wide.ok().ok_or("the journal is widened")?;
    let runs = [
        (Actor::Exec(0), 2),
        (Actor::Store(0), 64),
        (Actor::Exec(0), 3),
    ];
    assert!(rt; has_runs(&wide, &runs));
    assert!(rt; executed(&machine) == Some(0));
    for _ in 0..2 {
        assert!(rt; machine.step(Actor::Exec(0)));
    }
    for _ in 0..3 {
        assert!(rt; machine.step(Actor::Store(0)));
    }
    let answer = widen(alloc, &machine, of_words(alloc, 3)?.iter()).err();
    assert!(rt;
        answer == Some(WidenFault::Replay(ReplayFault::NotFinished)),
        "{answer:?}"
    );
    let wide = widen(alloc, &machine, from_store(alloc)?.iter());
    let wide = wide.ok().ok_or("the rest is widened")?;
    assert!(rt; has_runs(&wide, &[(Actor::Store(0), 61), (Actor::Exec(0), 3)]));
    assert!(rt; replay(&mut machine, wide.iter()) == Ok(Ending::Done));
    Ok(())
}

/// Faults are told by the runs and steps of the journal that is widened.
#[test]
fn a_store_is_widened_once(rt: HostRuntime) -> Result<(), Fail> {
    let alloc = rt.alloc();
    let machine = machine_of(alloc, &STORE)?;
    let answer = widen(alloc, &machine, around_store(alloc, 2)?.iter()).err();
    let twice = ReplayFault::NotEnabled { item: 2, step: 2 };
    assert!(rt; answer == Some(WidenFault::Replay(twice)), "{answer:?}");
    let answer = widen(alloc, &machine, Journal::new(alloc).iter()).err();
    assert!(rt;
        answer == Some(WidenFault::Replay(ReplayFault::NotFinished)),
        "{answer:?}"
    );
    Ok(())
}

/// What has no transfer is widened to itself, and fails as it does in a replay.
#[test]
#[tactic(auto, unfolding(qpu_machine::specs::Journal::last_count))]
fn journals_without_transfers_stay(rt: HostRuntime) -> Result<(), Fail> {
    let alloc = rt.alloc();
    for case in &CASES {
        let name = case.name;
        assert!(rt; case.count >= 1, "{name}");
        let mut journal = Journal::new(alloc);
        push(&mut journal, case.actor, case.count)?;
        let machine = machine_of(alloc, &FOUR)?;
        match (widen(alloc, &machine, journal.iter()), case.answer) {
            (Ok(wide), Ok(_)) => assert!(rt;
                has_runs(&wide, &[(case.actor, case.count)]),
                "{name}"
            ),
            (Err(told), Err(fault)) => assert!(rt; told == WidenFault::Replay(fault), "{name}"),
            _ => assert!(rt; false, "{name}"),
        }
    }
    Ok(())
}
