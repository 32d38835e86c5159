ghost use Rattle.std.specs.Prelude.{◌≡◌, ◌+◌, ◌^◌, ◌<◌, ◌≤◌, OnOk};
ghost use Rattle.qpu_machine.specs.Journal.{pushed, last_count};

use crate::{Actor, Journal, Run};
use std::test::Fail;

fn push(journal: &mut Journal, actor: Actor, count: u64) -> Result<(), Fail>
    requires some { 1 ≤ count }
    requires fits { last_count journal.old actor + count < 2 ^ 64 }
    ensures { OnOk result (journal.new ≡ pushed journal.old actor count) }
{
    match journal.push(actor, count) {
        Ok(()) => Ok(()),
        Err(_) => Err(Fail::from("want of memory")),
    }
}

/// Expected values are by hand.
#[test]
#[tactic(auto, unfolding(crate::specs::Journal::pushed, crate::specs::Journal::last_count))]
fn neighbours_of_one_actor_are_one_run(rt: HostRuntime) -> Result<(), Fail> {
    let mut journal = Journal::new(rt.alloc());
    push(&mut journal, Actor::Exec(0), 7)?;
    push(&mut journal, Actor::Exec(0), 1)?;
    push(&mut journal, Actor::Fetch(0, 1), 1)?;
    push(&mut journal, Actor::Fetch(0, 0), 1)?;
    push(&mut journal, Actor::Exec(0), 2)?;
    let expected = [
        (Actor::Exec(0), 8),
        (Actor::Fetch(0, 1), 1),
        (Actor::Fetch(0, 0), 1),
        (Actor::Exec(0), 2),
    ];
    assert!(rt; journal.runs().len() == expected.len());
    for (run, (actor, count)) in journal.runs().iter().zip(expected.iter()) {
        assert!(rt;
            *run == Run {
                actor: *actor,
                count: *count
            }
        );
    }
    Ok(())
}
