use crate::Lookups;
use qpu_word::{LANES, Lanes};
use std::test::Fail;

/// Sixteen times one number.
fn all(n: u32) -> Lanes {
    Lanes { v: [n; LANES] }
}

#[test]
fn the_oldest_look_up_is_served_and_taken_first(rt: HostRuntime) -> Result<(), Fail> {
    let mut lookups = Lookups::new();
    for at in [10, 11, 12, 13] {
        assert!(rt; lookups.outstanding(1) < 4, "room for {at}");
        lookups.issue(1, &all(at));
    }
    assert!(rt; lookups.outstanding(1) == 4 && lookups.outstanding(0) == 0);
    for (at, word) in [(10, 50), (11, 51), (12, 52), (13, 53)] {
        if at == 10 {
            assert!(rt;
                !lookups.ready(1) && lookups.take(1).is_none(),
                "nothing is fetched"
            );
        }
        let Some(next) = lookups.next(1) else {
            return Err(Fail::from("a look-up waits"));
        };
        assert!(rt; next == all(at), "the next is {at}");
        lookups.fetched(1, &all(word));
    }
    assert!(rt; lookups.next(1).is_none() && lookups.ready(1));
    let mut copy = lookups.copy();
    for word in [50, 51, 52, 53] {
        assert!(rt;
            copy.take(0).is_none() && copy.take(1) == Some(all(word)),
            "took {word}"
        );
    }
    assert!(rt; copy.outstanding(1) == 0 && lookups.outstanding(1) == 4);
    Ok(())
}
