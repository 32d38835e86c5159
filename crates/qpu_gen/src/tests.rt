use crate::job_of;
use std::test::Fail;

#[test]
fn the_job_of_0_has_its_lines(rt: HostRuntime) -> Result<(), Fail> {
    let text = job_of(rt.alloc(), 0)?;
    assert!(rt;
        text.starts_with(
            "qpujob 1\nmemory 131072\nlimit 100000\ndata 0 64 0 196672\ndata 64 0 1 2 3 "
        )
    );
    assert!(rt; text.ends_with("start 10 a 0\nstart 11 a 0\n"));
    Ok(())
}

#[test]
fn counted_words_begin_anew_at_2_to_the_32(rt: HostRuntime) -> Result<(), Fail> {
    let text = job_of(rt.alloc(), 4_294_967_294)?;
    assert!(rt;
        text.starts_with(
            "qpujob 1\nmemory 131072\nlimit 100000\ndata 0 64 4294967294 196672\ndata 64 4294967294 4294967295 0 1 "
        )
    );
    Ok(())
}
