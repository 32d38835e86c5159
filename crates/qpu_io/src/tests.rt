use super::*;
use std::alloc::Global;
use std::test::Fail;

fn source(alloc: Global, fails: &[u64]) -> Result<MemSource, Fail> {
    Ok(MemSource::new(alloc, b"twelve".to_vec(alloc)?, fails.to_vec(alloc)?))
}

#[test]
fn reads_to_the_end(rt: HostRuntime) -> Result<(), Fail> {
    let bytes = read_all(rt.alloc(), &mut source(rt.alloc(), &[])?, 6)?;
    assert_eq!(rt; bytes.as_slice(), b"twelve".as_slice());

    let mut plain = PlainSource::new(rt.alloc(), bytes);
    let again = read_all(rt.alloc(), &mut plain, MOST_BYTES)?;
    assert_eq!(rt; again.as_slice(), b"twelve".as_slice());
    Ok(())
}

#[test]
fn refuses_what_is_too_long(rt: HostRuntime) -> Result<(), Fail> {
    let mut source = source(rt.alloc(), &[])?;
    let error = read_all(rt.alloc(), &mut source, 5).err();
    assert_eq!(rt; error, Some(ReadAllError::TooLong));
    Ok(())
}

#[test]
fn passes_no_failed_read_over(rt: HostRuntime) -> Result<(), Fail> {
    for fails in [0, 1] {
        let mut source = source(rt.alloc(), &[fails])?;
        let error = read_all(rt.alloc(), &mut source, 6).err();
        assert_eq!(rt; error, Some(ReadAllError::Source), "call {fails}");
    }
    Ok(())
}

#[test]
fn writes_where_there_is_room(rt: HostRuntime) -> Result<(), Fail> {
    let mut plain = PlainSink::new(rt.alloc());
    assert_eq!(rt; write_all_of(&mut plain, b"no"), Err(SinkFailed));
    plain.reserve(3).map_err(|_| "memory")?;
    assert_eq!(rt; write_all_of(&mut plain, b"four"), Err(SinkFailed));
    assert_eq!(rt; plain.bytes(), b"fou".as_slice());
    Ok(())
}

#[test]
fn passes_no_failed_write_over(rt: HostRuntime) -> Result<(), Fail> {
    let fails = [1].to_vec(rt.alloc())?;
    let mut sink = MemSink::new(rt.alloc(), fails);
    sink.reserve(20).map_err(|_| "memory")?;
    let row = [
        Piece::Text(b"one "),
        Piece::Text(b"two "),
        Piece::Text(b"three"),
    ];
    assert_eq!(rt; put_all(&row, &mut sink), Err(SinkFailed));
    assert_eq!(rt; write_all_of(&mut sink, b"four"), Ok(()));
    assert_eq!(rt; sink.bytes(), b"one four".as_slice());
    Ok(())
}

#[test]
fn puts_each_kind_of_piece(rt: HostRuntime) -> Result<(), Fail> {
    let mut sink = PlainSink::new(rt.alloc());
    sink.reserve(100).map_err(|_| "memory")?;
    let row = [
        Piece::Text(b"r"),
        Piece::Decimal(18_446_744_073_709_551_615),
        Piece::Text(b" "),
        Piece::Mask(0xf09a),
        Piece::Word(0x0123_abcd),
        Piece::Instruction(0xfedc_ba98_7654_3210),
        Piece::Lanes(&[0, 0xffff_ffff, 0x6789_ef00]),
        Piece::Text(b"\n"),
    ];
    assert_eq!(rt; put_all(&row, &mut sink), Ok(()));
    let want = b"r18446744073709551615 f09a0123abcdfedcba9876543210 00000000 ffffffff 6789ef00\n";
    assert_eq!(rt; sink.bytes(), want.as_slice());
    Ok(())
}

#[test]
fn gathers_and_hands_on(rt: HostRuntime) -> Result<(), Fail> {
    let mut sink = PlainSink::new(rt.alloc());
    sink.reserve(8).map_err(|_| "memory")?;
    let mut gathering = Gathering::new(sink);
    assert_eq!(rt; write_all_of(&mut gathering, b"one "), Ok(()));
    assert_eq!(rt; write_all_of(&mut gathering, b"two"), Ok(()));
    assert_eq!(rt; gathering.sink().bytes(), b"".as_slice());
    assert_eq!(rt; gathering.finish(), Ok(()));
    assert_eq!(rt; gathering.sink().bytes(), b"one two".as_slice());
    Ok(())
}

#[test]
fn hands_on_when_full(rt: HostRuntime) -> Result<(), Fail> {
    let mut sink = PlainSink::new(rt.alloc());
    sink.reserve(65_540).map_err(|_| "memory")?;
    let mut gathering = Gathering::new(sink);
    for _ in 0..65_536 {
        assert_eq!(rt; gathering.write(b"a"), Ok(1));
    }
    assert_eq!(rt; gathering.sink().bytes().len(), 0);
    assert_eq!(rt; gathering.write(b"b"), Ok(1));
    assert_eq!(rt; gathering.sink().bytes().len(), 65_536);
    assert_eq!(rt; gathering.finish(), Ok(()));
    assert_eq!(rt; gathering.sink().bytes().get(65_536), Some(&b'b'));
    Ok(())
}

#[test]
fn keeps_back_what_a_failed_write_left(rt: HostRuntime) -> Result<(), Fail> {
    let mut sink = PlainSink::new(rt.alloc());
    sink.reserve(3).map_err(|_| "memory")?;
    let mut gathering = Gathering::new(sink);
    assert_eq!(rt; write_all_of(&mut gathering, b"four"), Ok(()));
    assert_eq!(rt; gathering.finish(), Err(SinkFailed));
    assert_eq!(rt; gathering.sink().bytes(), b"fou".as_slice());
    Ok(())
}
