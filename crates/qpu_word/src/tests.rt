//! What a word, a value of a setup register and a name are. Words come from an independent
//! assembler of the manual's tables, or were made from one by changing a field; what they are was
//! told by hand from the tables.
ghost use Rattle.qpu_word.specs.Books.{IsSoundBook};

use crate::{
    Book, FaultKind, Form, Needs, Place, ReadSetup, SetupFault, Vectors, Word, WordFault,
    WriteSetup, read_address, read_name, read_setup, write_address, write_name, write_setup,
};
use bitflags::Flags;

#[test]
fn a_read_setup_is_of_a_kind_or_refused(rt: HostRuntime) {
    for (value, kind) in [
        (0x00001a00, Ok(ReadSetup::Vectors)),
        (0x00100a3f, Ok(ReadSetup::Vectors)),
        (0x80011000, Ok(ReadSetup::Load)),
        (0x8fffffff, Ok(ReadSetup::Load)),
        (0x90000040, Ok(ReadSetup::Pitch)),
        (0x00000800, Ok(ReadSetup::Vectors)),
        (0x00000900, Ok(ReadSetup::Vectors)),
        (0x00000b00, Err(SetupFault::Size)),
        (0x00100b00, Err(SetupFault::Size)),
        (0x40000200, Err(SetupFault::Kind)),
        (0x7fffffff, Err(SetupFault::Kind)),
        (0xa0000000, Ok(ReadSetup::Load)),
        (0xc0000000, Ok(ReadSetup::Load)),
        (0xf0000000, Ok(ReadSetup::Load)),
    ] {
        assert!(rt; read_setup(value) == kind, "{value}");
    }
}

#[test]
fn a_write_setup_is_of_a_kind_or_refused(rt: HostRuntime) {
    for (value, kind) in [
        (0x00001a00, Ok(WriteSetup::Vectors)),
        (0x0000023f, Ok(WriteSetup::Vectors)),
        (0x80904000, Ok(WriteSetup::Store)),
        (0x80104000, Ok(WriteSetup::Store)),
        (0xc0000040, Ok(WriteSetup::Stride)),
        (0xc0001fff, Ok(WriteSetup::Stride)),
        (0x00000000, Ok(WriteSetup::Vectors)),
        (0x00000300, Err(SetupFault::Size)),
        (0x40000200, Err(SetupFault::Kind)),
        (0x80904001, Err(SetupFault::Width)),
        (0x80904002, Ok(WriteSetup::Store)),
        (0x80904024, Ok(WriteSetup::Store)),
        (0xbfffffff, Ok(WriteSetup::Store)),
        (0xc0010000, Err(SetupFault::Block)),
        (0xffffffff, Err(SetupFault::Block)),
    ] {
        assert!(rt; write_setup(value) == kind, "{value}");
    }
}

/// A book in which nothing was given.
#[tactic(auto, using(crate::proofs::BookLemmas::opening_sound))]
fn opening() -> Book
    ensures { IsSoundBook result }
{
    Book {
        uniform_at: 0,
        first: None,
        second: None,
        writes: None,
        load: None,
        load_pitch: 0,
        store: None,
        store_stride: 0,
    }
}

/// A book after a value of the read setup register.
fn put(book: &mut Book, value: u32) -> Result<(), FaultKind>
    requires { IsSoundBook book.old }
    ensures { IsSoundBook book.new }
{
    match book.put_read(value) {
        Ok(()) => Ok(()),
        Err(kind) => Err(kind),
    }
}

/// A book after one more vector.
fn take(book: &mut Book) -> Result<Vectors, FaultKind>
    requires { IsSoundBook book.old }
    ensures { IsSoundBook book.new }
{
    match book.take_vector() {
        Ok(vectors) => Ok(vectors),
        Err(kind) => Err(kind),
    }
}

/// A VPM read setup of two vectors, and one of one vector.
const TWO: u32 = 0x00200a00;

const ONE: u32 = 0x00100a00;

/// So many vectors done of a setup.
fn of(setup: u32, done: u32) -> Option<Vectors> {
    Some(Vectors { setup, done })
}

#[test]
fn two_read_setups_may_be_unfinished(rt: HostRuntime) {
    let mut book = opening();
    assert!(rt; put(&mut book, TWO).is_ok());
    assert!(rt; (book.first, book.second) == (of(TWO, 0), None));
    assert!(rt; put(&mut book, ONE).is_ok());
    assert!(rt; (book.first, book.second) == (of(TWO, 0), of(ONE, 0)));
    let before = book;
    assert!(rt; put(&mut book, ONE) == Err(FaultKind::SetupsFull));
    assert!(rt; book == before);
}

#[test]
fn a_setup_leaves_after_its_last_vector(rt: HostRuntime) {
    let mut book = opening();
    assert!(rt; put(&mut book, TWO).is_ok() && put(&mut book, ONE).is_ok());
    assert!(rt; take(&mut book).ok() == of(TWO, 0));
    assert!(rt; (book.first, book.second) == (of(TWO, 1), of(ONE, 0)));
    assert!(rt; take(&mut book).ok() == of(TWO, 1));
    assert!(rt; (book.first, book.second) == (of(ONE, 0), None));
    assert!(rt; take(&mut book).ok() == of(ONE, 0));
    assert!(rt; (book.first, book.second) == (None, None));
    assert!(rt; take(&mut book) == Err(FaultKind::NoSetup));
}

#[test]
fn read_addresses_have_names(rt: HostRuntime) {
    for (file_b, address, name) in [
        (false, 0, "ra0"),
        (true, 31, "rb31"),
        (false, 32, "unif"),
        (true, 32, "unifb"),
        (false, 38, "elem_num"),
        (true, 38, "qpu_num"),
        (false, 48, "vpm"),
        (true, 49, "vpm_st_busy"),
        (false, 50, "vpm_ld_wait"),
        (true, 51, "mutex_acqb"),
    ] {
        assert!(rt; read_name(file_b, address) == Some(name), "{name}");
        let place = if file_b {
            Place::FileB(address)
        } else {
            Place::FileA(address)
        };
        assert!(rt; read_address(name) == Some(place), "{name}");
    }
    for address in [33, 37, 39, 47, 52, 63, 64] {
        assert!(rt; read_name(false, address).is_none() && read_name(true, address).is_none());
    }
    for name in ["r0", "vw_setup", "host_int", "-", "ra32", ""] {
        assert!(rt; read_address(name).is_none(), "{name}");
    }
}

#[test]
fn write_addresses_have_names(rt: HostRuntime) {
    for (file_b, address, name, place) in [
        (false, 31, "ra31", Place::FileA(31)),
        (true, 0, "rb0", Place::FileB(0)),
        (true, 32, "r0", Place::Both(32)),
        (false, 35, "r3", Place::Both(35)),
        (false, 37, "r5quad", Place::FileA(37)),
        (true, 37, "r5rep", Place::FileB(37)),
        (true, 38, "host_int", Place::Both(38)),
        (false, 39, "-", Place::Both(39)),
        (true, 40, "unif_addr", Place::Both(40)),
        (false, 48, "vpm", Place::Both(48)),
        (false, 49, "vr_setup", Place::FileA(49)),
        (true, 49, "vw_setup", Place::FileB(49)),
        (true, 50, "vw_addr", Place::FileB(50)),
        (false, 51, "mutex_rel", Place::Both(51)),
        (true, 56, "t0s", Place::Both(56)),
        (false, 60, "t1s", Place::Both(60)),
    ] {
        assert!(rt; write_name(file_b, address) == Some(name), "{name}");
        assert!(rt; write_address(name) == Some(place), "{name}");
    }
    for address in [36, 41, 52, 57, 61, 63, 64] {
        assert!(rt; write_name(false, address).is_none() && write_name(true, address).is_none());
    }
    for name in ["r4", "unif", "elem_num", "ra32", "t2s", ""] {
        assert!(rt; write_address(name).is_none(), "{name}");
    }
}

#[test]
fn a_word_is_of_a_form_or_has_a_first_fault(rt: HostRuntime) {
    for (word, form) in [
        // or vpm, r2, r2
        (0x10020c27159e7480, Ok(Form::Alu)),
        // add r1, r0, 4
        (0xd00208670c9c41c0, Ok(Form::Small)),
        // ldi r0, 0x12345678
        (0xe002082712345678, Ok(Form::Load32)),
        // ldis r0, 0x00010000
        (0xe202082700010000, Ok(Form::LoadSigned)),
        // ldiu r0, 0x00010000
        (0xe602082700010000, Ok(Form::LoadUnsigned)),
        // sinc 3
        (0xe80009e700000003, Ok(Form::Semaphore)),
        // brr -, -32
        (0xf0f809e7ffffffe0, Ok(Form::Branch)),
        // signal 2
        (0x200009e7009e7000, Err(WordFault::Signal)),
        // signal 5, and the add unit's operation 2
        (0x50020867029e7000, Err(WordFault::Signal)),
        // the add unit's operation 1
        (0x10020867019e7000, Err(WordFault::FloatOp)),
        // the add unit's operation 27
        (0x100208671b9e7000, Err(WordFault::ReservedOp)),
        // the add unit's operation 25, and a read of 60
        (0x1002086719f27000, Err(WordFault::ReservedOp)),
        // a read of 33
        (0x100009e700867000, Err(WordFault::ReadAddress)),
        // a write to 36
        (0x100209270c9e7000, Err(WordFault::WriteAddress)),
        // packing 8
        (0x108009e7009e7000, Err(WordFault::Packing)),
        // a branch by condition 13
        (0xf0d809e7ffffffe0, Err(WordFault::BranchCond)),
        // a load of kind 2
        (0xe402082712345678, Err(WordFault::LoadKind)),
        // a rotation of r4
        (0xd00049e1809f1020, Err(WordFault::Rotation)),
        // a semaphore word that writes r0
        (0xe800082700000003, Err(WordFault::SemaphoreTarget)),
        // an operand from file A with the read address 39
        (0x100208670c9e7c00, Err(WordFault::NoSource)),
    ] {
        assert!(rt; Word(word).form() == form, "{word}");
    }
}

#[test]
fn a_word_needs_what_it_touches(rt: HostRuntime) {
    let rows: [(u64, &[Needs]); 12] = [
        // nop
        (0x100009e7009e7000, &[]),
        // or vr_setup, r0, r0
        (0x10020c67159e7000, &[]),
        // nop; reada unif
        (0x100009e700827000, &[Needs::UNIFORM]),
        // nop; readb unifb
        (0x100009e7009e0000, &[Needs::UNIFORM]),
        // or vpm, vpm, vpm
        (0x10020c2715c27d80, &[Needs::VPM_READ, Needs::VPM_WRITE]),
        // or vr_addr, r1, r1; v8min r0, vpm_ld_busy, vpm_ld_busy
        (0x10024ca095c67276, &[Needs::LOAD_BUSY, Needs::LOAD_START]),
        // or vw_addr, r1, r1; v8min r0, vpm_st_wait, vpm_st_wait
        (0x10025ca0959f227f, &[Needs::STORE_WAIT, Needs::STORE_START]),
        // or r2, vpm_st_busy, vpm_st_busy
        (0x100208a7159f1fc0, &[Needs::STORE_BUSY]),
        // or -, vpm_ld_wait, vpm_ld_wait
        (0x100209e715ca7d80, &[Needs::LOAD_WAIT]),
        // or t1s, r0, r0; ldtmu0
        (0xa0020f27159e7000, &[Needs::LOOK, Needs::TAKE]),
        // or mutex_rel, mutex_acqb, mutex_acqb
        (0x10020ce7159f3fc0, &[Needs::ACQUIRE, Needs::RELEASE]),
        // sdec 3
        (0xe80009e700000013, &[Needs::SEMAPHORE]),
    ];
    for (word, needs) in rows {
        let mut bits = 0;
        for need in needs {
            bits |= need.bits();
        }
        assert!(rt; Word(word).needs().bits() == bits, "{word}");
    }
}
