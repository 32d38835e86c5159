//! The names of addresses, both ways.
ghost use Rattle.std.specs.Prelude.{◌≡◌, ◌<◌, ◌↔◌, true, false, option_map, IfSome, IsNone, IsTrue, Some};
ghost use Rattle.qpu_word.specs.Names.{row_name, by_file, read_name, write_name, place_at, IsNamed, IsNoName};

use crate::code::{
    NOWHERE, READ_DMA_BUSY, READ_DMA_WAIT, READ_MUTEX, READ_NUMBER, READ_UNIFORM, READ_VPM, ROWS,
    WRITE_DMA_ADDRESS, WRITE_HOST_INT, WRITE_MUTEX, WRITE_R0, WRITE_R3, WRITE_R5, WRITE_TMU0_S,
    WRITE_TMU1_S, WRITE_UNIFORMS_ADDRESS, WRITE_VPM, WRITE_VPM_SETUP,
};

/// An address that a name stands for, and the file that it belongs to.
#[derive(Clone, Copy, Debug, PartialEq, Eq)]
pub enum Place {
    /// An address of either file.
    Both(u32),
    /// An address of file A.
    FileA(u32),
    /// An address of file B.
    FileB(u32),
}

/// The name of a row of file A.
#[tactic(auto, unfolding(crate::specs::Names::row_name))]
fn row_of_a(row: u32) -> &'static str
    requires { row < 32 }
    ensures { result.now ≡ row_name false row }
{
    match row {
        0 => "ra0",
        1 => "ra1",
        2 => "ra2",
        3 => "ra3",
        4 => "ra4",
        5 => "ra5",
        6 => "ra6",
        7 => "ra7",
        8 => "ra8",
        9 => "ra9",
        10 => "ra10",
        11 => "ra11",
        12 => "ra12",
        13 => "ra13",
        14 => "ra14",
        15 => "ra15",
        16 => "ra16",
        17 => "ra17",
        18 => "ra18",
        19 => "ra19",
        20 => "ra20",
        21 => "ra21",
        22 => "ra22",
        23 => "ra23",
        24 => "ra24",
        25 => "ra25",
        26 => "ra26",
        27 => "ra27",
        28 => "ra28",
        29 => "ra29",
        30 => "ra30",
        _ => "ra31",
    }
}

/// The name of a row of file B.
#[tactic(auto, unfolding(crate::specs::Names::row_name))]
fn row_of_b(row: u32) -> &'static str
    requires { row < 32 }
    ensures { result.now ≡ row_name true row }
{
    match row {
        0 => "rb0",
        1 => "rb1",
        2 => "rb2",
        3 => "rb3",
        4 => "rb4",
        5 => "rb5",
        6 => "rb6",
        7 => "rb7",
        8 => "rb8",
        9 => "rb9",
        10 => "rb10",
        11 => "rb11",
        12 => "rb12",
        13 => "rb13",
        14 => "rb14",
        15 => "rb15",
        16 => "rb16",
        17 => "rb17",
        18 => "rb18",
        19 => "rb19",
        20 => "rb20",
        21 => "rb21",
        22 => "rb22",
        23 => "rb23",
        24 => "rb24",
        25 => "rb25",
        26 => "rb26",
        27 => "rb27",
        28 => "rb28",
        29 => "rb29",
        30 => "rb30",
        _ => "rb31",
    }
}

/// The name of a row of a file.
fn row_of(file_b: bool, row: u32) -> &'static str
    requires { row < 32 }
    ensures { result.now ≡ row_name file_b row }
{
    if file_b { row_of_b(row) } else { row_of_a(row) }
}

/// One name or another, by the file.
fn by_file(file_b: bool, a: &'static str, b: &'static str) -> Option<&'static str>
    ensures { option_map (λ name. name.now) result ≡ by_file file_b a.now b.now }
{
    Some(if file_b { b } else { a })
}

/// The name of a read address of file A or B; none exactly where it has no name.
#[tactic(auto, unfolding(crate::specs::Names::read_name))]
pub fn read_name(file_b: bool, address: u32) -> Option<&'static str>
    ensures { option_map (λ name. name.now) result ≡ read_name file_b address }
{
    match address {
        0..ROWS => Some(row_of(file_b, address)),
        READ_UNIFORM => by_file(file_b, "unif", "unifb"),
        READ_NUMBER => by_file(file_b, "elem_num", "qpu_num"),
        READ_VPM => by_file(file_b, "vpm", "vpmb"),
        READ_DMA_BUSY => by_file(file_b, "vpm_ld_busy", "vpm_st_busy"),
        READ_DMA_WAIT => by_file(file_b, "vpm_ld_wait", "vpm_st_wait"),
        READ_MUTEX => by_file(file_b, "mutex_acq", "mutex_acqb"),
        _ => None,
    }
}

/// Accumulators that both units write by an address.
const WRITE_R1: u32 = WRITE_R0 + 1;

const WRITE_R2: u32 = WRITE_R0 + 2;

/// The name of a write address of file A or B; none exactly where it has no name.
#[tactic(auto, unfolding(crate::specs::Names::write_name))]
pub fn write_name(file_b: bool, address: u32) -> Option<&'static str>
    ensures { option_map (λ name. name.now) result ≡ write_name file_b address }
{
    match address {
        0..ROWS => Some(row_of(file_b, address)),
        WRITE_R0 => Some("r0"),
        WRITE_R1 => Some("r1"),
        WRITE_R2 => Some("r2"),
        WRITE_R3 => Some("r3"),
        WRITE_R5 => by_file(file_b, "r5quad", "r5rep"),
        WRITE_HOST_INT => Some("host_int"),
        NOWHERE => Some("-"),
        WRITE_UNIFORMS_ADDRESS => Some("unif_addr"),
        WRITE_VPM => Some("vpm"),
        WRITE_VPM_SETUP => by_file(file_b, "vr_setup", "vw_setup"),
        WRITE_DMA_ADDRESS => by_file(file_b, "vr_addr", "vw_addr"),
        WRITE_MUTEX => Some("mutex_rel"),
        WRITE_TMU0_S => Some("t0s"),
        WRITE_TMU1_S => Some("t1s"),
        _ => None,
    }
}

/// Whether a name, where there is one, is the one that is looked for.
fn is_name(found: Option<&str>, name: &str) -> bool
    ensures { IsTrue result ↔ (option_map (λ found. found.now) found.entry ≡ Some name.now) }
{
    match found {
        Some(found) => found == name,
        None => false,
    }
}

/// The place of an address, where its name in either file is the one that is looked for.
fn place_at(address: u32, in_a: bool, in_b: bool) -> Option<Place>
    ensures { result ≡ place_at address in_a in_b }
{
    match (in_a, in_b) {
        (true, true) => Some(Place::Both(address)),
        (true, false) => Some(Place::FileA(address)),
        (false, true) => Some(Place::FileB(address)),
        (false, false) => None,
    }
}

/// Addresses are fields of six bits.
const ADDRESSES: u32 = 64;

/// The read address of a name; none exactly where no read address has it.
pub fn read_address(name: &str) -> Option<Place>
    ensures place { IfSome result (IsNamed read_name name.now) }
    ensures none { IsNone result → IsNoName read_name name.now }
{
    for address in 0..ADDRESSES {
        let in_a = is_name(read_name(false, address), name);
        let in_b = is_name(read_name(true, address), name);
        if in_a || in_b {
            return place_at(address, in_a, in_b);
        }
    }
    None
}

/// The write address of a name; none exactly where no write address has it.
pub fn write_address(name: &str) -> Option<Place>
    ensures place { IfSome result (IsNamed write_name name.now) }
    ensures none { IsNone result → IsNoName write_name name.now }
{
    for address in 0..ADDRESSES {
        let in_a = is_name(write_name(false, address), name);
        let in_b = is_name(write_name(true, address), name);
        if in_a || in_b {
            return place_at(address, in_a, in_b);
        }
    }
    None
}
