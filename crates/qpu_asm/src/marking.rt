//! The marks of a line's parts.
ghost use Rattle.std.specs.Prelude.{◌≡◌, true, fold, IfOk, OnOk};
ghost use Rattle.qpu_word.specs.Words.{is_link_address};
ghost use Rattle.qpu_asm.specs.Roles.{is_condition, is_set_flags, is_branch_condition, is_pack, unpack_name};
ghost use Rattle.qpu_asm.specs.reader.Marks.{first_suffix, has_condition, second_suffix, suffix_marks, condition_marks, branch_marks, no_suffix, target_place, place_mark, pack_marks, target_marks, somewhere, unpack_marks, source_marks, number_marks, nowhere_at, operand_marks, unit_marks, any_number, number_between, load_marks, also_marks, jump_marks, jumping_marks, is_row_name, is_r5, rotation_marks, source_in, other_a, other_b, part_marks, marks_of};
ghost use Rattle.qpu_asm.specs.Roles.{is_row, if_link};

use crate::mark::{Marks, What, code_of};
use crate::part::{AlsoPart, BranchPart, LoadPart, Part, Suffixes, UnitPart};
use crate::piece::{Core, Piece, Suffix};
use crate::roles::{pack_of, source_of, target_of, unpack_of};
use qpu_line::{Name, Operand, Register, address_of, is_row_a};
use qpu_token::Token;
use qpu_word::Place;
use qpu_word::code::{NOWHERE, ROWS, WRITE_R3};
use std::alloc::{AllocError, Global};

/// Accumulators of the mul unit that are rotated, r0 to r3, end with this one.
const LAST_ROTATED: u32 = 3;

/// The accumulator whose lane 0 tells a rotation.
const ROTATION: u32 = 5;

/// The last number of a semaphore.
const LAST_SEMAPHORE: u32 = 15;

/// The last distance of a rotation; the first is 1.
const LAST_ROTATION: u32 = 15;

/// Whether a suffix is a write condition.
fn is_condition(name: Option<Name>) -> bool
    ensures { result ≡ is_condition name }
{
    matches!(name, Some(Name::Condition(_)))
}

/// Whether a suffix is `setf`.
pub(crate) fn is_set_flags(name: Option<Name>) -> bool
    ensures { result ≡ is_set_flags name }
{
    matches!(name, Some(Name::SetFlags))
}

/// Whether a suffix is a branch condition.
fn is_branch_condition(name: Option<Name>) -> bool
    ensures { result ≡ is_branch_condition name }
{
    matches!(name, Some(Name::BranchCondition(_)))
}

/// Whether there is a suffix that is a write condition.
fn has_condition(suffix: Option<Suffix>) -> bool
    ensures { result ≡ has_condition suffix }
{
    match suffix {
        Some(suffix) => is_condition(suffix.name),
        None => false,
    }
}

/// The place of a target; none where its name isn't one.
pub(crate) fn target_place(core: Core) -> Option<Place>
    ensures { result ≡ target_place core }
{
    match core {
        Core::Name(name) => target_of(name),
        Core::Nowhere => Some(Place::Both(NOWHERE)),
        _ => None,
    }
}

/// The place of a target that is somewhere; none where its name isn't one.
fn somewhere(core: Core) -> Option<Place>
    ensures { result ≡ somewhere core }
{
    match core {
        Core::Name(name) => target_of(name),
        _ => None,
    }
}

/// Whether a branch may link to an address.
fn is_link_address(address: u32) -> bool
    ensures { result ≡ is_link_address address }
{
    address <= WRITE_R3 || address == NOWHERE
}

/// A place, where a branch may link to it.
fn if_link(place: Option<Place>) -> Option<Place>
    ensures { result ≡ if_link place }
{
    match place {
        Some(place) => if is_link_address(address_of(place)) {
            Some(place)
        } else {
            None
        },
        None => None,
    }
}

/// Whether a suffix names a pack mode.
fn is_pack(name: Option<Name>) -> bool
    ensures { result ≡ is_pack name }
{
    match name {
        Some(name) => pack_of(name).is_some(),
        None => false,
    }
}

/// Whether a target is a row of file A.
fn is_row(place: Option<Place>) -> bool
    ensures { result ≡ is_row place }
{
    match place {
        Some(place) => is_row_a(place),
        None => false,
    }
}

/// The unpack mode that a suffix names.
pub(crate) fn unpack_name(name: Option<Name>) -> Option<u32>
    ensures { result ≡ unpack_name name }
{
    match name {
        Some(name) => unpack_of(name),
        None => None,
    }
}

/// Whether a name is that of a row of file A.
fn is_row_name(core: Core) -> bool
    ensures { result ≡ is_row_name core }
{
    matches!(core, Core::Name(Name::Register(Register::RowA(_))))
}

/// Whether a name is r5.
pub(crate) fn is_r5(core: Core) -> bool
    ensures { result ≡ is_r5 core }
{
    match core {
        Core::Name(Name::Register(Register::Accumulator(n))) => n == ROTATION,
        _ => false,
    }
}

/// Where an operand `-` isn't allowed: at its suffix.
fn nowhere_at(token: Token, suffix: Option<Suffix>) -> Token
    ensures { result ≡ nowhere_at token suffix }
{
    match suffix {
        None => token,
        Some(s) => s.dot,
    }
}

/// What a name stands for as an operand.
pub(crate) fn source_in(core: Core) -> Option<Operand>
    ensures { result ≡ source_in core }
{
    match core {
        Core::Name(name) => source_of(name),
        _ => None,
    }
}

impl Marks {
    /// The first suffix of a unit or load.
    fn put_first_suffix(&mut self, mul: bool, suffix: Option<Suffix>) -> Result<(), AllocError>
        ensures { OnOk result (self.new ≡ first_suffix mul suffix self.old) }
    {
        match suffix {
            None => Ok(()),
            Some(s) if is_set_flags(s.name) => self.put_if(mul, What::MulSets, s.dot),
            Some(s) => self.put_if(!is_condition(s.name), What::Wrong, s.dot),
        }
    }

    /// The second suffix of a unit or load.
    fn put_second_suffix(
        &mut self,
        mul: bool,
        first: Option<Suffix>,
        suffix: Option<Suffix>,
    ) -> Result<(), AllocError>
        ensures { OnOk result (self.new ≡ second_suffix mul first suffix self.old) }
    {
        match suffix {
            None => Ok(()),
            Some(s) if has_condition(first) && is_set_flags(s.name) => self.put_if(
                mul,
                What::MulSets,
                s.dot,
            ),
            Some(s) => self.put(What::Wrong, s.dot),
        }
    }

    /// The suffixes of a unit or load.
    #[tactic(auto, unfolding(crate::specs::reader::Marks::suffix_marks))]
    fn put_suffixes(&mut self, mul: bool, suffixes: Suffixes) -> Result<(), AllocError>
        ensures { OnOk result (self.new ≡ suffix_marks mul suffixes self.old) }
    {
        self.put_first_suffix(mul, suffixes.first)?;
        self.put_second_suffix(mul, suffixes.first, suffixes.second)
    }

    /// A write condition.
    fn put_condition(&mut self, suffix: Option<Suffix>) -> Result<(), AllocError>
        ensures { OnOk result (self.new ≡ condition_marks suffix self.old) }
    {
        match suffix {
            None => Ok(()),
            Some(s) => self.put_if(!is_condition(s.name), What::Wrong, s.dot),
        }
    }

    /// A branch condition.
    fn put_branch_condition(&mut self, suffix: Option<Suffix>) -> Result<(), AllocError>
        ensures { OnOk result (self.new ≡ branch_marks suffix self.old) }
    {
        match suffix {
            None => Ok(()),
            Some(s) => self.put_if(!is_branch_condition(s.name), What::Wrong, s.dot),
        }
    }

    /// A suffix that isn't allowed.
    fn put_no_suffix(&mut self, suffix: Option<Suffix>) -> Result<(), AllocError>
        ensures { OnOk result (self.new ≡ no_suffix suffix self.old) }
    {
        match suffix {
            None => Ok(()),
            Some(s) => self.put(What::Wrong, s.dot),
        }
    }

    /// A target's place.
    fn put_place(&mut self, place: Option<Place>, token: Token) -> Result<(), AllocError>
        ensures { OnOk result (self.new ≡ place_mark place token self.old) }
    {
        match place {
            None => self.put(What::Wrong, token),
            Some(place) => self.put(What::Writes(place), token),
        }
    }

    /// A target's pack.
    fn put_pack(&mut self, to: Option<Place>, suffix: Option<Suffix>) -> Result<(), AllocError>
        ensures { OnOk result (self.new ≡ pack_marks to suffix self.old) }
    {
        match suffix {
            None => Ok(()),
            Some(s) => self.put_if(!(is_row(to) && is_pack(s.name)), What::Wrong, s.dot),
        }
    }

    /// A unit's target.
    #[tactic(auto, unfolding(crate::specs::reader::Marks::target_marks))]
    fn put_target(&mut self, to: Piece) -> Result<(), AllocError>
        ensures { OnOk result (self.new ≡ target_marks to self.old) }
    {
        let place = target_place(to.core);
        self.put_place(place, to.token)?;
        self.put_pack(place, to.suffix)
    }

    /// An operand's unpack mode.
    fn put_unpack(&mut self, row: u32, piece: Piece) -> Result<(), AllocError>
        ensures { OnOk result (self.new ≡ unpack_marks row piece piece.suffix self.old) }
    {
        match piece.suffix {
            None => self.put(What::Unpacks(row, 0), piece.token),
            Some(s) => match unpack_name(s.name) {
                Some(mode) if row < ROWS => self.put(What::Unpacks(row, mode), s.dot),
                _ => self.put(What::Wrong, s.dot),
            },
        }
    }

    /// An operand that is a register.
    fn put_source(
        &mut self,
        mul: bool,
        piece: Piece,
        source: Option<Operand>,
    ) -> Result<(), AllocError>
        ensures { OnOk result (self.new ≡ source_marks mul piece source self.old) }
    {
        match source {
            None | Some(Operand::Small(_)) => self.put(What::Wrong, piece.token),
            Some(Operand::Accumulator(n)) => {
                self.put_if(mul && n > LAST_ROTATED, What::Fixed, piece.token)?;
                self.put_no_suffix(piece.suffix)
            }
            Some(Operand::FileA(n, _)) => {
                self.put(What::ReadsA(n), piece.token)?;
                self.put_if(mul, What::Fixed, piece.token)?;
                self.put_unpack(n, piece)
            }
            Some(Operand::FileB(n)) => {
                self.put(What::ReadsB(n), piece.token)?;
                self.put_if(mul, What::Fixed, piece.token)?;
                self.put_no_suffix(piece.suffix)
            }
        }
    }

    /// An operand that is a number.
    fn put_number(&mut self, piece: Piece, value: u32) -> Result<(), AllocError>
        ensures { OnOk result (self.new ≡ number_marks piece value self.old) }
    {
        self.put(What::Number(value), piece.token)?;
        self.put_if(code_of(value).is_none(), What::Far, piece.token)?;
        self.put_no_suffix(piece.suffix)
    }

    /// An operand.
    #[tactic(auto, unfolding(crate::specs::reader::Marks::operand_marks))]
    fn put_operand(&mut self, mul: bool, piece: Piece) -> Result<(), AllocError>
        ensures { OnOk result (self.new ≡ operand_marks mul piece self.old) }
    {
        match piece.core {
            Core::Name(name) => self.put_source(mul, piece, source_of(name)),
            Core::Number(value) => self.put_number(piece, value),
            Core::Nowhere => self.put(What::Wrong, nowhere_at(piece.token, piece.suffix)),
            _ => self.put(What::Wrong, piece.token),
        }
    }

    /// A unit's part.
    #[tactic(auto, unfolding(crate::specs::reader::Marks::unit_marks))]
    fn put_unit(&mut self, mul: bool, unit: UnitPart) -> Result<(), AllocError>
        ensures { OnOk result (self.new ≡ unit_marks mul unit self.old) }
    {
        self.put_if(!mul, What::Adds, unit.token)?;
        self.put_suffixes(mul, unit.suffixes)?;
        self.put_target(unit.to)?;
        self.put_operand(mul, unit.a)?;
        self.put_operand(mul, unit.b)
    }

    /// A number, of which any is allowed.
    fn put_any_number(&mut self, piece: Piece) -> Result<(), AllocError>
        ensures { OnOk result (self.new ≡ any_number piece self.old) }
    {
        match piece.core {
            Core::Number(_) => Ok(()),
            _ => self.put(What::Wrong, piece.token),
        }
    }

    /// A number between two.
    fn put_number_between(&mut self, low: u32, high: u32, piece: Piece) -> Result<(), AllocError>
        ensures { OnOk result (self.new ≡ number_between low high piece self.old) }
    {
        match piece.core {
            Core::Number(n) => self.put_if(!(low <= n && n <= high), What::Far, piece.token),
            _ => self.put(What::Wrong, piece.token),
        }
    }

    /// A load's part.
    #[tactic(auto, unfolding(crate::specs::reader::Marks::load_marks))]
    fn put_load(&mut self, load: LoadPart) -> Result<(), AllocError>
        ensures { OnOk result (self.new ≡ load_marks load self.old) }
    {
        self.put_suffixes(false, load.suffixes)?;
        self.put_place(target_place(load.to.core), load.to.token)?;
        self.put_any_number(load.value)
    }

    /// A load's second target.
    #[tactic(auto, unfolding(crate::specs::reader::Marks::also_marks))]
    fn put_also(&mut self, also: AlsoPart) -> Result<(), AllocError>
        ensures { OnOk result (self.new ≡ also_marks also self.old) }
    {
        self.put_condition(also.suffix)?;
        self.put_place(somewhere(also.to.core), also.to.token)
    }

    /// Where a branch goes.
    fn put_jump(&mut self, target: Piece) -> Result<(), AllocError>
        ensures { OnOk result (self.new ≡ jump_marks target self.old) }
    {
        match target.core {
            Core::Number(_)
            | Core::Label(Some(_))
            | Core::Name(Name::Register(Register::RowA(_))) => Ok(()),
            Core::Label(None) => self.put(What::Missing, target.token),
            _ => self.put(What::Wrong, target.token),
        }
    }

    /// A branch's part.
    #[tactic(auto, unfolding(crate::specs::reader::Marks::jumping_marks))]
    fn put_branch(&mut self, branch: BranchPart) -> Result<(), AllocError>
        ensures { OnOk result (self.new ≡ jumping_marks branch self.old) }
    {
        self.put_branch_condition(branch.suffix)?;
        self.put_place(if_link(target_place(branch.to.core)), branch.to.token)?;
        self.put_jump(branch.target)
    }

    /// By what a rotation turns.
    fn put_rotation(&mut self, by: Piece) -> Result<(), AllocError>
        ensures { OnOk result (self.new ≡ rotation_marks by self.old) }
    {
        if is_r5(by.core) {
            return Ok(());
        }
        self.put_number_between(1, LAST_ROTATION, by)
    }

    /// Another read of file A.
    fn put_other_a(&mut self, source: Option<Operand>, token: Token) -> Result<(), AllocError>
        ensures { OnOk result (self.new ≡ other_a source token self.old) }
    {
        match source {
            Some(Operand::FileA(n, _)) if n >= ROWS => self.put(What::ReadsA(n), token),
            _ => self.put(What::Wrong, token),
        }
    }

    /// Another read of file B.
    fn put_other_b(&mut self, source: Option<Operand>, token: Token) -> Result<(), AllocError>
        ensures { OnOk result (self.new ≡ other_b source token self.old) }
    {
        match source {
            Some(Operand::FileB(n)) if n >= ROWS => self.put(What::ReadsB(n), token),
            _ => self.put(What::Wrong, token),
        }
    }

    /// A part; behind the first part a unit's is the mul unit's.
    #[tactic(auto, unfolding(crate::specs::reader::Marks::part_marks))]
    fn put_part(&mut self, mul: bool, part: Part) -> Result<(), AllocError>
        ensures { OnOk result (self.new ≡ part_marks mul self.old part) }
    {
        match part {
            Part::Nop => Ok(()),
            Part::Unit(unit) => self.put_unit(mul, unit),
            Part::Load(load) => self.put_load(load),
            Part::Also(also) => self.put_also(also),
            Part::Increment(number) | Part::Decrement(number) => self.put_number_between(
                0,
                LAST_SEMAPHORE,
                number,
            ),
            Part::Branch(branch) => self.put_branch(branch),
            Part::Link(to) => self.put_place(if_link(somewhere(to.core)), to.token),
            Part::Row(row) => self.put_if(!is_row_name(row.core), What::Wrong, row.token),
            Part::Signal(_, token) => self.put(What::Signals, token),
            Part::Rotate(token, by) => {
                self.put(What::Rotates, token)?;
                self.put_rotation(by)
            }
            Part::ReadA(source) => self.put_other_a(source_in(source.core), source.token),
            Part::ReadB(source) => self.put_other_b(source_in(source.core), source.token),
        }
    }
}

/// The marks of parts behind the first.
#[tactic(auto, using(std::proofs::lemmas::List::Sums::fold_more))]
fn put_later(marks: &mut Marks, later: &[Part]) -> Result<(), AllocError>
    ensures { OnOk result (marks.new ≡ fold (part_marks true) marks.old later.now) }
{
    for part in later {
        marks.put_part(true, *part)?;
    }
    Ok(())
}

/// The marks of a line's parts.
#[tactic(auto, unfolding(crate::specs::reader::Marks::marks_of))]
pub(crate) fn marks_of(alloc: Global, parts: &[Part]) -> Result<Marks, AllocError>
    ensures { IfOk result (λ marks. marks ≡ marks_of parts.now) }
{
    let mut marks = Marks::new(alloc);
    if let [first, later @ ..] = parts {
        marks.put_part(false, *first)?;
        put_later(&mut marks, later)?;
    }
    Ok(marks)
}
