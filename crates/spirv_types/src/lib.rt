// The record of one type that is read, from the words of a SPIR-V module, and its refusals 29 and 30.
#![tactic(auto)]

ghost use Rattle.std.specs.Prelude.{◌≡◌, true, ◌&&◌, ◌||◌, Ok, List, ℕ, ◌≤◌, ◌<◌, eqb, leb, ltb, length};
ghost use Rattle.ir_records.specs.Result.{pick, ok, require};
ghost use Rattle.proc_alignment.specs.Alignment.{most};
ghost use Rattle.ir_records.specs.declared.Fault.TheVariants as fault;
ghost use Rattle.ir_records.specs.Kinds.{kind_number, scalar_number};
ghost use Rattle.ir_records.specs.Record.{member_count, scalar_kind};
ghost use Rattle.spirv_ids.specs.Ids.{integer_before, is_constant, type_number};
ghost use Rattle.spirv_words.specs.Module.{opcode, word, found};
ghost use Rattle.ir_records.specs.Refusal.{RefusedUnless};
ghost use Rattle.spirv_members.specs.Serving.{faulted};
ghost use Rattle.ir_records.specs.Record.{record_of};
ghost use Rattle.spirv_types.specs.Types.{is_fresh, stride_at, constant_length, type_at};
ghost use Rattle.spirv_types.specs.Serving.{leaf, width_of, kinded, sign_of, int_made, float_made, parts_made, vector_made, matrix_made};
ghost use Rattle.spirv_types.specs.Serving.{stride_made, length_made, array_typed, array_made, runtime_array_made, spanned, struct_made, type_made};

use ir_records::{Fault, Kind, ScalarKind, Words};
use spirv_ids::{Given, Module, Place};
use spirv_members::{Members, Tables};

// A type's record and its layout alignment.
#[derive(Clone, Copy, Debug, PartialEq, Eq)]
pub struct Typed {
    pub words: Words,
    pub alignment: u32,
}

// How many parts a vector or a matrix has, and the record of each.
#[derive(Clone, Copy, Debug, PartialEq, Eq)]
pub struct Parts {
    pub count: u32,
    pub part: Words,
}

/// A place, and the records that are made of the instructions before it: a type for each that is read, and so many member rows.
#[derive(Clone, Copy, Debug, PartialEq, Eq)]
pub struct Known<'a, 'b> {
    pub place: Place<'a>,
    pub tables: Tables<'b>,
    pub rows: u32,
    ghost whole: { length tables.alignments.now ≡ type_number place.input.words.now place.at },
}

// Of a leaf: aligned to a factor times its width; no alignment is 1.
// Kept: `width ≤ 255`: as a `u8` the width would be narrowed where it comes from a record, of which `Bounded` says the bound, and widened again for
// `leaf_alignment` and for the record.
fn leaf_type(words: Words, factor: u32, width: u32) -> Typed
    requires factor_bound { factor ≤ 16 }
    requires width_bound { width ≤ 255 }
    ensures { result ≡ leaf words factor width }
{
    Typed {
        words,
        alignment: proc_type_alignment::leaf_alignment(factor, width).unwrap_or(1),
    }
}

// Number 30 where its id is given before, or has a decoration that it cannot have.
fn check_fresh(place: Place) -> Result<(), Fault>
    ensures { RefusedUnless result fault.ModuleOrder (is_fresh place.entry.input.words.now place.entry.at) }
{
    let words = place.input.words;
    let op = spirv_words::opcode_of(words, place.at);
    let id = spirv_words::word_of(words, place.at, 1);
    let misplaced = spirv_words::first_between(words, spirv_words::HEADER_WORDS, place.at, |p| {
        spirv_words::is_misplaced(words, op, id, p)
    });
    let fit = spirv_ids::is_new(place, id) & misplaced.is_none();
    ir_records::require(fit, Fault::ModuleOrder)
}

// The width in bytes; number 29 for any other number of bits.
fn width_of(bits: u32) -> Result<u32, Fault>
    ensures width { faulted result ≡ width_of bits }
    ensures bound { (width : ℕ) → result ≡ Ok width → width ≤ 255 }
{
    if matches!(bits, 8 | 16 | 32 | 64) {
        return Ok(bits / 8);
    }
    Err(Fault::ModuleType)
}

// Number 29 for any other word.
// Kept: arms by number: SPIR-V's word 0 is Uint and 1 is Sint, the other way round than the codes of ScalarKind, so that a TryFrom of the word would have
// these same arms and no other caller.
fn sign_kind(signedness: u32) -> Result<ScalarKind, Fault>
    ensures { kinded result ≡ sign_of signedness }
{
    match signedness {
        0 => Ok(ScalarKind::Uint),
        1 => Ok(ScalarKind::Sint),
        _ => Err(Fault::ModuleType),
    }
}

fn scalar_type(kind: ScalarKind, width: u32) -> Typed
    requires { width ≤ 255 }
    ensures { result ≡ leaf (record_of scalar_kind (scalar_number kind) width 0 0) 1 width }
{
    let words = Words::of(Kind::Scalar as u32, kind as u32, width, 0, 0);
    leaf_type(words, 1, width)
}

fn int_type(place: Place) -> Result<Typed, Fault>
    ensures { faulted result ≡ int_made place.entry.input.words.now place.entry.at }
{
    let width = width_of(spirv_words::word_of(place.input.words, place.at, 2))?;
    let kind = sign_kind(spirv_words::word_of(place.input.words, place.at, 3))?;
    Ok(scalar_type(kind, width))
}

// A fourth word is an encoding, which is number 29.
fn float_type(place: Place) -> Result<Typed, Fault>
    ensures { faulted result ≡ float_made place.entry.input.words.now place.entry.at }
{
    if 3 < spirv_words::word_count(place.input.words, place.at) {
        return Err(Fault::ModuleType);
    }
    let width = width_of(spirv_words::word_of(place.input.words, place.at, 2))?;
    Ok(scalar_type(ScalarKind::Float, width))
}

// What a vector or a matrix consists of: how many parts, each with this record, which is of the kind that is asked for.
fn parts_of(place: Place, tables: Tables, kind: Kind) -> Result<Parts, Fault>
    ensures { faulted result ≡ parts_made place.entry.input.words.now tables.entry.types.now place.entry.at (kind_number kind) }
{
    let count = spirv_words::word_of(place.input.words, place.at, 3);
    if !(2..=4).contains(&count) {
        return Err(Fault::ModuleType);
    }
    let number = spirv_members::type_named(spirv_ids::named(place, 2))?;
    let part = ir_records::record_words(tables.types, number);
    if !part.is(kind) {
        return Err(Fault::ModuleOrder);
    }
    Ok(Parts { count, part })
}

fn vector_type(place: Place, tables: Tables) -> Result<Typed, Fault>
    ensures { faulted result ≡ vector_made place.entry.input.words.now tables.entry.types.now place.entry.at }
{
    let parts = parts_of(place, tables, Kind::Scalar)?;
    let vector = Words::of(
        Kind::Vector as u32,
        parts.count,
        parts.part.a,
        parts.part.b,
        0,
    );
    let factor = proc_alignment::vector_alignment(parts.count);
    Ok(leaf_type(vector, factor, parts.part.b))
}

fn matrix_type(place: Place, tables: Tables) -> Result<Typed, Fault>
    ensures { faulted result ≡ matrix_made place.entry.input.words.now tables.entry.types.now place.entry.at }
{
    let parts = parts_of(place, tables, Kind::Vector)?;
    let matrix = Words::of(
        Kind::Matrix as u32,
        parts.count,
        parts.part.a,
        parts.part.b,
        parts.part.c,
    );
    let factor = proc_alignment::vector_alignment(parts.part.a);
    Ok(leaf_type(matrix, factor, parts.part.c))
}

// The one ArrayStride of an array; none where there are several.
#[tactic(auto, unfolding(crate::specs::Types::stride_at))]
fn stride_at(place: Place) -> Option<usize>
    ensures { result ≡ found (stride_at place.entry.input.words.now place.entry.at) }
{
    let words = place.input.words;
    let id = spirv_words::word_of(words, place.at, 1);
    spirv_words::only_before(words, place.at, |p| spirv_words::is_stride_of(words, id, p))
}

// Its operand; number 30 where there is not one.
fn stride_of(place: Place) -> Result<u32, Fault>
    ensures { faulted result ≡ stride_made place.entry.input.words.now place.entry.at }
{
    let at = stride_at(place).ok_or(Fault::ModuleOrder)?;
    Ok(spirv_words::word_of(place.input.words, at, 3))
}

// A length by the words of its type and its own.
// Kept: the sign is tested by 0: `sign_kind` refuses a word above 1 with 29, and here any word but 0 limits the value.
fn length_by(bits: u32, signedness: u32, value: u32) -> Option<u32>
    ensures { result ≡ found (pick (eqb bits 32 && (eqb signedness 0 || ltb value 2147483648)) value 0) }
{
    let fits = (bits == 32) & ((signedness == 0) | (value < 2147483648));
    (fits & (value != 0)).then_some(value)
}

// The length that the constant at a place is.
fn constant_length(input: Module, at: usize) -> Option<u32>
    requires { is_constant input.words.now at ≡ true }
    ensures { result ≡ found (constant_length input.entry.words.now at (integer_before input.entry.words.now at (word input.entry.words.now at 1))) }
{
    let words = input.words;
    let integer = spirv_ids::integer_of(input, at)?;
    let bits = spirv_words::word_of(words, integer, 2);
    let signedness = spirv_words::word_of(words, integer, 3);
    let value = spirv_words::word_of(words, at, 3);
    length_by(bits, signedness, value)
}

// The length of the array at a place: number 29 where a type that is not read stands for it, none where no length above 0 does.
#[tactic(auto, unfolding(crate::specs::Types::length_of))]
fn length_of(place: Place) -> Result<Option<u32>, Fault>
    ensures { faulted result ≡ length_made place.entry.input.words.now place.entry.at }
{
    match spirv_ids::named(place, 3) {
        Some(Given::ConstantAt(at)) => Ok(constant_length(place.input, at)),
        Some(Given::OtherType) => Err(Fault::ModuleType),
        Some(Given::TypeRead(_)) | None => Ok(None),
    }
}

// The record of an array, aligned as its element is; no length: a runtime array.
fn array_typed(alignments: &[u32], base: u32, length: Option<u32>, stride: u32) -> Typed
    ensures { result ≡ array_typed alignments.now base length stride }
{
    let alignment = alignments.get(base as usize).copied().unwrap_or(1);
    Typed {
        words: Words::array(base, length, stride),
        alignment,
    }
}

fn array_type(place: Place, alignments: &[u32]) -> Result<Typed, Fault>
    ensures { faulted result ≡ array_made place.entry.input.words.now alignments.now place.entry.at }
{
    let counted = length_of(place)?;
    let base = spirv_members::type_named(spirv_ids::named(place, 2))?;
    let stride = stride_of(place)?;
    let length = counted.ok_or(Fault::ModuleOrder)?;
    if length.checked_mul(stride).is_none() {
        return Err(Fault::ModuleOrder);
    }
    Ok(array_typed(alignments, base, Some(length), stride))
}

fn runtime_array_type(place: Place, alignments: &[u32]) -> Result<Typed, Fault>
    ensures { faulted result ≡ runtime_array_made place.entry.input.words.now alignments.now place.entry.at }
{
    let base = spirv_members::type_named(spirv_ids::named(place, 2))?;
    let stride = stride_of(place)?;
    Ok(array_typed(alignments, base, None, stride))
}

// A number of bytes in a record; number 30 where it leaves 32 bits.
fn number_of(bytes: u64) -> Result<u32, Fault>
    ensures { faulted result ≡ require (leb bytes most) 30 0 0 (ok bytes) }
{
    u32::try_from(bytes).map_err(|_| Fault::ModuleOrder)
}

// A struct of n members by their end and alignment; `first`: the member rows before it.
fn spanned_type(members: Members, first: u32, n: u32) -> Result<Typed, Fault>
    requires { 0 < members.alignment }
    ensures { faulted result ≡ spanned members first n }
{
    let alignment = members.alignment;
    let end = number_of(members.end)?;
    let span = number_of(proc_alignment::round_up(alignment, end))?;
    let words = Words::of(Kind::Struct as u32, first, n, span, 0);
    Ok(Typed { words, alignment })
}

fn struct_type(known: Known) -> Result<Typed, Fault>
    ensures { faulted result ≡ struct_made known.entry.place.input.words.now known.entry.tables.types.now known.entry.tables.alignments.now known.entry.rows
        known.entry.place.at }
{
    let place = known.place;
    let n = spirv_members::member_count(place.input.words, place.at);
    let members = spirv_members::members_of(place, known.tables, n)?;
    spanned_type(members, known.rows, n)
}

// The type of the instruction at a place, whatever its id is.
fn type_made(known: Known) -> Result<Typed, Fault>
    ensures { faulted result ≡ type_made known.entry.place.input.words.now known.entry.tables.types.now known.entry.tables.alignments.now known.entry.rows
        known.entry.place.at (opcode known.entry.place.input.words.now known.entry.place.at) }
{
    let place = known.place;
    let tables = known.tables;
    match spirv_words::opcode_of(place.input.words, place.at) {
        spirv_words::TYPE_BOOL => Ok(scalar_type(ScalarKind::Bool, 1)),
        spirv_words::TYPE_INT => int_type(place),
        spirv_words::TYPE_FLOAT => float_type(place),
        spirv_words::TYPE_VECTOR => vector_type(place, tables),
        spirv_words::TYPE_MATRIX => matrix_type(place, tables),
        spirv_words::TYPE_ARRAY => array_type(place, tables.alignments),
        spirv_words::TYPE_RUNTIME_ARRAY => runtime_array_type(place, tables.alignments),
        _ => struct_type(known),
    }
}

// The type at a place: number 29, then 30.
pub fn type_at(known: Known) -> Result<Typed, Fault>
    ensures { (ms : List ℕ) → member_count ms ≡ known.entry.rows
        → faulted result ≡ type_at known.entry.place.input.words.now
        (record { types = known.entry.tables.types.now; members = ms; alignments = known.entry.tables.alignments.now }) known.entry.place.at }
{
    let typed = type_made(known)?;
    check_fresh(known.place)?;
    Ok(typed)
}
