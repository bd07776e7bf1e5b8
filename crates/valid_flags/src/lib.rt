// TypeFlags of naga's valid/type.rs, and bits of a word. Flags are numbers with 01's values.
#![tactic(auto)]

ghost use Rattle.std.specs.Prelude.{◌≡◌, ◌<◌};
ghost use Rattle.std.specs.Int.Bits.{bit_and, bit_or};
ghost use Rattle.ir_records.specs.Kinds.{kind_number};
ghost use Rattle.valid_flags.specs.Flags.{bit, data_bit, sized_bit, io_shareable_bit, host_shareable_bit, creation_resolved_bit};
ghost use Rattle.valid_flags.specs.Flags.{is_sized_data, starting_flags, scalar_flags, space_flag, pointer_flags, not_host_shareable};
ghost use Rattle.valid_flags.specs.Serving.{NamesSpace, flags_over_base};

use ir_records::{Fault, Kind, ScalarKind, TypeRefusal};

/// naga's AddressSpace, by its number in a record.
#[derive(Clone, Copy, Debug, PartialEq, Eq)]
pub enum AddressSpace {
    Function = 0,
    Private = 1,
    WorkGroup = 2,
    Uniform = 3,
    Storage = 4,
    Handle = 5,
    Immediate = 6,
    TaskPayload = 7,
    RayPayload = 8,
    IncomingRayPayload = 9,
}

impl TryFrom<u32> for AddressSpace {
    type Error = TypeRefusal;

    ghost try_from_gives = { NamesSpace };

    /// Number 2 for a number of no address space.
    fn try_from(number: u32) -> Result<Self, TypeRefusal> {
        match number {
            0 => Ok(AddressSpace::Function),
            1 => Ok(AddressSpace::Private),
            2 => Ok(AddressSpace::WorkGroup),
            3 => Ok(AddressSpace::Uniform),
            4 => Ok(AddressSpace::Storage),
            5 => Ok(AddressSpace::Handle),
            6 => Ok(AddressSpace::Immediate),
            7 => Ok(AddressSpace::TaskPayload),
            8 => Ok(AddressSpace::RayPayload),
            9 => Ok(AddressSpace::IncomingRayPayload),
            _ => Err(TypeRefusal::of(Fault::FieldOutside)),
        }
    }
}

// The bits that are tested for.
const DATA_BIT: u32 = 0;

const SIZED_BIT: u32 = 1;

const IO_SHAREABLE_BIT: u32 = 3;

const HOST_SHAREABLE_BIT: u32 = 4;

const CREATION_RESOLVED_BIT: u32 = 7;

const DATA: u32 = 1 << DATA_BIT;

const SIZED: u32 = 1 << SIZED_BIT;

const COPY: u32 = 4;

pub const IO_SHAREABLE: u32 = 1 << IO_SHAREABLE_BIT;

const HOST_SHAREABLE: u32 = 1 << HOST_SHAREABLE_BIT;

const ARGUMENT: u32 = 32;

const CONSTRUCTIBLE: u32 = 64;

const CREATION_RESOLVED: u32 = 1 << CREATION_RESOLVED_BIT;
// All flags but IO_SHAREABLE and HOST_SHAREABLE.
const UNSHAREABLE: u32 = DATA | SIZED | COPY | ARGUMENT | CONSTRUCTIBLE | CREATION_RESOLVED;
// Of scalars and vectors.
const NUMERIC: u32 = UNSHAREABLE | IO_SHAREABLE | HOST_SHAREABLE;
// Of matrices, arrays and structs.
const COMPOSITE: u32 = UNSHAREABLE | HOST_SHAREABLE;

const ATOMIC: u32 = DATA | SIZED | HOST_SHAREABLE | CREATION_RESOLVED;
// Of pointers of both kinds.
const REFERENCE: u32 = SIZED | COPY | CREATION_RESOLVED;
// Of images, samplers and acceleration structures.
const HANDLE: u32 = ARGUMENT | CREATION_RESOLVED;

const RAY_QUERY: u32 = DATA | SIZED | CONSTRUCTIBLE | CREATION_RESOLVED;

const BINDING_ARRAY: u32 = SIZED | HOST_SHAREABLE | CREATION_RESOLVED;
// The starting flags of each kind, by its number: naga's table.
const STARTING_FLAGS: [u32; 14] = [
    NUMERIC,
    NUMERIC,
    COMPOSITE,
    COMPOSITE,
    ATOMIC,
    REFERENCE,
    REFERENCE,
    COMPOSITE,
    COMPOSITE,
    HANDLE,
    HANDLE,
    HANDLE,
    RAY_QUERY,
    BINDING_ARRAY,
];

// What a type may have that has no size.
const WITHOUT_SIZE: u32 = DATA | COPY | IO_SHAREABLE | HOST_SHAREABLE | CREATION_RESOLVED;

const NOT_HOST_SHAREABLE: u32 = UNSHAREABLE | IO_SHAREABLE;

// Bit k of a word.
fn bit(word: u32, k: u32) -> bool
    requires { k < 32 }
    ensures { result ≡ bit word k }
{
    (word >> k) % 2 == 1
}

// Bit k of a capability word.
// Kept: bit of a word under the name of what the word is; the five after it are named by what their bit says, and with the bit as a parameter they would
// be bit itself.
pub fn capable(capabilities: u32, k: u32) -> bool
    requires { k < 32 }
    ensures { result ≡ bit capabilities k }
{
    bit(capabilities, k)
}

pub fn is_data(flags: u32) -> bool
    ensures { result ≡ bit flags data_bit }
{
    bit(flags, DATA_BIT)
}

pub fn is_sized(flags: u32) -> bool
    ensures { result ≡ bit flags sized_bit }
{
    bit(flags, SIZED_BIT)
}

pub fn is_io_shareable(flags: u32) -> bool
    ensures { result ≡ bit flags io_shareable_bit }
{
    bit(flags, IO_SHAREABLE_BIT)
}

pub fn is_host_shareable(flags: u32) -> bool
    ensures { result ≡ bit flags host_shareable_bit }
{
    bit(flags, HOST_SHAREABLE_BIT)
}

pub fn is_creation_resolved(flags: u32) -> bool
    ensures { result ≡ bit flags creation_resolved_bit }
{
    bit(flags, CREATION_RESOLVED_BIT)
}

// Data that is sized, and resolved at shader creation.
pub fn is_sized_data(flags: u32) -> bool
    ensures { result ≡ is_sized_data flags }
{
    is_data(flags) & is_sized(flags) & is_creation_resolved(flags)
}

pub fn starting_flags(kind: Kind) -> u32
    ensures { result ≡ starting_flags (kind_number kind) }
{
    STARTING_FLAGS[kind as usize]
}

// A bool is not shareable.
pub fn scalar_flags(scalar_kind: u32, flags: u32) -> u32
    ensures { result ≡ scalar_flags scalar_kind flags }
{
    match ScalarKind::try_from(scalar_kind) {
        Ok(ScalarKind::Bool) => flags & UNSHAREABLE,
        _ => flags,
    }
}

// ptr_space_argument_flag: of function locals, private data and both ray payloads.
fn space_flag(space: u32) -> u32
    ensures { result ≡ space_flag space }
{
    match AddressSpace::try_from(space) {
        Ok(
            AddressSpace::Function
            | AddressSpace::Private
            | AddressSpace::RayPayload
            | AddressSpace::IncomingRayPayload,
        ) => ARGUMENT,
        Ok(
            AddressSpace::Uniform
            | AddressSpace::Storage
            | AddressSpace::WorkGroup
            | AddressSpace::Handle
            | AddressSpace::Immediate
            | AddressSpace::TaskPayload,
        ) => 0,
        // Number 2 refuses a record with such a number; the definition has it above the last of the spaces.
        Err(_) => ARGUMENT,
    }
}

pub fn pointer_flags(space: u32, flags: u32) -> u32
    ensures { result ≡ pointer_flags space flags }
{
    flags | space_flag(space)
}

/// What an array or a binding array of this size has of its base's flags: those that its kind starts with; without a size (none: a runtime array,
/// or a dynamic binding array) it is not SIZED, no ARGUMENT and not CONSTRUCTIBLE.
pub fn flags_over_base(kind: Kind, size: Option<u32>, base: u32) -> u32
    ensures { result ≡ flags_over_base (kind_number kind) size base }
{
    let own = starting_flags(kind);
    match size {
        Some(_) => base & own,
        None => base & (own & WITHOUT_SIZE),
    }
}

pub fn not_host_shareable(flags: u32) -> u32
    ensures { result ≡ not_host_shareable flags }
{
    flags & NOT_HOST_SHAREABLE
}

// What two types both have.
pub fn both(a: u32, b: u32) -> u32
    ensures { result ≡ bit_and a b }
{
    a & b
}
