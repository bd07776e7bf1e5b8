// The rules of one member of a struct on what is accepted and on flags, of the member loop of validate_type in naga's valid/type.rs.
#![tactic(auto)]

ghost use Rattle.std.specs.Prelude.{◌≡◌};
ghost use Rattle.ir_records.specs.Record.{type_inner};
ghost use Rattle.valid_type_info.specs.Serving.{is_within};
ghost use Rattle.valid_member_bounds.specs.MemberBounds.{is_array, is_member_data, is_apart, is_member_sized, member_flags, bounds_by};
ghost use Rattle.ir_records.specs.Refusal.{judged};

use ir_records::{Fault, Kind, TypeRefusal};
use valid_type_info::Distance;

// The running end and the flags after some members.
#[derive(Clone, Copy, Debug, PartialEq, Eq)]
pub struct Bounds {
    pub end: u32,
    pub flags: u32,
}

/// Member j as the rules of bounds see it: its offset, the size and flags of its type, and whether that is an array.
#[derive(Clone, Copy, Debug, PartialEq, Eq)]
pub struct BoundMember {
    pub j: u32,
    pub offset: u32,
    pub size: u32,
    pub flags: u32,
    pub array: bool,
}

// Whether type t is an array; its kind tells.
// Kept: beside `valid_type_flags::is_struct`: is_of_kind says that a number is the kind's, these what the record says; one function for both would
// need a definition from kinds to tests of TypeInner, which no rule reads.
pub fn is_array(types: &[u32], t: u32) -> bool
    ensures { result ≡ is_array (type_inner types.now t) }
{
    ir_records::is_of_kind(types, t, Kind::Array)
}

// Number 17: data of a size known at shader creation.
fn is_member_data(flags: u32) -> bool
    ensures { result ≡ is_member_data flags }
{
    valid_flags::is_data(flags) & valid_flags::is_creation_resolved(flags)
}

// Number 20: sized, or an array that is the last member.
fn is_member_sized(flags: u32, array: bool, j: u32, count: u32) -> bool
    ensures { result ≡ is_member_sized flags array j count }
{
    let last = (j as u64) + 1 == count as u64;
    valid_flags::is_sized(flags) | array & last
}

// Offset 0 under the running end costs HOST_SHAREABLE.
fn member_flags(end: u32, offset: u32, flags: u32) -> u32
    ensures { result ≡ member_flags end offset flags }
{
    if end <= offset {
        flags
    } else {
        valid_flags::not_host_shareable(flags)
    }
}

fn is_apart(end: u32, offset: u32) -> bool
    ensures { result ≡ is_apart end offset }
{
    (end <= offset) | (offset == 0)
}

pub fn is_within(d: Distance) -> bool
    ensures { result ≡ is_within d }
{
    d != Distance::Overflow
}

// Numbers 17 to 21 in the Rust's order; else the running end and the flags after this member.
pub fn member_bounds(
    count: u32,
    span: u32,
    distance: Distance,
    m: BoundMember,
    so_far: Bounds,
) -> Result<Bounds, TypeRefusal>
    ensures { judged result ≡ bounds_by count span (is_within distance) m.array m.offset m.j m.size m.flags so_far }
{
    let end = so_far.end;
    if !is_member_data(m.flags) {
        return Err(TypeRefusal::of_member(Fault::InvalidData, m.j));
    }
    if !is_apart(end, m.offset) {
        return Err(TypeRefusal::of_member(Fault::MemberOverlap, m.j));
    }
    let next = m
        .offset
        .checked_add(m.size)
        .ok_or(TypeRefusal::of_member(Fault::StructSum, m.j))?;
    if span < next {
        return Err(TypeRefusal::of_member(Fault::MemberOutOfBounds, m.j));
    }
    if !is_within(distance) {
        return Err(TypeRefusal::of_member(Fault::StructSum, m.j));
    }
    if !is_member_sized(m.flags, m.array, m.j, count) {
        return Err(TypeRefusal::of_member(Fault::InvalidDynamicArray, m.j));
    }
    let joined = valid_flags::both(so_far.flags, m.flags);
    Ok(Bounds {
        end: next,
        flags: member_flags(end, m.offset, joined),
    })
}
