// The walk of a type: from_type of naga's valid/immediates.rs. It calls itself on a smaller type number.
// A struct is walked from offsets 0 to 3 only, and what is found is kept: at any other offset its slots are those of the
// offset's remainder by 4, moved by whole slots.
// Bound: the members of each struct are gone over at most four times, once for each remainder, since later visits find it
// kept; the struct that is asked for stands in no other that is walked, so its members are gone over once. An arena of 1,024
// types and 4,096 member rows takes 17 million member steps at the most.
#![tactic(auto)]

ghost use Rattle.std.specs.Prelude.{◌≡◌, ◌+◌, ◌≤◌, ◌<◌, length, IfSome, MatchOption};
ghost use Rattle.ir_records.specs.Record.{decoded, type_word, struct_kind, struct_members, member_type, member_offset};
ghost use Rattle.proc_alignment.specs.Alignment.{most};
ghost use Rattle.immediates_ranges.specs.Slots.{slots_found};
ghost use Rattle.immediates_part.specs.Part.{Past, part_in, part_found};
ghost use Rattle.immediates_kept.specs.Kept.{Keeps};
ghost use Rattle.immediates_walk.specs.Walk.{slots_at};
ghost use Rattle.immediates_walk.specs.Parts.{Sizes, part_at};
ghost use Rattle.immediates_walk.specs.Serving.{members_at, StopsAt};

use immediates_kept::{Kept, OfType};
use immediates_part::Part;
use immediates_ranges::Slots;
use ir_records::Kind;

/// How many members of a struct have been taken, and their part.
// Kept: `valid_members_plain::Reached<Part>` says the same, with the part as its state; for it this crate would depend on the validator's member rules, of
// which it uses nothing, or Reached, which is of loops, would stand among the records.
#[derive(Clone, Copy, Debug, PartialEq, Eq)]
pub struct Taken {
    pub taken: u32,
    pub part: Part,
}

// A type of an arena; rows: those of the arena check, where sizes stand.
#[derive(Clone, Copy, Debug, PartialEq, Eq)]
struct ArenaType<'a> {
    types: &'a [u32],
    members: &'a [u32],
    rows: &'a [u32],
    ty: u32,
    ghost sizes: { Sizes types.now rows.now ty },
}

// A walk of the members of a struct at an offset, up to one of them.
#[derive(Clone, Copy, Debug, PartialEq, Eq)]
struct Walk<'a> {
    of: ArenaType<'a>,
    offset: u32,
    count: u32,
    from: Taken,
    ghost within: { from.taken ≤ count },
    ghost so_far: { part_in from.part ≡ members_at of.types.now of.members.now of.ty offset from.taken },
}

impl<'a> Walk<'a> {
    // From the first member on.
    #[tactic(auto, unfolding(crate::specs::Parts::members_part))]
    fn start(of: ArenaType<'a>, offset: u32) -> Self
        ensures of_same { result.of ≡ of.entry }
        ensures offset_same { result.offset ≡ offset }
        ensures count_value { result.count ≡ type_word of.entry.types.now of.entry.ty 2 }
    {
        Walk {
            of,
            offset,
            count: ir_records::type_word(of.types, of.ty, 2),
            from: Taken {
                taken: 0,
                part: Part::nothing_at(offset),
            },
        }
    }
}

// The members from where a walk stands, up to the first that is a struct; None where one before it is refused.
// Kept: the struct's rows are handed in: it is called once for each member that is a struct, and would look for them each time.
fn plain_from(walk: Walk, own: &[u32]) -> Option<Taken>
    requires { own.now ≡ struct_members walk.of.types.now walk.of.members.now walk.of.ty }
    ensures from_le_taken { IfSome result (λ t. (walk.entry.from.taken ≤ t.taken) × (t.taken ≤ walk.entry.count)) }
    ensures taken_bound { IfSome result
        (λ t. t.taken < walk.entry.count → StopsAt walk.entry.of.types.now walk.entry.of.members.now walk.entry.of.ty walk.entry.offset t.taken) }
    ensures value { MatchOption result
        (Past ≡ members_at walk.entry.of.types.now walk.entry.of.members.now walk.entry.of.ty walk.entry.offset walk.entry.count)
        (λ t. part_in t.part ≡ members_at walk.entry.of.types.now walk.entry.of.members.now walk.entry.of.ty walk.entry.offset t.taken) }
{
    let mut part = walk.from.part;
    for j in walk.from.taken..walk.count {
        let t = ir_records::member_type(own, j);
        let at = walk.offset.checked_add(ir_records::member_offset(own, j))?;
        if walk.of.ty <= t {
            return None;
        }
        if ir_records::is_of_kind(walk.of.types, t, Kind::Struct) {
            return Some(Taken { taken: j, part });
        }
        let size = ir_rows::row_word(walk.of.rows, t, ir_rows::SIZE as u32);
        let whole = immediates_part::range_part(at, size)?;
        part = part.join(whole);
    }
    Some(Taken {
        taken: walk.count,
        part,
    })
}

// All members from where a walk stands.
// Kept: `part_found result ≡ members_at walk.entry.of.types.now walk.entry.of.members.now walk.entry.of.ty walk.entry.offset walk.entry.count`: three
// functions hand this one result up: one is lent room for parts, one makes it, and one chooses how much.
#[cycle(members_part_struct_part)]
fn members_part(walk: Walk, kept: &mut [OfType]) -> Option<Part>
    requires ty_in_bounds { walk.of.ty ≤ length kept.old }
    requires keeps { Keeps (part_at (decoded walk.of.types.now walk.of.members.now)) kept.old }
    ensures value { part_found result ≡ members_at walk.entry.of.types.now walk.entry.of.members.now walk.entry.of.ty walk.entry.offset walk.entry.count }
    ensures keeps_2 { Keeps (part_at (decoded walk.entry.of.types.now walk.entry.of.members.now)) kept.new }
{
    let own = ir_records::struct_members(walk.of.types, walk.of.members, walk.of.ty);
    let mut part = walk.from.part;
    let mut j = walk.from.taken;
    // Kept: `j` goes on past all the members that plain_from took, which no range does.
    while j < walk.count {
        let from = Walk {
            of: walk.of,
            offset: walk.offset,
            count: walk.count,
            from: Taken { taken: j, part },
        };
        let plain = plain_from(from, own)?;
        let taken = plain.taken;
        if walk.count <= taken {
            return Some(plain.part);
        }
        let t = ir_records::member_type(own, taken);
        let at = walk.offset + ir_records::member_offset(own, taken);
        let inner = ArenaType {
            types: walk.of.types,
            members: walk.of.members,
            rows: walk.of.rows,
            ty: t,
        };
        let nested = struct_part(inner, kept, at)?;
        part = plain.part.join(nested);
        j = taken + 1;
    }
    Some(part)
}

// A struct at an offset: kept, or walked and kept.
#[cycle(members_part_struct_part)]
fn struct_part(own: ArenaType, kept: &mut [OfType], offset: u32) -> Option<Part>
    requires ty_in_bounds { own.ty < length kept.old }
    requires keeps { Keeps (part_at (decoded own.types.now own.members.now)) kept.old }
    requires ty_value { type_word own.types.now own.ty 0 ≡ struct_kind }
    ensures value { part_found result ≡ part_at (decoded own.entry.types.now own.entry.members.now) own.entry.ty offset }
    ensures keeps_2 { Keeps (part_at (decoded own.entry.types.now own.entry.members.now)) kept.new }
{
    let low = offset % 4;
    let further = offset / 4;
    if let Some(part) = immediates_kept::kept_part(kept, own.ty, low) {
        return part?.moved(further);
    }
    let walked = members_part(Walk::start(own, low), kept);
    immediates_kept::keep(kept, own.ty, low, walked);
    walked?.moved(further)
}

// The members of a struct that has a struct among them, with room for the parts of N types.
fn nested_in<const N: usize>(walk: Walk) -> Option<Part>
    requires parts_fit { walk.of.ty ≤ N }
    requires parts_bound { N ≤ 1024 }
    ensures { part_found result ≡ members_at walk.entry.of.types.now walk.entry.of.members.now walk.entry.of.ty walk.entry.offset walk.entry.count }
{
    let mut kept: [OfType; N] = [[Kept::Unwalked; 4]; N];
    members_part(walk, &mut kept)
}

// The same with room for each type before it. Emptying it takes time, so there is no more than needed, within four times.
fn nested_part(walk: Walk) -> Option<Part>
    requires { walk.of.ty ≤ 1024 }
    ensures { part_found result ≡ members_at walk.entry.of.types.now walk.entry.of.members.now walk.entry.of.ty walk.entry.offset walk.entry.count }
{
    match walk.of.ty {
        0..=8 => nested_in::<8>(walk),
        9..=32 => nested_in::<32>(walk),
        33..=128 => nested_in::<128>(walk),
        129..=512 => nested_in::<512>(walk),
        _ => nested_in::<1024>(walk),
    }
}

// A type at an offset. Nothing is kept for a struct that has no struct among its members.
fn type_part(own: ArenaType, offset: u32) -> Option<Part>
    requires { own.ty ≤ 1024 }
    ensures { part_found result ≡ part_at (decoded own.entry.types.now own.entry.members.now) own.entry.ty offset }
{
    if !ir_records::is_of_kind(own.types, own.ty, Kind::Struct) {
        let size = ir_rows::row_word(own.rows, own.ty, ir_rows::SIZE as u32);
        return immediates_part::range_part(offset, size);
    }
    let walk = Walk::start(own, offset);
    let rows = ir_records::struct_members(own.types, own.members, own.ty);
    let plain = plain_from(walk, rows)?;
    if walk.count <= plain.taken {
        return Some(plain.part);
    }
    nested_part(Walk {
        of: walk.of,
        offset: walk.offset,
        count: walk.count,
        from: plain,
    })
}

// Kept: `types`, `members`, `rows`: the tables of the call, of which ArenaType is made here.
/// from_type: the slots of a type at an offset; None as of `immediates_ranges::range_slots`.
pub fn type_slots(
    types: &[u32],
    members: &[u32],
    rows: &[u32],
    ty: u32,
    offset: u32,
) -> Option<Slots>
    requires sizes { Sizes types.now rows.now ty }
    requires ty_bound { ty ≤ 1024 }
    ensures { slots_found result ≡ slots_at (decoded types.now members.now) ty offset }
{
    let own = ArenaType {
        types,
        members,
        rows,
        ty,
    };
    let part = type_part(own, offset)?;
    Some(part.slots)
}
