// A member of a struct in WGSL text: attributes, a name, a type; and where it is placed.
// Kept: `s` and `at`, the text and a position, are two parameters, as in wgsl_grammar: positions are what is read, and tokens, records and refusals hold them
// alone, so a struct of both would be built again from the text at each call.
#![tactic(auto)]

ghost use Rattle.std.specs.Prelude.{◌≡◌, ◌&&◌, Ok, None, Some, ltb, min, length};
ghost use Rattle.proc_alignment.specs.Alignment.{is_mask};
ghost use Rattle.ir_records.specs.Result.{pick};
ghost use Rattle.ir_records.specs.Refusal.{number_of};
ghost use Rattle.wgsl_tokens.specs.Tokens.{from};
ghost use Rattle.wgsl_grammar.specs.Serving.{number_read};
ghost use Rattle.wgsl_tables.specs.Tables.{name_in, structs_in};
ghost use Rattle.wgsl_members.specs.Members.{attributes, again, value_of, attribute_of, attributes_of, align_fits, size_fits};
ghost use Rattle.wgsl_members.specs.Members.{attributes_fit, align_of_member, size_of_member, typed_member, named_member, member_of};
ghost use Rattle.wgsl_members.specs.Serving.{attributes_read, tables, members_in, Bounds, MemberRead, Placeable, PlacedIn, Fits, Unplaced};

use ir_records::Records;
use program_words::{NumberRead, Span};
use wgsl_grammar::{Problem, Refusal};
use wgsl_placement::Shape;
use wgsl_tables::NamedShape;
use wgsl_types::{Closed, Unclosed};

/// An attribute stands twice at one member.
#[derive(Clone, Copy, Debug, PartialEq, Eq)]
pub struct Twice;

/// The number that each attribute gives, where it stands.
#[derive(Clone, Copy, Debug, PartialEq, Eq)]
pub struct Attributes {
    pub align: Result<Option<u32>, Twice>,
    pub size: Result<Option<u32>, Twice>,
}

// AlignOf and SizeOf of a member, with its attributes.
#[derive(Clone, Copy, Debug, PartialEq, Eq)]
pub struct Fit {
    pub align: u32,
    pub size: u32,
}

// The attributes of a member, and where the text goes on after them.
#[derive(Clone, Copy, Debug, PartialEq, Eq)]
pub struct AttributesAt {
    pub attributes: Attributes,
    pub at: usize,
}

// The members of a struct read so far: how many names, the end of the last one, the struct's alignment, whether its footprint is fixed, the records
// made, and where the text goes on.
#[derive(Clone, Copy, Debug, PartialEq, Eq)]
pub struct Body {
    pub names: u32,
    pub end: u64,
    pub align: u32,
    pub fixed: bool,
    pub made: Records,
    pub at: usize,
}

/// So deep may types stand inside types, a member's own type being 1.
pub const MOST_DEPTH: u32 = 32;

// `(`, a number, perhaps a comma, `)`.
#[tactic(auto, unfolding(crate::specs::Members::value_of))]
fn value_at(s: &[u8], at: usize) -> Result<NumberRead, Refusal>
    ensures { number_read s.now result ≡ value_of (from s.now at) }
{
    let first = wgsl_grammar::expect(s, at, b'(')?;
    let number = wgsl_grammar::number_at(s, first)?;
    let last = wgsl_grammar::skipping(s, number.at, b',');
    let end = wgsl_grammar::expect(s, last, b')')?;
    Ok(NumberRead {
        value: number.value,
        at: end,
    })
}

// One more of a kind.
// Kept: the Result is what is known of an attribute so far, and no outcome that is handed on; a second one is refused where the type closes.
fn again(given: Result<Option<u32>, Twice>, k: u32) -> Result<Option<u32>, Twice>
    ensures { result ≡ again given k }
{
    match given? {
        None => Ok(Some(k)),
        Some(_) => Err(Twice),
    }
}

// An attribute after its `@`.
#[tactic(auto, unfolding(crate::specs::Members::attribute_of))]
fn attribute_at(s: &[u8], given: Attributes, at: usize) -> Result<AttributesAt, Refusal>
    ensures { attributes_read s.now result ≡ attribute_of given (from s.now at) }
{
    let name = wgsl_grammar::name_at(s, at)?;
    let w = name.bytes(s);
    if wgsl_names::same(w, b"align") {
        let number = value_at(s, name.end)?;
        let attributes = Attributes {
            align: again(given.align, number.value),
            ..given
        };
        return Ok(AttributesAt {
            attributes,
            at: number.at,
        });
    }
    if wgsl_names::same(w, b"size") {
        let number = value_at(s, name.end)?;
        let attributes = Attributes {
            size: again(given.size, number.value),
            ..given
        };
        return Ok(AttributesAt {
            attributes,
            at: number.at,
        });
    }
    Err(Refusal::of(Problem::NoAttribute, at))
}

// Any number of attributes.
fn attributes_at(s: &[u8], at: usize) -> Result<AttributesAt, Refusal>
    ensures { attributes_read s.now result ≡ attributes_of (length s.now) (attributes (Ok None) (Ok None)) (from s.now at) }
{
    let mut given = Attributes {
        align: Ok(None),
        size: Ok(None),
    };
    let mut next = at;
    // Kept: the turns are those of the definition. `while let Ok(name) = expect(..)` would have to fall in the tokens that are left, and a law would have to
    // say that a text has no more of them than bytes.
    for _turn in 0..s.len() {
        let Ok(name) = wgsl_grammar::expect(s, next, b'@') else {
            return Ok(AttributesAt {
                attributes: given,
                at: next,
            });
        };
        let more = attribute_at(s, given, name)?;
        given = more.attributes;
        next = more.at;
    }
    Ok(AttributesAt {
        attributes: given,
        at: next,
    })
}

// Kept: `is_power_of_two` counts digits, and no law of the library ties their count to the definition's test; `proc_alignment::power_of_two` is a
// test of widths, up to 128.
fn is_power(k: u32) -> bool
    ensures { result ≡ (ltb 0 k && is_mask k) }
{
    if k == 0 {
        return false;
    }
    k & (k - 1) == 0
}

// AlignOfMember; none where `@align` does not fit.
fn align_of(attributes: Attributes, shape: Shape) -> Option<u32>
    ensures { result ≡ pick (align_fits attributes.align shape) (Some (align_of_member attributes shape)) None }
{
    match attributes.align {
        Ok(None) => Some(shape.align),
        Ok(Some(k)) if is_power(k) & proc_alignment::is_aligned(shape.align, k) => Some(k),
        _ => None,
    }
}

// SizeOfMember; none where `@size` does not fit.
fn size_of(attributes: Attributes, shape: Shape) -> Option<u32>
    ensures { result ≡ pick (size_fits attributes.size shape) (Some (size_of_member attributes shape)) None }
{
    match attributes.size {
        Ok(None) => Some(shape.size),
        Ok(Some(k)) if (shape.size <= k) & shape.fixed => Some(k),
        _ => None,
    }
}

// A member's alignment and size, or which of its attributes does not fit. `close`: a position before the token at which its type closes.
fn fitted(attributes: Attributes, shape: Shape, close: usize) -> Result<Fit, Refusal>
    ensures { Fits attributes shape result }
{
    let align = align_of(attributes, shape).ok_or(Refusal::of(Problem::Align, close))?;
    let size = size_of(attributes, shape).ok_or(Refusal::of(Problem::Size, close))?;
    Ok(Fit { align, size })
}

// An offset as a record has it: one above the limit, which the struct's close refuses, is written as the limit.
fn written(offset: u64) -> u32
    ensures { result ≡ min offset 4294967295 }
{
    u32::try_from(offset).unwrap_or(u32::MAX)
}

// The end, the alignment and the records' numbers after one more member, whose name and record are written.
fn place_member(
    names: &mut [Span],
    members: &mut [u32],
    body: Body,
    fit: Fit,
    closed: Closed,
    name: Span,
) -> Body
    requires { Placeable names.old members.old body }
    ensures { (a : Attributes) → fit.align ≡ align_of_member a closed.shape → fit.size ≡ size_of_member a closed.shape
        → PlacedIn names.old names.new members.old members.new body a closed.shape closed.made name closed.end.at result }
{
    let shape = closed.shape;
    let offset = proc_alignment::round_up_wide(fit.align, body.end);
    wgsl_tables::put_member(members, body.made.members, shape.number, written(offset));
    names[body.names as usize] = name;
    Body {
        names: body.names + 1,
        end: offset + u64::from(fit.size),
        align: body.align.max(fit.align),
        fixed: body.fixed & shape.fixed,
        made: Records {
            types: closed.made,
            members: body.made.members + 1,
        },
        at: closed.end.at,
    }
}

// A type that closes with no room for its record: the attributes are tested first.
fn full_refusal(attributes: Attributes, shape: Shape, close: usize) -> Refusal
    ensures { number_of result.fault ≡ pick (attributes_fit attributes shape) 1 33 }
{
    fitted(attributes, shape, close)
        .err()
        .unwrap_or(Refusal::of(Problem::TypesFull, close))
}

// The refusal for a member whose type has not closed, or has closed with no room.
fn refused(unclosed: Unclosed, attributes: Attributes) -> Refusal
    ensures { Unplaced attributes unclosed result }
{
    match unclosed {
        Unclosed::Refused(refusal) => refusal,
        Unclosed::Full { shape, close } => full_refusal(attributes, shape, close),
    }
}

// A member from its type on.
// Kept: here and in wgsl_structs the tables that are filled are parameters, and contracts put them together as `tables` and `declarations`: a struct of
// them would hold three `&mut`, and each function that takes it would have to ensure that it still holds the same three.
#[tactic(auto, unfolding(crate::specs::Members::typed_member))]
fn typed_member(
    s: &[u8],
    structs: &[NamedShape],
    names: &mut [Span],
    types: &mut [u32],
    members: &mut [u32],
    room: Records,
    body: Body,
    attributes: Attributes,
    name: Span,
    at: usize,
) -> Result<Body, Refusal>
    requires { Bounds room (tables names.old types.old members.old) body }
    ensures { MemberRead s.now room (tables names.old types.old members.old) (tables names.new types.new members.new) body
        (typed_member room (structs_in s.now structs.now) (members_in s.now (tables names.old types.old members.old) body) attributes
        (name_in s.now name.start name.end) (from s.now at)) result }
{
    let read = wgsl_types::read_type(
        s,
        structs,
        types,
        room.types,
        body.made.types,
        at,
        MOST_DEPTH,
    );
    let closed = read.map_err(|unclosed| refused(unclosed, attributes))?;
    let fit = fitted(attributes, closed.shape, closed.end.close)?;
    if room.members <= body.made.members {
        return Err(Refusal::of(Problem::MembersFull, closed.end.close));
    }
    Ok(place_member(names, members, body, fit, closed, name))
}

// A member from its name on.
#[tactic(auto, unfolding(crate::specs::Members::named_member))]
fn named_member(
    s: &[u8],
    structs: &[NamedShape],
    names: &mut [Span],
    types: &mut [u32],
    members: &mut [u32],
    room: Records,
    body: Body,
    attributes: Attributes,
    at: usize,
) -> Result<Body, Refusal>
    requires { Bounds room (tables names.old types.old members.old) body }
    ensures { MemberRead s.now room (tables names.old types.old members.old) (tables names.new types.new members.new) body
        (named_member room (structs_in s.now structs.now) (members_in s.now (tables names.old types.old members.old) body) attributes (from s.now at))
        result }
{
    let name = wgsl_grammar::name_at(s, at)?;
    let w = name.bytes(s);
    if wgsl_tables::is_one_of(s, w, &names[..body.names as usize]) {
        return Err(Refusal::of(Problem::RepeatedMember, at));
    }
    let next = wgsl_grammar::expect(s, name.end, b':')?;
    typed_member(
        s, structs, names, types, members, room, body, attributes, name, next,
    )
}

// A member.
#[tactic(auto, unfolding(crate::specs::Members::member_of))]
pub fn read_member(
    s: &[u8],
    structs: &[NamedShape],
    names: &mut [Span],
    types: &mut [u32],
    members: &mut [u32],
    room: Records,
    body: Body,
) -> Result<Body, Refusal>
    requires { Bounds room (tables names.old types.old members.old) body }
    ensures { MemberRead s.now room (tables names.old types.old members.old) (tables names.new types.new members.new) body
        (member_of (length s.now) room (structs_in s.now structs.now) (members_in s.now (tables names.old types.old members.old) body)) result }
{
    let given = attributes_at(s, body.at)?;
    named_member(
        s,
        structs,
        names,
        types,
        members,
        room,
        body,
        given.attributes,
        given.at,
    )
}
