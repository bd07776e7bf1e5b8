// The members of a struct, the struct, and the declarations of a WGSL text.
// Kept: `s` and `at`, the text and a position, are two parameters, as in wgsl_grammar: positions are what is read, and tokens, records and refusals hold them
// alone, so a struct of both would be built again from the text at each call.
#![tactic(auto)]

ghost use Rattle.std.specs.Prelude.{◌≡◌, ◌+◌, length, Ok};
ghost use Rattle.wgsl_tokens.specs.Tokens.{from};
ghost use Rattle.wgsl_grammar.specs.Grammar.{expect};
ghost use Rattle.wgsl_tables.specs.Tables.{name_in, structs_in};
ghost use Rattle.wgsl_members.specs.Serving.{tables, members_in, Bounds};
ghost use Rattle.wgsl_structs.specs.Structs.{goes, closes_or, member_end, members_of, struct_body, struct_of, declaration_of, declarations_of};
ghost use Rattle.wgsl_structs.specs.Serving.{end_read, MembersRead, declarations, declared_in, StateBounds};
ghost use Rattle.wgsl_structs.specs.Serving.{StructRead, Closable, ClosedIn, first, DeclarationRead};

use ir_records::{Kind, Records, Words};
use program_words::Span;
use std::ops::ControlFlow;
use wgsl_grammar::{Problem, Refusal};
use wgsl_members::Body;
use wgsl_placement::Shape;
use wgsl_tables::NamedShape;
use wgsl_tokens::Lexed;
use wgsl_types::End;

// The members of a struct that has closed; `close` is a position before its `}`.
#[derive(Clone, Copy, Debug, PartialEq, Eq)]
pub struct MembersAt {
    pub body: Body,
    pub close: usize,
}

// How many structs there are, the records made, and where the text goes on.
#[derive(Clone, Copy, Debug, PartialEq, Eq)]
pub struct State {
    pub structs: u32,
    pub made: Records,
    pub at: usize,
}

// After a comma: `}`, at which the struct ends, or another member.
fn after_comma(s: &[u8], at: usize) -> ControlFlow<End, usize>
    ensures { end_read s.now (Ok result) ≡ closes_or (expect 125 (from s.now at)) (goes (from s.now at)) }
{
    if let Ok(end) = wgsl_grammar::expect(s, at, b'}') {
        return ControlFlow::Break(End { at: end, close: at });
    }
    ControlFlow::Continue(at)
}

// After a member: `}`, or a comma, and perhaps `}`.
#[tactic(auto, unfolding(crate::specs::Structs::member_end))]
fn end_at(s: &[u8], at: usize) -> Result<ControlFlow<End, usize>, Refusal>
    ensures { end_read s.now result ≡ member_end (from s.now at) }
{
    if let Ok(end) = wgsl_grammar::expect(s, at, b'}') {
        return Ok(ControlFlow::Break(End { at: end, close: at }));
    }
    let next = wgsl_grammar::expect(s, at, b',')?;
    Ok(after_comma(s, next))
}

// The members of a struct, one at least, and its `}`.
// Kept: the tables are parameters as in wgsl_members.
fn read_members(
    s: &[u8],
    structs: &[NamedShape],
    names: &mut [Span],
    types: &mut [u32],
    members: &mut [u32],
    room: Records,
    first: Body,
) -> Result<MembersAt, Refusal>
    requires { Bounds room (tables names.old types.old members.old) first }
    ensures { MembersRead s.now room (tables names.old types.old members.old) (tables names.new types.new members.new) first
        (members_of (length s.now) (length s.now) room (structs_in s.now structs.now) (members_in s.now (tables names.old types.old members.old) first))
        result }
{
    let mut body = first;
    // Kept: the turns are those of the definition. `while let ControlFlow::Continue(at) = end_at(..)?` would have to fall in the tokens that are left, and a law
    // would have to say that a text has no more of them than bytes.
    for _turn in 0..s.len() {
        let more = wgsl_members::read_member(s, structs, names, types, members, room, body)?;
        match end_at(s, more.at)? {
            ControlFlow::Break(end) => {
                return Ok(MembersAt {
                    body: Body { at: end.at, ..more },
                    close: end.close,
                });
            }
            ControlFlow::Continue(at) => {
                body = Body { at, ..more };
            }
        }
    }
    Err(Refusal::of(Problem::NoName, 0))
}

// The struct's record, name and shape, where its span and the tables have room.
fn close_struct(
    structs: &mut [NamedShape],
    types: &mut [u32],
    room: u32,
    state: State,
    body: Body,
    name: Span,
    close: usize,
) -> Result<State, Refusal>
    requires { Closable structs.old types.old room state body }
    ensures { ClosedIn structs.old structs.new types.old types.new room state body name result }
{
    let span = proc_alignment::round_up_wide(body.align, body.end);
    let size = u32::try_from(span).map_err(|_| Refusal::of(Problem::LargeStruct, close))?;
    if room <= body.made.types {
        return Err(Refusal::of(Problem::TypesFull, close));
    }
    let count = body.made.members - state.made.members;
    let w = Words::of(Kind::Struct as u32, state.made.members, count, size, 0);
    wgsl_tables::put_type(types, body.made.types, w);
    let shape = Shape {
        number: body.made.types,
        size,
        align: body.align,
        fixed: body.fixed,
    };
    structs[state.structs as usize] = NamedShape { name, shape };
    Ok(State {
        structs: state.structs + 1,
        made: Records {
            types: body.made.types + 1,
            ..body.made
        },
        at: body.at,
    })
}

// A struct from its members on.
// Kept: the tables are parameters as in wgsl_members, and `StateBounds` has all that is asked of them.
fn struct_body(
    s: &[u8],
    structs: &mut [NamedShape],
    names: &mut [Span],
    types: &mut [u32],
    members: &mut [u32],
    room: Records,
    state: State,
    name: Span,
    at: usize,
) -> Result<State, Refusal>
    requires { StateBounds room (declarations structs.old names.old types.old members.old) state }
    ensures { StructRead s.now room (declarations structs.old names.old types.old members.old) (declarations structs.new names.new types.new members.new)
        state (struct_body (length s.now) room (declared_in s.now (declarations structs.old names.old types.old members.old) state)
        (name_in s.now name.start name.end) (from s.now at)) result }
{
    let first = Body {
        names: 0,
        end: 0,
        align: 1,
        fixed: true,
        made: state.made,
        at,
    };
    let earlier = &structs[..state.structs as usize];
    let read = read_members(s, earlier, names, types, members, room, first)?;
    close_struct(
        structs, types, room.types, state, read.body, name, read.close,
    )
}

// A struct, after `struct`.
#[tactic(auto, unfolding(crate::specs::Structs::struct_of))]
fn read_struct(
    s: &[u8],
    structs: &mut [NamedShape],
    names: &mut [Span],
    types: &mut [u32],
    members: &mut [u32],
    room: Records,
    state: State,
    at: usize,
) -> Result<State, Refusal>
    requires { StateBounds room (declarations structs.old names.old types.old members.old) state }
    ensures { StructRead s.now room (declarations structs.old names.old types.old members.old) (declarations structs.new names.new types.new members.new)
        state (struct_of (length s.now) room (declared_in s.now (declarations structs.old names.old types.old members.old) state) (from s.now at)) result }
{
    let name = wgsl_grammar::name_at(s, at)?;
    let earlier = &structs[..state.structs as usize];
    if wgsl_types::known_type(s, earlier, name.bytes(s)).is_some() {
        return Err(Refusal::of(Problem::RepeatedType, at));
    }
    let next = wgsl_grammar::expect(s, name.end, b'{')?;
    struct_body(s, structs, names, types, members, room, state, name, next)
}

// A declaration, an empty one or a struct; nothing at the end of the text.
fn declaration_at(
    s: &[u8],
    structs: &mut [NamedShape],
    names: &mut [Span],
    types: &mut [u32],
    members: &mut [u32],
    room: Records,
    state: State,
) -> Result<Option<State>, Refusal>
    requires { StateBounds room (declarations structs.old names.old types.old members.old) state }
    ensures { DeclarationRead s.now room (declarations structs.old names.old types.old members.old)
        (declarations structs.new names.new types.new members.new) state
        (declaration_of (length s.now) room (declared_in s.now (declarations structs.old names.old types.old members.old) state) (from s.now state.at))
        result }
{
    match wgsl_tokens::next_token(s, state.at) {
        Ok(None) => Ok(None),
        Ok(Some(Lexed::Mark { byte: b';', end })) => Ok(Some(State { at: end, ..state })),
        Ok(Some(Lexed::Word(word))) if wgsl_names::same(word.bytes(s), b"struct") => {
            let next = read_struct(s, structs, names, types, members, room, state, word.end)?;
            Ok(Some(next))
        }
        _ => Err(Refusal::of(Problem::NoDeclaration, state.at)),
    }
}

// All declarations of a text.
pub fn read_declarations(
    s: &[u8],
    structs: &mut [NamedShape],
    names: &mut [Span],
    types: &mut [u32],
    members: &mut [u32],
    room: Records,
) -> Result<State, Refusal>
    requires { StateBounds room (declarations structs.old names.old types.old members.old) first }
    ensures { StructRead s.now room (declarations structs.old names.old types.old members.old) (declarations structs.new names.new types.new members.new)
        first (declarations_of (length s.now) (length s.now + 1) room (declared_in s.now (declarations structs.old names.old types.old members.old) first))
        result }
{
    let mut state = State {
        structs: 0,
        made: Records::default(),
        at: 0,
    };
    // Kept: the turns are those of the definition. `while let Some(next) = declaration_at(..)?` would have to fall in the tokens that are left, by the same law.
    for _turn in 0..s.len() + 1 {
        let read = declaration_at(s, structs, names, types, members, room, state)?;
        let Some(next) = read else {
            return Ok(state);
        };
        state = next;
    }
    Err(Refusal::of(Problem::NoDeclaration, s.len()))
}
