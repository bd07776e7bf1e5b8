// A type in WGSL text: the type reader and the template-argument reader call each other, and the levels left fall.
// Kept: `s` and `at`, the text and a position, are two parameters, as in wgsl_grammar: positions are what is read, and tokens, records and refusals hold them
// alone, so a struct of both would be built again from the text at each call.
#![tactic(auto)]

ghost use Rattle.std.specs.Prelude.{◌≡◌, None, List, ℕ};
ghost use Rattle.std.proofs.Math.Option.{some};
ghost use Rattle.ir_records.specs.Record.{type_words};
ghost use Rattle.wgsl_tokens.specs.Tokens.{Token, from};
ghost use Rattle.wgsl_tables.specs.Tables.{Records, records_in, structs_in};
ghost use Rattle.wgsl_types.specs.Types.{known_type, Closing, make_type, scalar_type, close_template, template_of, template_type, number_count};
ghost use Rattle.wgsl_types.specs.Types.{comma_count, count_of, close_array, array_of, arguments_of, type_after, type_of};
ghost use Rattle.wgsl_types.specs.Serving.{count_read, opened_type, refused_inside, TypeRead, Room};

use ir_records::Words;
use wgsl_grammar::{Problem, Refusal};
use wgsl_names::{Scalar, Template, TypeName};
use wgsl_placement::Shape;
use wgsl_tables::NamedShape;

// What a name stands for.
#[derive(Clone, Copy, Debug, PartialEq, Eq)]
pub enum Known {
    Predeclared(TypeName),
    Struct(Shape),
}

/// Where a type ends: the text goes on at `at`, and `close` is a position before the token at which it closes.
#[derive(Clone, Copy, Debug, PartialEq, Eq)]
pub struct End {
    pub at: usize,
    pub close: usize,
}

// Of an array, none of a runtime-sized one, and the end after its `>`.
#[derive(Clone, Copy, Debug, PartialEq, Eq)]
pub struct CountAt {
    pub count: Option<u32>,
    pub end: End,
}

// A type after its name, and after the `<` of a template.
// Kept: `read_type` has a step for each. As closures three of the four would hold the same `&mut` table, which only one may.
#[derive(Clone, Copy, Debug, PartialEq, Eq)]
pub enum Opened {
    Scalar { scalar: Scalar, end: End },
    Struct { shape: Shape, end: End },
    Template { template: Template, at: usize },
    Array(usize),
}

/// A type that has closed: what it is, how many type records there are then, and where it ends.
#[derive(Clone, Copy, Debug, PartialEq, Eq)]
pub struct Closed {
    pub shape: Shape,
    pub made: u32,
    pub end: End,
}

/// Why there is no type: it is refused; or it has closed and there is no room for its record, which is refused last.
#[derive(Clone, Copy, Debug, PartialEq, Eq)]
pub enum Unclosed {
    Refused(Refusal),
    Full { shape: Shape, close: usize },
}

impl From<Refusal> for Unclosed {
    ghost use Rattle.wgsl_types.specs.declared.Unclosed.TheVariants.{Refused};

    ghost from_gives = { λ refusal result. result ≡ Refused refusal };

    fn from(refusal: Refusal) -> Unclosed {
        Unclosed::Refused(refusal)
    }
}

// The refusal for a type that stands inside another, or for its record.
fn refused_inside(inner: Unclosed) -> Refusal
    ensures { result ≡ refused_inside inner }
{
    match inner {
        Unclosed::Refused(refusal) => refusal,
        Unclosed::Full { close, .. } => Refusal::of(Problem::TypesFull, close),
    }
}

// What a name stands for: a predeclared type, or a struct; none where it is still to be declared.
pub fn known_type(s: &[u8], structs: &[NamedShape], w: &[u8]) -> Option<Known>
    ensures { result ≡ known_type w.now (structs_in s.now structs.now) }
{
    match wgsl_names::predeclared(w) {
        Some(name) => Some(Known::Predeclared(name)),
        None => wgsl_tables::shape_named(s, w, structs).map(Known::Struct),
    }
}

// The name of a type, and the `<` of a template.
#[tactic(auto, unfolding(crate::specs::Types::type_after))]
fn open_type(s: &[u8], structs: &[NamedShape], at: usize) -> Result<Opened, Refusal>
    ensures { (inner : Records → List Token → Closing) (room left : ℕ) (types : Records)
        → type_after inner room left (structs_in s.now structs.now) types (from s.now at) ≡ opened_type inner room left types s.now result }
{
    let name = wgsl_grammar::name_at(s, at)?;
    let known = known_type(s, structs, name.bytes(s)).ok_or(Refusal::of(Problem::UnknownType, at))?;
    let end = End {
        at: name.end,
        close: at,
    };
    match known {
        Known::Predeclared(TypeName::OfScalar(scalar)) => Ok(Opened::Scalar { scalar, end }),
        Known::Struct(shape) => Ok(Opened::Struct { shape, end }),
        Known::Predeclared(TypeName::OfTemplate(template)) => {
            let at = wgsl_grammar::expect(s, name.end, b'<')?;
            Ok(Opened::Template { template, at })
        }
        Known::Predeclared(TypeName::Array) => {
            let at = wgsl_grammar::expect(s, name.end, b'<')?;
            Ok(Opened::Array(at))
        }
    }
}

// A record more, where there is room for it. The text goes on at the end, whatever it is.
// Kept: `s`, `types`, `room`, `made`: here and below the lent words, the room in them and the count are three parameters, and `Room` is asked of them. A
// struct of the three would hold a `&mut`, and each function that takes it would have to ensure that it still holds the same one. `types` cut to `room` records
// would ask more of `read_type`'s callers, and each function would have to divide its length to know the room.
#[tactic(auto, unfolding(crate::specs::Types::make_type))]
fn make_type(
    types: &mut [u32],
    room: u32,
    made: u32,
    shape: Shape,
    w: Words,
    end: End,
) -> Result<Closed, Unclosed>
    requires { Room room made types.old }
    ensures { (s : List ℕ) → TypeRead s room made types.old types.new (make_type room (records_in type_words types.old made) shape w (from s end.at)) result }
{
    if made < room {
        wgsl_tables::put_type(types, made, w);
        return Ok(Closed {
            shape,
            made: made + 1,
            end,
        });
    }
    Err(Unclosed::Full {
        shape,
        close: end.close,
    })
}

fn make_scalar(
    types: &mut [u32],
    room: u32,
    made: u32,
    scalar: Scalar,
    end: End,
) -> Result<Closed, Unclosed>
    requires { Room room made types.old }
    ensures { (s : List ℕ) → TypeRead s room made types.old types.new (scalar_type room (records_in type_words types.old made) scalar (from s end.at)) result }
{
    let shape = wgsl_placement::scalar_shape(made, scalar);
    let w = wgsl_placement::scalar_record(scalar);
    make_type(types, room, made, shape, w, end)
}

// The end of a vector, matrix or atomic, after its scalar.
// Kept: here and in the next `template` and `scalar`, as in wgsl_placement: `template_type` has a template before there is a scalar.
fn close_template(
    s: &[u8],
    types: &mut [u32],
    room: u32,
    made: u32,
    template: Template,
    scalar: Scalar,
    at: usize,
) -> Result<Closed, Unclosed>
    requires { Room room made types.old }
    ensures { TypeRead s.now room made types.old types.new (close_template room template scalar (records_in type_words types.old made) (from s.now at)) result }
{
    let close = wgsl_grammar::skipping(s, at, b',');
    let at = wgsl_grammar::expect(s, close, b'>')?;
    let shape = wgsl_placement::template_shape(made, template, scalar);
    let w = wgsl_placement::template_record(template, scalar);
    make_type(types, room, made, shape, w, End { at, close })
}

// A vector, matrix or atomic from its scalar on, whose end is given.
fn template_of(
    s: &[u8],
    types: &mut [u32],
    room: u32,
    made: u32,
    template: Template,
    scalar: Scalar,
    end: End,
) -> Result<Closed, Unclosed>
    requires { Room room made types.old }
    ensures { TypeRead s.now room made types.old types.new
        (template_of room (records_in type_words types.old made) template (some scalar) (from s.now end.at)) result }
{
    let inner = make_scalar(types, room, made, scalar, end).map_err(refused_inside)?;
    close_template(s, types, room, inner.made, template, scalar, inner.end.at)
}

// A vector, matrix or atomic after its `<`.
#[tactic(auto, unfolding(crate::specs::Types::template_type))]
fn template_type(
    s: &[u8],
    types: &mut [u32],
    room: u32,
    left: u32,
    made: u32,
    template: Template,
    at: usize,
) -> Result<Closed, Unclosed>
    requires { Room room made types.old }
    ensures { TypeRead s.now room made types.old types.new (template_type room left (records_in type_words types.old made) template (from s.now at)) result }
{
    if left == 0 {
        return Err(Refusal::of(Problem::TooDeep, at).into());
    }
    let name = wgsl_grammar::name_at(s, at)?;
    let Some(TypeName::OfScalar(scalar)) = wgsl_names::predeclared(name.bytes(s)) else {
        return Err(Refusal::of(Problem::NoScalar, at).into());
    };
    let end = End {
        at: name.end,
        close: at,
    };
    template_of(s, types, room, made, template, scalar, end)
}

// A count, and the `>` after it.
#[tactic(auto, unfolding(crate::specs::Types::number_count))]
fn number_count(s: &[u8], at: usize) -> Result<CountAt, Refusal>
    ensures { count_read s.now result ≡ number_count (from s.now at) }
{
    let number = wgsl_grammar::number_at(s, at)?;
    if number.value == 0 {
        return Err(Refusal::of(Problem::ZeroCount, at));
    }
    let close = wgsl_grammar::skipping(s, number.at, b',');
    let at = wgsl_grammar::expect(s, close, b'>')?;
    Ok(CountAt {
        count: Some(number.value),
        end: End { at, close },
    })
}

// An array that ends at a `>` is runtime-sized.
fn runtime_at(end: End) -> CountAt
    ensures { result ≡ record { count = None; end = end } }
{
    CountAt { count: None, end }
}

// After the comma of an array.
#[tactic(auto, unfolding(crate::specs::Types::comma_count))]
fn comma_count(s: &[u8], at: usize) -> Result<CountAt, Refusal>
    ensures { count_read s.now result ≡ comma_count (from s.now at) }
{
    if let Ok(next) = wgsl_grammar::expect(s, at, b'>') {
        return Ok(runtime_at(End {
            at: next,
            close: at,
        }));
    }
    number_count(s, at)
}

// After the element of an array.
#[tactic(auto, unfolding(crate::specs::Types::count_of))]
fn count_at(s: &[u8], at: usize) -> Result<CountAt, Refusal>
    ensures { count_read s.now result ≡ count_of (from s.now at) }
{
    if let Ok(next) = wgsl_grammar::expect(s, at, b'>') {
        return Ok(runtime_at(End {
            at: next,
            close: at,
        }));
    }
    let next = wgsl_grammar::expect(s, at, b',')?;
    comma_count(s, next)
}

// An array's record, with its element and its count.
fn close_array(
    types: &mut [u32],
    room: u32,
    made: u32,
    element: Shape,
    count: Option<u32>,
    end: End,
) -> Result<Closed, Unclosed>
    requires { Room room made types.old }
    ensures { (s : List ℕ) → TypeRead s room made types.old types.new
        (close_array room element (records_in type_words types.old made) (record { count = count; rest = from s end.at })) result }
{
    let measure = wgsl_placement::array_measure(count, element).ok_or(Refusal::of(
        Problem::LargeArray,
        end.close,
    ))?;
    let shape = Shape {
        number: made,
        size: measure.size,
        align: element.align,
        fixed: count.is_some() & element.fixed,
    };
    let w = Words::array(element.number, count, measure.stride);
    make_type(types, room, made, shape, w, end)
}

// The end of an array, after its element.
#[tactic(auto, unfolding(crate::specs::Types::array_of))]
fn array_of(
    s: &[u8],
    types: &mut [u32],
    room: u32,
    made: u32,
    element: Shape,
    at: usize,
) -> Result<Closed, Unclosed>
    requires { Room room made types.old }
    ensures { TypeRead s.now room made types.old types.new (array_of room element (records_in type_words types.old made) (from s.now at)) result }
{
    let counted = count_at(s, at)?;
    close_array(types, room, made, element, counted.count, counted.end)
}

// A type, with so many levels left, this one too.
#[cycle(read_arguments_read_type)]
pub fn read_type(
    s: &[u8],
    structs: &[NamedShape],
    types: &mut [u32],
    room: u32,
    made: u32,
    at: usize,
    left: u32,
) -> Result<Closed, Unclosed>
    requires { Room room made types.old }
    ensures { TypeRead s.now room made types.old types.new
        (type_of room left (structs_in s.now structs.now) (records_in type_words types.old made) (from s.now at)) result }
{
    if left == 0 {
        return Err(Refusal::of(Problem::TooDeep, at).into());
    }
    let inner = left - 1;
    match open_type(s, structs, at)? {
        Opened::Scalar { scalar, end } => make_scalar(types, room, made, scalar, end),
        Opened::Struct { shape, end } => Ok(Closed { shape, made, end }),
        Opened::Template { template, at } => template_type(
            s, types, room, inner, made, template, at,
        ),
        Opened::Array(at) => read_arguments(s, structs, types, room, made, at, inner),
    }
}

// The template arguments of an array, after its `<`: the element, which has so many levels left, and what follows it.
#[cycle(read_arguments_read_type)]
fn read_arguments(
    s: &[u8],
    structs: &[NamedShape],
    types: &mut [u32],
    room: u32,
    made: u32,
    at: usize,
    left: u32,
) -> Result<Closed, Unclosed>
    requires { Room room made types.old }
    ensures { TypeRead s.now room made types.old types.new
        (arguments_of room (type_of room left (structs_in s.now structs.now) (records_in type_words types.old made) (from s.now at))) result }
{
    let inner = read_type(s, structs, types, room, made, at, left).map_err(refused_inside)?;
    array_of(s, types, room, inner.made, inner.shape, inner.end.at)
}
