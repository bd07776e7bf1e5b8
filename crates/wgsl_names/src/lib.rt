// The names that WGSL has: its keywords, and the types that are declared before any text.
#![tactic(auto)]

ghost use Rattle.std.specs.Prelude.{◌≡◌, ◌≤◌};
ghost use Rattle.ir_records.specs.Kinds.{scalar_number};
ghost use Rattle.wgsl_names.specs.Names.{same, first_keyword, middle_keyword, last_keyword, is_keyword, predeclared, kind_of, width_of, bytes_of, number_of};

use ir_records::ScalarKind;

#[derive(Clone, Copy, Debug, PartialEq, Eq)]
pub enum Scalar {
    Bool,
    I32,
    U32,
    F32,
    F16,
}

// Of a vector, and of a matrix's columns and rows.
#[derive(Clone, Copy, Debug, PartialEq, Eq)]
pub enum Dimension {
    Two = 2,
    Three = 3,
    Four = 4,
}

impl From<Dimension> for u32 {
    ghost from_gives = { λ dimension result. (result ≡ number_of dimension) × (result ≤ 4) };

    fn from(dimension: Dimension) -> u32 {
        dimension as u32
    }
}

// The templates over a scalar.
#[derive(Clone, Copy, Debug, PartialEq, Eq)]
pub enum Template {
    Vector(Dimension),
    Matrix(Dimension, Dimension),
    Atomic,
}

// What a predeclared name stands for.
#[derive(Clone, Copy, Debug, PartialEq, Eq)]
pub enum TypeName {
    OfScalar(Scalar),
    OfTemplate(Template),
    Array,
}

// Whether two words have the same bytes.
// Kept: no `==`, which goes through a word from its start: names of a program differ at their end. From both ends at once, two words that differ near
// either end are told apart there. Half the length is enough.
pub fn same(a: &[u8], b: &[u8]) -> bool
    ensures { result ≡ same a.now b.now }
{
    let n = a.len();
    n == b.len() && (0..n - n / 2).all(|i| a[n - 1 - i] == b[n - 1 - i] && a[i] == b[i])
}

#[tactic(auto, unfolding(crate::specs::Names::same, crate::specs::Names::is_keyword, crate::specs::Names::first_keyword, crate::specs::Names::middle_keyword, crate::specs::Names::last_keyword))]
pub fn is_keyword(w: &[u8]) -> bool
    ensures { result ≡ is_keyword w.now }
{
    matches!(
        w,
        b"alias"
            | b"break"
            | b"case"
            | b"const"
            | b"const_assert"
            | b"continue"
            | b"continuing"
            | b"default"
            | b"diagnostic"
            | b"discard"
            | b"else"
            | b"enable"
            | b"false"
            | b"fn"
            | b"for"
            | b"if"
            | b"let"
            | b"loop"
            | b"override"
            | b"requires"
            | b"return"
            | b"struct"
            | b"switch"
            | b"true"
            | b"var"
            | b"while"
    )
}

// The type that a name stands for before any struct is declared; none where it is to be declared. matCxR has C columns and R rows.
#[tactic(auto, unfolding(crate::specs::Names::same, crate::specs::Names::predeclared, crate::specs::Names::vector_named, crate::specs::Names::matrix_named))]
pub fn predeclared(w: &[u8]) -> Option<TypeName>
    ensures { result ≡ predeclared w.now }
{
    let name = match w {
        b"bool" => TypeName::OfScalar(Scalar::Bool),
        b"i32" => TypeName::OfScalar(Scalar::I32),
        b"u32" => TypeName::OfScalar(Scalar::U32),
        b"f32" => TypeName::OfScalar(Scalar::F32),
        b"f16" => TypeName::OfScalar(Scalar::F16),
        b"atomic" => TypeName::OfTemplate(Template::Atomic),
        b"array" => TypeName::Array,
        b"vec2" => TypeName::OfTemplate(Template::Vector(Dimension::Two)),
        b"vec3" => TypeName::OfTemplate(Template::Vector(Dimension::Three)),
        b"vec4" => TypeName::OfTemplate(Template::Vector(Dimension::Four)),
        b"mat2x2" => TypeName::OfTemplate(Template::Matrix(Dimension::Two, Dimension::Two)),
        b"mat2x3" => TypeName::OfTemplate(Template::Matrix(Dimension::Two, Dimension::Three)),
        b"mat2x4" => TypeName::OfTemplate(Template::Matrix(Dimension::Two, Dimension::Four)),
        b"mat3x2" => TypeName::OfTemplate(Template::Matrix(Dimension::Three, Dimension::Two)),
        b"mat3x3" => TypeName::OfTemplate(Template::Matrix(Dimension::Three, Dimension::Three)),
        b"mat3x4" => TypeName::OfTemplate(Template::Matrix(Dimension::Three, Dimension::Four)),
        b"mat4x2" => TypeName::OfTemplate(Template::Matrix(Dimension::Four, Dimension::Two)),
        b"mat4x3" => TypeName::OfTemplate(Template::Matrix(Dimension::Four, Dimension::Three)),
        b"mat4x4" => TypeName::OfTemplate(Template::Matrix(Dimension::Four, Dimension::Four)),
        _ => return None,
    };
    Some(name)
}

impl From<Scalar> for ScalarKind {
    ghost from_gives = { λ scalar result. scalar_number result ≡ kind_of scalar };

    fn from(scalar: Scalar) -> ScalarKind {
        match scalar {
            Scalar::Bool => ScalarKind::Bool,
            Scalar::I32 => ScalarKind::Sint,
            Scalar::U32 => ScalarKind::Uint,
            Scalar::F32 | Scalar::F16 => ScalarKind::Float,
        }
    }
}

// A bool's leaf is one byte.
// Kept: `bytes_of` is alike in form alone: one says what a record has, the other what the standard's placement takes.
pub fn width_of(scalar: Scalar) -> u32
    ensures { result ≡ width_of scalar }
{
    match scalar {
        Scalar::Bool => 1,
        Scalar::I32 | Scalar::U32 | Scalar::F32 => 4,
        Scalar::F16 => 2,
    }
}

// The bytes that a scalar takes in the standard's placement, and its alignment there.
pub fn bytes_of(scalar: Scalar) -> u32
    ensures { (result ≡ bytes_of scalar) × (result ≤ 4) }
{
    match scalar {
        Scalar::Bool | Scalar::I32 | Scalar::U32 | Scalar::F32 => 4,
        Scalar::F16 => 2,
    }
}
