// The standard's placement of types: sizes, alignments and strides. Sums are wider than 32 bits, so that none wraps.
#![tactic(auto)]

ghost use Rattle.std.specs.Prelude.{◌≡◌, true, ◌≤◌, ◌+◌, ◌*◌};
ghost use Rattle.ir_records.specs.Kinds.{kind_number};
ghost use Rattle.proc_alignment.specs.Alignment.{round_up};
ghost use Rattle.wgsl_names.specs.Names.{bytes_of, number_of};
ghost use Rattle.wgsl_placement.specs.Placement.{shape, align_of_vector, size_of_vector, align_of_template, size_of_template, scalar_record, template_record};
ghost use Rattle.wgsl_placement.specs.Serving.{Measured};

use ir_records::{Kind, ScalarKind, Words};
use wgsl_names::{Dimension, Scalar, Template};

// A type that has closed: its record's number, SizeOf, AlignOf, and whether its footprint is creation-fixed.
#[derive(Clone, Copy, Debug, PartialEq, Eq)]
pub struct Shape {
    pub number: u32,
    pub size: u32,
    pub align: u32,
    pub fixed: bool,
}

// SizeOf and StrideOf of an array.
#[derive(Clone, Copy, Debug, PartialEq, Eq)]
pub struct Measure {
    pub size: u32,
    pub stride: u32,
}

fn align_of_vector(n: Dimension, scalar: Scalar) -> u32
    ensures { (result ≡ align_of_vector n scalar) × (result ≤ 16) }
{
    proc_alignment::vector_alignment(u32::from(n)) * wgsl_names::bytes_of(scalar)
}

// Kept: here and below a template and its scalar are two parameters, as in the definitions: a text has the scalar after the `<` of its template, so wgsl_types
// would make a struct of both for these calls, and each of them would take it apart.
fn align_of_template(template: Template, scalar: Scalar) -> u32
    ensures { result ≡ align_of_template template scalar }
{
    match template {
        Template::Vector(n) => align_of_vector(n, scalar),
        Template::Matrix(_, rows) => align_of_vector(rows, scalar),
        Template::Atomic => wgsl_names::bytes_of(scalar),
    }
}

fn size_of_vector(n: Dimension, scalar: Scalar) -> u32
    ensures { (result ≡ size_of_vector n scalar) × (result ≤ 16) }
{
    u32::from(n) * wgsl_names::bytes_of(scalar)
}

// SizeOf(array<vecR, C>).
fn size_of_matrix(columns: Dimension, rows: Dimension, scalar: Scalar) -> u32
    ensures { result ≡ number_of columns * round_up (align_of_vector rows scalar) (size_of_vector rows scalar) }
{
    let align = align_of_vector(rows, scalar);
    let column = size_of_vector(rows, scalar);
    let step = proc_alignment::round_up(align, column) as u32;
    u32::from(columns) * step
}

fn size_of_template(template: Template, scalar: Scalar) -> u32
    ensures { result ≡ size_of_template template scalar }
{
    match template {
        Template::Vector(n) => size_of_vector(n, scalar),
        Template::Matrix(columns, rows) => size_of_matrix(columns, rows, scalar),
        Template::Atomic => wgsl_names::bytes_of(scalar),
    }
}

// A vector, matrix or atomic of a scalar.
pub fn template_shape(number: u32, template: Template, scalar: Scalar) -> Shape
    ensures { result ≡ shape number (size_of_template template scalar) (align_of_template template scalar) true }
{
    Shape {
        number,
        size: size_of_template(template, scalar),
        align: align_of_template(template, scalar),
        fixed: true,
    }
}

pub fn template_record(template: Template, scalar: Scalar) -> Words
    ensures { result ≡ template_record template scalar }
{
    let kind = ScalarKind::from(scalar) as u32;
    let width = wgsl_names::width_of(scalar);
    match template {
        Template::Vector(n) => Words::of(Kind::Vector as u32, u32::from(n), kind, width, 0),
        Template::Matrix(columns, rows) => Words::of(
            Kind::Matrix as u32,
            u32::from(columns),
            u32::from(rows),
            kind,
            width,
        ),
        Template::Atomic => Words::of(Kind::Atomic as u32, kind, width, 0, 0),
    }
}

pub fn scalar_shape(number: u32, scalar: Scalar) -> Shape
    ensures { result ≡ shape number (bytes_of scalar) (bytes_of scalar) true }
{
    let bytes = wgsl_names::bytes_of(scalar);
    Shape {
        number,
        size: bytes,
        align: bytes,
        fixed: true,
    }
}

pub fn scalar_record(scalar: Scalar) -> Words
    ensures { result ≡ scalar_record scalar }
{
    let kind = ScalarKind::from(scalar) as u32;
    let width = wgsl_names::width_of(scalar);
    Words::of(Kind::Scalar as u32, kind, width, 0, 0)
}

/// StrideOf, and N of them; nothing where they leave 32 bits. No count: a runtime-sized array, which measures one element.
pub fn array_measure(count: Option<u32>, e: Shape) -> Option<Measure>
    ensures { Measured count e result }
{
    let stride = u32::try_from(proc_alignment::round_up(e.align, e.size)).ok()?;
    let size = count.unwrap_or(1).checked_mul(stride)?;
    Some(Measure { size, stride })
}
