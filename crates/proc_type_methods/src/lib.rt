// Sizes: try_size of naga's proc/type_methods.rs.
#![tactic(auto)]

ghost use Rattle.std.specs.Prelude.{◌≡◌, ◌*◌, ◌≤◌};
ghost use Rattle.ir_records.specs.Serving.{LeafBounds, InnerBounds};
ghost use Rattle.proc_type_methods.specs.TypeMethods.{column_step, leaf_size, non_data_size, array_size, runtime_array_size, try_size};
ghost use Rattle.proc_type_methods.specs.Serving.{size_by_count, size_result};

use ir_records::{Leaf, NonData, TypeInner};

// MAX_TYPE_SIZE of naga's valid/mod.rs.
const MOST_SIZE: u32 = 2147483647;

// Kept: `width ≤ 255`: what number 2 has left of one word of a record. A u8 would say it, and be made of the word by a conversion that can fail.
pub fn vector_size(size: u32, width: u32) -> u32
    requires size_bound { size ≤ 4 }
    requires width_bound { width ≤ 255 }
    ensures { result ≡ size * width }
{
    size * width
}

/// From one column of a matrix to the next; its width is at most 255.
pub fn column_step(rows: u32, width: u32) -> u32
    requires { width ≤ 255 }
    ensures { result ≡ column_step rows width }
{
    proc_alignment::vector_alignment(rows) * width
}

// A column step for each.
pub fn matrix_size(columns: u32, rows: u32, width: u32) -> u32
    requires columns_bound { columns ≤ 4 }
    requires width_bound { width ≤ 255 }
    ensures { result ≡ column_step rows width * columns }
{
    column_step(rows, width) * columns
}

pub fn cooperative_size(columns: u32, rows: u32, width: u32) -> u32
    requires columns_bound { columns ≤ 16 }
    requires rows_bound { rows ≤ 16 }
    requires width_bound { width ≤ 255 }
    ensures { result ≡ columns * rows * width }
{
    columns * rows * width
}

// Kept: `LeafBounds leaf`, `InnerBounds inner`: a record may say any numbers, and these hold only of one that number 2 has passed.
fn leaf_size(leaf: Leaf) -> u32
    requires { LeafBounds leaf }
    ensures { result ≡ leaf_size leaf }
{
    match leaf {
        Leaf::Scalar(_, width) => width,
        Leaf::Vector(size, _, width) => vector_size(size, width),
        Leaf::Matrix(columns, rows, _, width) => matrix_size(columns, rows, width),
        Leaf::CooperativeMatrix(columns, rows, _, width, _) => cooperative_size(
            columns, rows, width,
        ),
        Leaf::Atomic(_, width) => width,
        Leaf::RayQuery(_) => 0,
    }
}

fn non_data_size(o: NonData) -> u32
    ensures { result ≡ non_data_size o }
{
    match o {
        NonData::Pointer(_, _) => 4,
        NonData::ValuePointer(_, _, _) => 4,
        NonData::Image(_, _, _) => 0,
        NonData::Sampler => 0,
        NonData::AccelerationStructure(_) => 0,
        NonData::BindingArray(_, _, _) => 0,
    }
}

fn array_size(count: u32, stride: u32) -> Option<u32>
    ensures { size_result result ≡ array_size count stride }
{
    let most = u64::from(MOST_SIZE);
    let total = u64::from(count) * u64::from(stride);
    if (MOST_SIZE < count) | (most < total) {
        return None;
    }
    Some(total as u32)
}

fn runtime_array_size(stride: u32) -> Option<u32>
    ensures { size_result result ≡ runtime_array_size stride }
{
    (stride <= MOST_SIZE).then_some(stride)
}

// Of an array of so many elements; none: a runtime array.
pub fn size_by_count(count: Option<u32>, stride: u32) -> Option<u32>
    ensures { size_result result ≡ size_by_count count stride }
{
    match count {
        Some(count) => array_size(count, stride),
        None => runtime_array_size(stride),
    }
}

// What a type measures; none is number 4.
pub fn try_size(inner: TypeInner) -> Option<u32>
    requires { InnerBounds inner }
    ensures { size_result result ≡ try_size inner }
{
    match inner {
        TypeInner::Plain(leaf) => Some(leaf_size(leaf)),
        TypeInner::Array {
            base: _,
            count,
            stride,
        } => array_size(count, stride),
        TypeInner::RuntimeArray { base: _, stride } => runtime_array_size(stride),
        TypeInner::Struct { count: _, span } => Some(span),
        TypeInner::Other(o) => Some(non_data_size(o)),
    }
}
