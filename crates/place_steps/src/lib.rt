// One step of a place: from a type to an element, a member or a column.
#![tactic(auto)]

ghost use Rattle.std.specs.Prelude.{◌≡◌, ◌*◌};
ghost use Rattle.ir_records.specs.Record.{member_type, member_offset};
ghost use Rattle.ir_records.specs.Serving.{LeafBounds, InnerBounds};
ghost use Rattle.place_steps.specs.Step.{To, step_made, step_found};
ghost use Rattle.place_steps.specs.Columns.{is_whole, column_of};
ghost use Rattle.place_steps.specs.Steps.{is_leaf, step_of};

use ir_records::{Leaf, TypeInner};

/// What one step does: the next type and the bytes added; or the bytes to a column, where the steps end.
#[derive(Clone, Copy, Debug, PartialEq, Eq)]
pub enum Step {
    To { ty: u32, bytes: u64 },
    Column { bytes: u64 },
}

// Whether a type is itself a leaf, and not its columns.
fn is_whole(leaf: Leaf) -> bool
    ensures { result ≡ is_whole leaf }
{
    !matches!(leaf, Leaf::Matrix(_, _, _, _))
}

pub fn is_leaf(inner: TypeInner) -> bool
    ensures { result ≡ is_leaf inner }
{
    match inner {
        TypeInner::Plain(leaf) => is_whole(leaf),
        _ => false,
    }
}

// Element `step` of an array.
fn element(base: u32, stride: u32, step: u32) -> Step
    ensures { step_made result ≡ To base (step * stride) }
{
    let bytes = u64::from(step) * u64::from(stride);
    Step::To { ty: base, bytes }
}

// Column `step` of a matrix; what is none has no columns.
// Kept: `LeafBounds leaf`, `InnerBounds inner`: they hold only of a record that number 2 has passed, as in `place_short_layout`.
fn column(leaf: Leaf, step: u32) -> Option<Step>
    requires { LeafBounds leaf }
    ensures { step_found result ≡ column_of leaf step }
{
    let Leaf::Matrix(columns, rows, _, width) = leaf else {
        return None;
    };
    let apart = proc_type_methods::column_step(rows, width);
    let bytes = u64::from(step) * u64::from(apart);
    (step < columns).then_some(Step::Column { bytes })
}

// The member at place `step` of a struct whose member rows are in part.
fn member(part: &[u32], step: u32) -> Step
    ensures { step_made result ≡ To (member_type part.now step) (member_offset part.now step) }
{
    Step::To {
        ty: ir_records::member_type(part, step),
        bytes: u64::from(ir_records::member_offset(part, step)),
    }
}

// One step from a type whose member rows are in part. It asks for the bounds that number 2 leaves, so that a column step fits 32 bits.
#[tactic(auto, unfolding(crate::specs::Steps::step_of))]
pub fn step_of(inner: TypeInner, part: &[u32], step: u32) -> Option<Step>
    requires { InnerBounds inner }
    ensures { step_found result ≡ step_of inner part.now step }
{
    match inner {
        TypeInner::Plain(leaf) => column(leaf, step),
        TypeInner::Array {
            base,
            count,
            stride,
        } => (step < count).then_some(element(base, stride, step)),
        TypeInner::RuntimeArray { base, stride } => Some(element(base, stride, step)),
        TypeInner::Struct { count, span: _ } => (step < count).then_some(member(part, step)),
        TypeInner::Other(_) => None,
    }
}
