// The dimensions of a member as C and Rust have them, outermost first.
#![tactic(auto)]

ghost use Rattle.std.specs.Prelude.{◌≡◌, ◌+◌, ◌<◌, ◌≤◌, [], ◌∷◌, length, take, None, MatchOption};
ghost use Rattle.ir_records.specs.Record.{type_word, type_inner};
ghost use Rattle.ir_records.specs.declared.TypeInner.TheVariants.{Plain};
ghost use Rattle.sheet_dimensions.specs.Scalars.{LeafScalar};
ghost use Rattle.sheet_dimensions.specs.Shapes.{divided, fitting, scalar_extents, vector_extents, leaf_shape, shape_of};
ghost use Rattle.sheet_dimensions.specs.Extents.{Extends, Grows, GrowsByMatrix, EntersArray, ShapeIs, LeftIs, struct_left, base_left};

use ir_records::{Leaf, TypeInner};
use sheet_names::Type;
use sheet_types::Scalar;

/// What is said after the name of a struct that has no form for a host.
pub const NO_FORM: &[u8] =
    b" has no form here: it is not host-shareable, or its storage verdict is not ok.";

/// What stands inside all dimensions.
#[derive(Clone, Copy, Debug, PartialEq, Eq)]
pub enum Base<'a> {
    Scalar(Scalar),
    Struct(Type<'a>),
}

// One for each array that is passed, and the two of a matrix.
const MOST_DIMENSIONS: usize = sheet_types::MOST_DEPTH as usize + 2;

// How many elements each dimension has, where their number is fixed; outermost first.
// Kept: an array with its count, since there is no heap for a Vec.
#[derive(Clone, Copy, Debug, PartialEq, Eq)]
struct Extents {
    list: [Option<u64>; MOST_DIMENSIONS],
    count: usize,
}

impl Extents {
    // One dimension more, where there is room for it.
    fn with(mut self, n: Option<u64>) -> Option<Extents>
        ensures { MatchOption result (length self.list ≤ self.count) (Extends self (n ∷ [])) }
    {
        let at = self.count;
        if at < self.list.len() {
            self.list[at] = n;
            self.count = at + 1;
            return Some(self);
        }
        None
    }

    // The dimensions that there are.
    fn in_use(&self) -> &[Option<u64>]
        ensures { result.now ≡ take self.now.count self.now.list }
    {
        self.list.get(..self.count).unwrap_or(&self.list)
    }
}

/// Dimensions over a base, outermost first: how many elements there are, where their number is fixed.
#[derive(Clone, Copy, Debug, PartialEq, Eq)]
pub struct Dimensions<'a> {
    extents: Extents,
    pub base: Base<'a>,
}

impl<'a> Dimensions<'a> {
    /// The dimensions that there are, outermost first.
    pub fn as_slice(&self) -> &[Option<u64>]
        ensures { result.now ≡ take self.now.extents.count self.now.extents.list }
    {
        self.extents.in_use()
    }
}

// The type inside the arrays that were passed, the dimensions over it, and how far apart its elements lie where it stands in an array.
#[derive(Clone, Copy, Debug, PartialEq, Eq)]
struct Within<'a> {
    t: Type<'a>,
    step: Option<u64>,
    extents: Extents,
}

// How often a unit goes into a step, where it goes evenly.
fn divided(step: u64, unit: u64) -> Option<u64>
    ensures { result ≡ divided step unit }
{
    if step.checked_rem(unit)? == 0 {
        step.checked_div(unit)
    } else {
        None
    }
}

// The scalars of a leaf; none for what C and Rust have no scalars for.
pub fn scalar_in(leaf: Leaf) -> Option<Scalar>
    ensures { LeafScalar leaf result }
{
    match leaf {
        Leaf::Scalar(kind, width) => Scalar::of(kind, width),
        Leaf::Vector(_, kind, width) => Scalar::of(kind, width),
        Leaf::Matrix(_, _, kind, width) => Scalar::of(kind, width),
        Leaf::Atomic(kind, width) => Scalar::of(kind, width),
        Leaf::CooperativeMatrix(_, _, _, _, _) | Leaf::RayQuery(_) => None,
    }
}

// Kept: `self.extents.count < length self.extents.list` and `self.extents.count + 2 ≤ length self.extents.list`, at each that adds dimensions: the room
// grows less with each dimension, so that no fact of the type says it.
impl<'a> Within<'a> {
    fn new(t: Type<'a>) -> Within<'a>
        ensures t { result.t ≡ t.entry }
        ensures step { result.step ≡ None }
        ensures none { result.extents.count ≡ 0 }
        ensures room { length result.extents.list ≡ 34 }
    {
        Within {
            t,
            step: None,
            extents: Extents {
                list: [None; MOST_DIMENSIONS],
                count: 0,
            },
        }
    }

    // One dimension more, where there is room for it.
    fn with(self, n: Option<u64>) -> Option<Within<'a>>
        requires room { self.extents.count < length self.extents.list }
        ensures { MatchOption result ⊥ (λ w. (w.t ≡ self.entry.t) × (w.step ≡ self.entry.step) × Extends self.entry.extents (n ∷ []) w.extents) }
    {
        Some(Within {
            extents: self.extents.with(n)?,
            ..self
        })
    }

    // The dimensions over a base.
    fn over(self, base: Base<'a>) -> Dimensions<'a>
        ensures extents { result.extents ≡ self.entry.extents }
        ensures base { result.base ≡ base.entry }
    {
        Dimensions {
            extents: self.extents,
            base,
        }
    }

    // So many parts by itself; in an array as many as go into a step.
    fn of_step(self, parts: u32, bytes: u64) -> Option<u64>
        ensures { result ≡ fitting self.entry.step parts bytes }
    {
        match self.step {
            Some(step) => divided(step, bytes),
            None => Some(u64::from(parts)),
        }
    }

    // A matrix by itself: its columns, and the scalars of a column step. In an array, a step apart: the columns of a step.
    fn of_matrix(self, columns: u32, width: u64) -> Option<Within<'a>>
        requires room { self.extents.count + 2 ≤ length self.extents.list }
        ensures { GrowsByMatrix self.entry columns width result }
    {
        let column = sheet_types::column_step(self.t)?;
        let columns = self.of_step(columns, column)?;
        self.with(Some(columns))?
            .with(Some(divided(column, width)?))
    }

    fn of_vector(self, size: u32, width: u64) -> Option<Within<'a>>
        requires room { self.extents.count < length self.extents.list }
        ensures { Grows self.entry (vector_extents self.entry.step size width) result }
    {
        self.with(Some(self.of_step(size, width)?))
    }

    fn of_scalar(self, width: u64) -> Option<Within<'a>>
        requires room { self.extents.count < length self.extents.list }
        ensures { Grows self.entry (scalar_extents self.entry.step width) result }
    {
        match self.step {
            Some(step) if step != width => self.with(Some(divided(step, width)?)),
            _ => Some(self),
        }
    }

    fn of_leaf(self, leaf: Leaf) -> Option<Dimensions<'a>>
        requires room { self.extents.count + 2 ≤ length self.extents.list }
        requires plain { type_inner self.t.sheet.types.now self.t.i ≡ Plain leaf }
        ensures { LeftIs self.entry (leaf_shape self.entry.step leaf) result }
    {
        let scalar = scalar_in(leaf)?;
        let width = u64::from(scalar.width);
        let within = match leaf {
            Leaf::Vector(size, _, _) => self.of_vector(size, width)?,
            Leaf::Matrix(columns, _, _, _) => self.of_matrix(columns, width)?,
            _ => self.of_scalar(width)?,
        };
        Some(within.over(Base::Scalar(scalar)))
    }

    // A struct is as long as a step.
    fn of_struct(self) -> Option<Dimensions<'a>>
        ensures { LeftIs self.entry (struct_left self.entry) result }
    {
        let size = u64::from(self.t.size());
        self.step
            .is_none_or(|step| step == size)
            .then_some(self.over(Base::Struct(self.t)))
    }

    // The dimensions over the type inside all arrays.
    fn of_base(self) -> Option<Dimensions<'a>>
        requires room { self.extents.count + 2 ≤ length self.extents.list }
        ensures { LeftIs self.entry (base_left self.entry) result }
    {
        match self.t.inner() {
            TypeInner::Plain(leaf) => self.of_leaf(leaf),
            TypeInner::Struct { .. } => self.of_struct(),
            _ => None,
        }
    }

    // One array less. Its dimension is its count, where it has one; inside another, as many of its steps as the outer one has.
    fn of_element(self, element: Type<'a>) -> Option<Within<'a>>
        requires room { self.extents.count < length self.extents.list }
        ensures { EntersArray self.entry element.entry (type_word self.entry.t.sheet.types.now self.entry.t.i 4) result }
    {
        let stride = u64::from(self.t.stride());
        if stride == 0 {
            return None;
        }
        let n = match (self.step, self.t.inner()) {
            (Some(step), _) => Some(divided(step, stride)?),
            (None, TypeInner::Array { count, .. }) => Some(u64::from(count)),
            _ => None,
        };
        Some(Within {
            t: element,
            step: Some(stride),
            ..self.with(n)?
        })
    }
}

/// The dimensions of a type; none where they do not keep the steps, so that a member of the type is bytes.
// Kept: a loop, as in `inside` of sheet_types: `try_fold` would take a ControlFlow of either, and its contract a law of its steps for one invariant.
pub fn of_type<'a>(t: Type<'a>) -> Option<Dimensions<'a>>
    ensures { ShapeIs t.entry.sheet (shape_of t.entry.sheet.types.now t.entry.sheet.rows.now t.entry.i) result }
{
    let mut within = Within::new(t);
    for _ in 0..sheet_types::MOST_DEPTH {
        match within.t.element() {
            Some(element) => within = within.of_element(element)?,
            None => return within.of_base(),
        }
    }
    None
}
