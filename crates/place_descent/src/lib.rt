// The descent from a type along steps to the byte place of a leaf.
#![tactic(auto)]

ghost use Rattle.std.specs.Prelude.{◌≡◌};
ghost use Rattle.ir_records.specs.Record.{type_count, type_inner, decoded};
ghost use Rattle.ir_records.specs.Serving.{InnerBounds};
ghost use Rattle.place_steps.specs.Step.{step_found};
ghost use Rattle.place_steps.specs.Steps.{is_leaf};
ghost use Rattle.place_descent.specs.Place.{step_in, place_of, found_place};
ghost use Rattle.place_descent.specs.Serving.{Descends};

use place_steps::Step;

/// The byte place of a leaf and its type; of a column, the matrix's type.
#[derive(Clone, Copy, Debug, Default, PartialEq, Eq)]
pub struct Place {
    pub byte: u64,
    pub leaf: u32,
}

// One step from type ty.
fn step_at(types: &[u32], members: &[u32], ty: u32, step: u32) -> Option<Step>
    requires { InnerBounds (type_inner types.now ty) }
    ensures { step_found result ≡ step_in (decoded types.now members.now) ty step }
{
    let inner = ir_records::type_inner(types, ty);
    let part = ir_records::struct_members(types, members, ty);
    place_steps::step_of(inner, part, step)
}

fn is_leaf_at(types: &[u32], ty: u32) -> bool
    ensures { result ≡ is_leaf (type_inner types.now ty) }
{
    place_steps::is_leaf(ir_records::type_inner(types, ty))
}

// The place that steps lead to. It asks that steps from a type of the arena add less than 2 ^ 64 bytes in all, as they do in an accepted arena.
pub fn place_of(types: &[u32], members: &[u32], start: u32, steps: &[u32]) -> Option<Place>
    requires { Descends (decoded types.now members.now) (type_count types.now) }
    ensures { found_place result ≡ place_of types.now members.now start steps.now }
{
    if ir_records::type_count(types) <= start as usize {
        return None;
    }
    let mut ty = start;
    let mut byte: u64 = 0;
    for (i, step) in steps.iter().enumerate() {
        match step_at(types, members, ty, *step)? {
            Step::To { ty: next, bytes } => {
                ty = next;
                byte += bytes;
            }
            Step::Column { bytes } => {
                // At a column the steps must end.
                if i + 1 < steps.len() {
                    return None;
                }
                return Some(Place {
                    byte: byte + bytes,
                    leaf: ty,
                });
            }
        }
    }
    is_leaf_at(types, ty).then_some(Place { byte, leaf: ty })
}
