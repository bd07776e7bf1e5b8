// Which member a byte of a struct belongs to, and whether a leaf holds it.
#![tactic(auto)]

ghost use Rattle.std.specs.Prelude.{◌≡◌, ◌*◌};
ghost use Rattle.ir_records.specs.Record.{type_word, type_inner, struct_members};
ghost use Rattle.sheet_types.specs.Types.{inner_step as columns_of};
ghost use Rattle.sheet_bytes.specs.Holder.{holds, holder_of};
ghost use Rattle.sheet_bytes.specs.Leaf.{in_members, element_step, in_columns, step_of, in_leaf, StepIs};

use ir_records::Kind;
use sheet_names::Type;
use std::ops::ControlFlow;

// A byte of a type.
#[derive(Clone, Copy, Debug, PartialEq, Eq)]
struct Byte<'a> {
    of: Type<'a>,
    at: u64,
}

// Whether member j of a struct with these member rows holds a byte of it.
fn holds(part: &[u32], rows: &[u32], j: u32, byte: u64) -> bool
    ensures { result ≡ holds part.now rows.now j byte }
{
    let offset = u64::from(ir_records::member_offset(part, j));
    let ty = ir_records::member_type(part, j);
    let size = u64::from(ir_rows::row_word(rows, ty, ir_rows::SIZE as u32));
    (offset..offset + size).contains(&byte)
}

// The first of so many members that holds a byte. The member rows are lent to it: a search asks for them once, and not for each member that it tries.
fn holder_in(part: &[u32], rows: &[u32], count: u32, byte: u64) -> Option<u32>
    ensures { result ≡ holder_of part.now rows.now count byte }
{
    (0..count).find(|j| holds(part, rows, *j, byte))
}

/// The member of a struct that holds a byte, where one does.
pub fn holder(t: Type, byte: u64) -> Option<u32>
    ensures { result ≡ holder_of (struct_members t.entry.sheet.types.now t.entry.sheet.members.now t.entry.i) t.entry.sheet.rows.now
        (type_word t.entry.sheet.types.now t.entry.i 2) byte }
{
    let part = ir_records::struct_members(t.sheet.types, t.sheet.members, t.i);
    holder_in(part, t.sheet.rows, t.count(), byte)
}

impl<'a> Byte<'a> {
    // The byte as one of the member that holds it.
    fn in_struct(self) -> ControlFlow<bool, Byte<'a>>
        ensures { StepIs self.entry.of.sheet (in_members self.entry.of.sheet self.entry.of.i self.entry.at) result }
    {
        let sheet = self.of.sheet;
        let part = ir_records::struct_members(sheet.types, sheet.members, self.of.i);
        match holder_in(part, sheet.rows, self.of.count(), self.at) {
            Some(j) => {
                let offset = u64::from(ir_records::member_offset(part, j));
                ControlFlow::Continue(Byte {
                    of: self.of.other(ir_records::member_type(part, j)),
                    at: sheet_output::gap(offset, self.at),
                })
            }
            None => ControlFlow::Break(false),
        }
    }

    // The byte as one of an element.
    fn in_array(self, base: u32, stride: u32) -> ControlFlow<bool, Byte<'a>>
        ensures { StepIs self.entry.of.sheet (element_step base stride self.entry.at) result }
    {
        match self.at.checked_rem(u64::from(stride)) {
            Some(at) => ControlFlow::Continue(Byte {
                of: self.of.other(base),
                at,
            }),
            None => ControlFlow::Break(false),
        }
    }

    // Whether it is one of a column of a matrix, and not after it.
    fn is_in_column(self, rows: u32, width: u32) -> bool
        ensures { result ≡ in_columns (columns_of (type_inner self.entry.of.sheet.types.now self.entry.of.i)) (rows * width) self.entry.at }
    {
        let column = u64::from(rows) * u64::from(width);
        sheet_types::column_step(self.of)
            .and_then(|step| self.at.checked_rem(step))
            .is_some_and(|byte| byte < column)
    }

    // One step towards the byte: to a part of the type, or at the end of the way whether a leaf holds it.
    // It asks for the kind and then for the words that it needs: a picture takes many steps, and the whole record would be read at each.
    fn step(self) -> ControlFlow<bool, Byte<'a>>
        ensures { StepIs self.entry.of.sheet (step_of self.entry.of.sheet self.entry.of.i self.entry.at) result }
    {
        if self.of.is_struct() {
            return self.in_struct();
        }
        if self.of.is_array() {
            return self.in_array(self.of.word(1), self.of.stride());
        }
        if ir_records::is_of_kind(self.of.sheet.types, self.of.i, Kind::Matrix) {
            return ControlFlow::Break(self.is_in_column(self.of.word(2), self.of.word(4)));
        }
        ControlFlow::Break(self.at < u64::from(self.of.size()))
    }
}

/// Whether a leaf of a type holds a byte of it.
pub fn in_leaf(t: Type, byte: u64) -> bool
    ensures { result ≡ in_leaf t.entry.sheet t.entry.i byte }
{
    let start = Byte { of: t, at: byte };
    // A type stands in later ones alone, so a way has fewer steps than there are types.
    (0..sheet_names::MOST_TYPES)
        .try_fold(start, |byte, _| byte.step())
        .break_value()
        .unwrap_or(false)
}
