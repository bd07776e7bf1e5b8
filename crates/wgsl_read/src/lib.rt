// The records of a WGSL text, in the caller's tables.
#![tactic(auto)]

ghost use Rattle.std.specs.Prelude.{◌≡◌, ◌+◌, ◌/◌, min, length};
ghost use Rattle.ir_records.specs.Record.{type_words, member_words};
ghost use Rattle.ir_records.specs.Fields.{most_types, most_members};
ghost use Rattle.wgsl_read.specs.TextAnswer.{text_answer_of};
ghost use Rattle.wgsl_read.specs.Text.{text_of, answer_of, types_left, members_left, numbered_by, Filled};

use ir_records::{Fault, MOST_MEMBERS, MOST_TYPES, Records};
use program_words::Span;
use wgsl_grammar::Refusal;
use wgsl_placement::Shape;
use wgsl_structs::State;
use wgsl_tables::NamedShape;

const NO_NAME: Span = Span { start: 0, end: 0 };

const NO_STRUCT: NamedShape = NamedShape {
    name: NO_NAME,
    shape: Shape {
        number: 0,
        size: 0,
        align: 0,
        fixed: false,
    },
};

// Reads the declarations, with the names and the shapes of the structs and the names of a struct's members in arrays of its own.
fn fill(text: &[u8], types: &mut [u32], members: &mut [u32]) -> Result<State, Refusal>
    ensures { Filled text.now types.old types.new members.old members.new result }
{
    let room = wgsl_tables::room_in(types, members);
    let mut structs = [NO_STRUCT; MOST_TYPES];
    let mut names = [NO_NAME; MOST_MEMBERS];
    wgsl_structs::read_declarations(text, &mut structs, &mut names, types, members, room)
}

/// Reads a text, with the position and the reason of a refusal.
// Kept: the two lent tables are two parameters, as the exported call has them.
pub fn read_at(text: &[u8], types: &mut [u32], members: &mut [u32]) -> Result<Records, Refusal>
    ensures result_value { numbered_by result ≡ answer_of (text_of (length types.old) (length members.old) text.now) }
    ensures types_after { types.new ≡ types_left (text_of (length types.old) (length members.old) text.now) types.old }
    ensures members_after { members.new ≡ members_left (text_of (length types.old) (length members.old) text.now) members.old }
{
    match fill(text, types, members) {
        Ok(state) => Ok(state.made),
        Err(refusal) => {
            wgsl_tables::clear_both(types, members);
            Err(refusal)
        }
    }
}

/// Reads struct and empty declarations into records. A refusal has 1, 31, 32 or 33, and zeroes every word of both tables.
pub fn read(text: &[u8], types: &mut [u32], members: &mut [u32]) -> Result<Records, Fault>
    ensures value { text_answer_of result ≡ answer_of (text_of (length types.old) (length members.old) text.now) }
    ensures types_after { types.new ≡ types_left (text_of (length types.old) (length members.old) text.now) types.old }
    ensures members_after { members.new ≡ members_left (text_of (length types.old) (length members.old) text.now) members.old }
{
    read_at(text, types, members).map_err(|refusal| refusal.fault)
}
