// The reader of WGSL text through `doors`, over which doors_c is the static library: answers and lent buffers. `stdout` is written by hand from the
// sentences below.
// embed/wuldazin.h: "counts: two words, how many type records and how many member records there are; zeros on a refusal, left as they were
// where there are fewer than two. The records stand at the start of the tables, and the words behind them are left. .. a refusal zeroes every
// word of both tables." Buffers that are lent in part are printed whole.
#![tactic(auto)]

ghost use Rattle.std.specs.Prelude.{◌≤◌};

use doors_lent::Room;

// M1 of 01 as text. The f32 of the vector is a type written, so there are four types, and two members.
const M1: [u8; 33] = *b"struct S { v: vec3<f32>, e: f32 }";

// Room for four types and two members, and two words more of each.
const WHOLE: Room = Room {
    types: 26,
    members: 10,
    counts: 3,
    answer: 5,
};

fn read_within(name: &[u8], text: &[u8], room: Room)
    requires { (room.types ≤ 26) × (room.members ≤ 10) × (room.counts ≤ 3) × (room.answer ≤ 5) }
{
    doors_lent::read::<26, _>(name, b"counts", room, |types, members, counts, answer| {
        doors::wuldazin_read_wgsl(text, types, members, counts, answer)
    });
}

fn read(name: &[u8], text: &[u8]) {
    read_within(name, text, WHOLE);
}

// The refusals stand after records that are made.
fn whole() {
    read(b"M1", &M1);
    read(b"no text", b"");
    read(b"a bracket", b"struct S { v: vec3<f32>, e: f32 ]");
    read(b"the struct in itself", b"struct S { v: vec3<f32>, e: S }");
    read(
        b"a size of 2",
        b"struct S { v: vec3<f32>, @size(2) e: f32 }",
    );
}

fn lent_in_part() {
    // 23 words have room for three types: 1 at the struct's close
    let three_types = Room { types: 23, ..WHOLE };
    read_within(b"room for three types", &M1, three_types);
    // 7 words have room for one member: 1 at the second one
    let one_member = Room {
        members: 7,
        ..WHOLE
    };
    read_within(b"room for one member", &M1, one_member);
    // one word for the counts, three for the answer: neither is written
    let short = Room {
        counts: 1,
        answer: 3,
        ..WHOLE
    };
    read_within(b"short answer", &M1, short);
}

fn main() {
    whole();
    lent_in_part();
}
