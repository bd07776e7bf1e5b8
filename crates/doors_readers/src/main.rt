// The reader of SPIR-V modules through `doors`, over which doors_c is the static library: answers and lent buffers. `stdout` is written by hand
// from 02's E5 ("More records than 01 or the lent tables admit is number 1", "These and 1 zero the lent records") and from the sentences of
// embed/wuldazin.h: "counts: two words, how many types and how many members; zeros on a refusal", "the words after them as they were", "all words
// of types and members are 0", "An answer, .. counts, .. buffer that is too short for its words is left as it was. Words after its own are left in
// every buffer." Each word of a lent buffer is 9 before its call.
#![tactic(auto)]

ghost use Rattle.std.specs.Prelude.{◌≤◌};

use doors_lent::Room;

// M1's struct: Offsets 0 and 12, then f32, vec3<f32> and the struct of both.
const MODULE: [u32; 26] = [
    119734787, 65536, 0, 4, 0, 327752, 3, 0, 35, 0, 327752, 3, 1, 35, 12, 196630, 1, 32, 262167, 2,
    1, 3, 262174, 3, 2, 1,
];

// Five words, the magic number one too high: 28.
const OTHER_MAGIC: [u32; 5] = [119734788, 65536, 0, 1, 0];

// A float of 24 bits: 29.
const ODD_WIDTH: [u32; 8] = [119734787, 65536, 0, 2, 0, 196630, 1, 24];

// A struct of one float without an Offset: 30.
const NO_OFFSET: [u32; 11] = [119734787, 65536, 0, 3, 0, 196630, 1, 32, 196638, 2, 1];

// Tables of three types and two words more, and of two members and two words more.
const WHOLE: Room = Room {
    types: 20,
    members: 10,
    counts: 3,
    answer: 5,
};

// Kept: `read_within` of doors_texts makes another call, over a longer table; what both share is `doors_lent::read`.
fn read_within(name: &[u8], counts_name: &[u8], words: &[u32], room: Room)
    requires { (room.types ≤ 20) × (room.members ≤ 10) × (room.counts ≤ 3) × (room.answer ≤ 5) }
{
    doors_lent::read::<20, _>(name, counts_name, room, |types, members, counts, answer| {
        doors::wuldazin_read_spirv(words, types, members, counts, answer)
    });
}

fn read(name: &[u8], words: &[u32]) {
    read_within(name, b"counts", words, WHOLE);
}

fn lent_in_part() {
    // exactly as many words as the records have
    let exact = Room {
        types: 18,
        members: 8,
        ..WHOLE
    };
    read_within(b"exact", b"counts", &MODULE, exact);
    // one word too few for the third type
    let few_types = Room { types: 17, ..WHOLE };
    read_within(b"17 words of types", b"counts", &MODULE, few_types);
    // one word too few for the second member
    let few_members = Room {
        members: 7,
        ..WHOLE
    };
    read_within(b"7 words of members", b"counts", &MODULE, few_members);
    let short = Room {
        counts: 1,
        answer: 3,
        ..WHOLE
    };
    read_within(b"3 words of an answer", b"1 word of counts", &MODULE, short);
}

fn main() {
    read(b"read", &MODULE);
    read(b"no words", &MODULE[..0]);
    read(b"another magic number", &OTHER_MAGIC);
    read(b"a float of 24 bits", &ODD_WIDTH);
    read(b"no Offset", &NO_OFFSET);
    lent_in_part();
}
