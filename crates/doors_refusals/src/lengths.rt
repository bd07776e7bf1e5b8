// Number 1: "table length: not whole records, too many, rows too short, or capability bits above" the last one.
// "Number 1 touches nothing", and "1, 25 and 26 carry zeros only".

use doors_lent::Arena;

fn records() {
    Arena::m1(18, 8).check(b"M1");
    // "six 32-bit words a type"
    Arena::m1(17, 8).check(b"types of 17 words");
    // E9 of 02: "Member records grow to four words: type, offset, location, blend source"
    Arena::m1(18, 7).check(b"members of 7 words");
    // "the arena may be empty"
    Arena::m1(0, 0).check(b"no types");
    // E9 of 02: "Capability bit 13 is DUAL_SOURCE_BLENDING; bits above it are 1."
    Arena::m1(18, 8)
        .with_capabilities(16383)
        .check(b"capabilities 16383");
    Arena::m1(18, 8)
        .with_capabilities(16384)
        .check(b"capabilities 16384");
}

// "Fourteen words: size, alignment, flags; uniform verdict (five); storage verdict (five); immediates word."
fn rows() {
    let mut rows = [9u32; 42];
    Arena::m1(18, 8).check_rows(b"rows of 42 words", &mut rows);
    let mut short = [9u32; 41];
    Arena::m1(18, 8).check_rows(b"rows of 41 words", &mut short);
}

// The words of the records and rows of as many types as there may be, and of as many members.
const TYPE_TABLE: usize = 1024 * 6;

const ROW_TABLE: usize = 1024 * 14;

const MEMBER_TABLE: usize = 4096 * 4;

fn check_long(name: &[u8], types: &[u32]) {
    let mut rows = [9u32; ROW_TABLE + 14];
    let mut answer = [9u32; 5];
    doors::wuldazin_check(types, &[], 0, 0, &mut rows, &mut answer);
    doors_lent::words(name, &answer);
    doors_lent::count(b"rows that are 0", &rows, 0);
    doors_lent::count(b"rows that are 9", &rows, 9);
}

// Kept: types and members each lend a table of its own length, and one record more, to a call of its own; one function would take the length, the
// words of a record, two names and the call as a closure, for two callers.
// "At most 1,024 types". A record of zeros is a scalar of width 0, which is no power of two: 7.
fn types() {
    let types = [0u32; TYPE_TABLE + 6];
    check_long(b"1024 types", &types[..TYPE_TABLE]);
    check_long(b"1025 types", &types);
}

// No type names a member here: E alone.
fn check_members(name: &[u8], members: &[u32]) {
    let arena = Arena {
        members,
        ..Arena::of(&[0, 2, 4, 0, 0, 0])
    };
    arena.check(name);
}

// "At most 4,096."
fn members() {
    let members = [0u32; MEMBER_TABLE + 4];
    check_members(b"4096 members", &members[..MEMBER_TABLE]);
    check_members(b"4097 members", &members);
}

// embed/wuldazin.h: "rows get size, alignment and twelve zeros a type".
fn layouts() {
    Arena::m1(18, 8).layout(b"layout of M1");
    Arena::m1(17, 8).layout(b"layout, types of 17 words");
    Arena::m1(18, 7).layout(b"layout, members of 7 words");
    // 5: "array element not an earlier type"
    let own_element = Arena {
        members: &[],
        ..Arena::of(&[0, 2, 4, 0, 0, 0, 7, 1, 0, 1, 4, 0])
    };
    own_element.layout(b"layout, 5");
}

// "the walk of a type and the place lookup take the tables and a lent stretch for rows, judge the arena first, and pass on its refusal"
fn passed_on() {
    Arena::m1(17, 8).slots(b"slots, types of 17 words", 2, 0);
    Arena::m1(18, 8)
        .with_capabilities(16384)
        .place(b"place, capabilities 16384", 2, &[1]);
}

pub fn run() {
    records();
    rows();
    types();
    members();
    layouts();
    passed_on();
}
