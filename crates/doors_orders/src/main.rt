// The call for an order through `doors`, over which doors_c is the static library: answers, tables and lent buffers. `stdout` is written by hand
// from E11 of 02 and the sentences of embed/wuldazin.h. The free words of the tables and each word of a lent buffer are 9 before a call, and all
// of them are printed after it.
#![tactic(auto)]

ghost use Rattle.std.specs.Prelude.{◌≤◌};

// E = f32 and V = vec3 of f32, with room for two types more.
const PAIR: [u32; 24] = [
    0, 2, 4, 0, 0, 0, 1, 3, 2, 4, 0, 0, 9, 9, 9, 9, 9, 9, 9, 9, 9, 9, 9, 9,
];

// E and a sampler.
const SAMPLER: [u32; 24] = [
    0, 2, 4, 0, 0, 0, 10, 0, 0, 0, 0, 0, 9, 9, 9, 9, 9, 9, 9, 9, 9, 9, 9, 9,
];

// E, a runtime array of E, and a struct with it as its only member, row 0.
const UNSIZED: [u32; 24] = [
    0, 2, 4, 0, 0, 0, 7, 0, 1, 0, 4, 0, 8, 0, 1, 4, 0, 0, 9, 9, 9, 9, 9, 9,
];

// E, and a struct of an E with a span of 4,294,967,281.
const LONG: [u32; 24] = [
    0, 2, 4, 0, 0, 0, 8, 0, 1, 4294967281, 0, 0, 9, 9, 9, 9, 9, 9, 9, 9, 9, 9, 9, 9,
];

// A float of two bytes, which a capability is missing for, and E.
const HALF: [u32; 24] = [
    0, 2, 2, 0, 0, 0, 0, 2, 4, 0, 0, 0, 9, 9, 9, 9, 9, 9, 9, 9, 9, 9, 9, 9,
];

// Kept: `types` with `type_count`, `members` with `member_count`, `rule`, `rows`, `wanted`, `span`: the arguments of the call that is tried, where free records follow those that are counted. Three are lent with `&mut`: a struct of them would be made anew for each call.
fn order(
    name: &[u8],
    types: &mut [u32],
    type_count: u32,
    members: &mut [u32],
    member_count: u32,
    rule: u32,
    rows: &mut [u32],
    wanted: &[u32],
    span: u32,
) {
    let mut found = [9u32; 10];
    let mut answer = [9u32; 5];
    doors::wuldazin_order(
        types,
        type_count,
        members,
        member_count,
        0,
        rule,
        rows,
        wanted,
        span,
        &mut found,
        &mut answer,
    );
    doors_lent::words(name, &answer);
    doors_lent::words(b"found", &found);
    doors_lent::words(b"types", types);
    doors_lent::words(b"members", members);
}

// Two types and no member row are in use.
fn of_two(name: &[u8], two: [u32; 24], rule: u32, wanted: &[u32], span: u32) {
    let mut types = two;
    let mut members = [9u32; 12];
    let mut rows = [9u32; 44];
    order(
        name,
        &mut types,
        2,
        &mut members,
        0,
        rule,
        &mut rows,
        wanted,
        span,
    );
    doors_lent::words(b"rows", &rows);
}

// A member row is in use, and the rows are not printed.
fn with_row(name: &[u8], own: [u32; 24], type_count: u32, row: u32, wanted: &[u32], span: u32) {
    let mut types = own;
    let mut members = [row, 0, 0, 0, 9, 9, 9, 9, 9, 9, 9, 9];
    let mut rows = [9u32; 56];
    order(
        name,
        &mut types,
        type_count,
        &mut members,
        1,
        0,
        &mut rows,
        wanted,
        span,
    );
}

// "The first order by member numbers is returned", "That order, with its own span": V at 0 and E at 12 have 16, E at 0 and V at 16 have 32.
fn found() {
    of_two(b"E V, 31", PAIR, 0, &[0, 1], 31);
    of_two(b"E V, 32", PAIR, 0, &[0, 1], 32);
    // "A runtime array stays last": E at 0, then the array at 4
    with_row(b"runtime array and E, 8", UNSIZED, 2, 0, &[1, 0], 8);
}

// "16, 6, 17, 20 and 35 keep the accepted rows; no refusal writes records."
fn kept() {
    of_two(b"E V, 15", PAIR, 0, &[0, 1], 15);
    of_two(b"none", PAIR, 0, &[], 15);
}

// "one outside the arena is 6; one not data is 17; an unsized struct or a second runtime array is 20; tested in this order".
fn given() {
    with_row(b"sampler, outside", SAMPLER, 2, 0, &[1, 2], 8);
    with_row(b"E, sampler", SAMPLER, 2, 0, &[0, 1], 8);
    with_row(b"unsized struct", UNSIZED, 3, 1, &[2], 8);
    with_row(b"two runtime arrays", UNSIZED, 3, 1, &[1, 1], 8);
}

// "all but 1 after the arena's own refusals"; "the arena check, whose refusal is passed on": the struct's distance to E leaves 32 bits.
fn refused() {
    of_two(b"half, none", HALF, 0, &[], 15);
    let mut types = LONG;
    let mut members = [0u32, 0, 0, 0, 9, 9, 9, 9, 9, 9, 9, 9];
    let mut rows = [9u32; 44];
    order(
        b"long struct and E",
        &mut types,
        2,
        &mut members,
        1,
        0,
        &mut rows,
        &[1, 0],
        4294967295,
    );
    doors_lent::words(b"rows", &rows);
}

// "More than seven types, or no free record or row for the new struct or its members, is 1".
fn no_room() {
    of_two(b"eight", PAIR, 0, &[0, 0, 0, 0, 0, 0, 0, 0], 64);
    of_two(b"rule 2", PAIR, 2, &[0, 1], 16);
}

// Two types and no member row are in use, with so many words of each table; the rows are handed back.
// Kept: `types`, `members`, `rows`: lengths, and no tables: how many words of each the call is lent; a struct of the three would be made for this one
// function.
fn lent_in_part(name: &[u8], types: usize, members: usize, rows: usize) -> [u32; 44]
    requires { (types ≤ 24) × (members ≤ 12) × (rows ≤ 44) }
{
    let mut lent_types = PAIR;
    let mut lent_members = [9u32; 12];
    let mut lent_rows = [9u32; 44];
    order(
        name,
        &mut lent_types[..types],
        2,
        &mut lent_members[..members],
        0,
        0,
        &mut lent_rows[..rows],
        &[0, 1],
        16,
    );
    lent_rows
}

fn short_tables() {
    let rows = lent_in_part(b"17 words of types", 17, 12, 44);
    doors_lent::words(b"rows", &rows);
    let rows = lent_in_part(b"7 words of members", 24, 7, 44);
    doors_lent::words(b"rows", &rows);
    lent_in_part(b"41 words of rows", 24, 12, 41);
}

// A short buffer for what was found, or for the answer, is left as it was; the struct is written.
fn short_found() {
    let mut types = PAIR;
    let mut members = [9u32; 12];
    let mut rows = [9u32; 44];
    let mut found = [9u32; 10];
    let mut answer = [9u32; 5];
    doors::wuldazin_order(
        &mut types,
        2,
        &mut members,
        0,
        0,
        0,
        &mut rows,
        &[0, 1],
        16,
        &mut found[..8],
        &mut answer[..3],
    );
    doors_lent::words(b"3 words of answer", &answer);
    doors_lent::words(b"8 words of found", &found);
    doors_lent::words(b"types", &types);
}

fn main() {
    found();
    kept();
    given();
    refused();
    no_room();
    short_tables();
    short_found();
}
