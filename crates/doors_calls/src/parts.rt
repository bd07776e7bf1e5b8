// "The member rows of a struct are handed back as that part of the caller's table; an empty part for a number that is no struct or
// whose rows reach past it." embed/wuldazin.h: the part's first word and how many words it has.

use doors_lent::Arena;

fn whole() {
    Arena::m1(18, 8).part(b"members of struct 2", 2);
    // no struct; no type
    Arena::m1(18, 8).part(b"members of type 1", 1);
    Arena::m1(18, 8).part(b"members of type 3", 3);
}

// Tables that end in the middle of a record.
fn cut() {
    // five words of "six 32-bit words a type" are no struct, though those that say its rows are there
    Arena::m1(17, 8).part(b"members, types of 17 words", 2);
    // E9 of 02: "Member records grow to four words": seven have one row
    Arena::m1(18, 7).part(b"members, 7 words for 2 rows", 2);
}

// A struct of row 0, or of row 1.
fn one_row(name: &[u8], first: u32, members: usize) {
    let arena = Arena {
        types: &[8, first, 1, 16, 0, 0],
        ..Arena::m1(18, members)
    };
    arena.part(name, 0);
}

pub fn run() {
    whole();
    cut();
    one_row(b"members, 7 words for row 0", 0, 7);
    one_row(b"members, 7 words for row 1", 1, 7);
    one_row(b"members, 8 words for row 1", 1, 8);
}
