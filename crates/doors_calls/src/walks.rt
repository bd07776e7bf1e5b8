// "Numbers 26 (no such type), then 25 or 26 met on the way, come later and keep the accepted rows."
// embed/wuldazin.h: the words of a mask and of a place are zeros on a refusal.

use doors_lent::Arena;

fn slots() {
    // M2: "M1's struct, slots from 0: 15."
    Arena::m1(18, 8).slots(b"slots from 0", 2, 0);
    // "slots: nonempty part ends past byte 256": V ends at 256, E at 260
    Arena::m1(18, 8).slots(b"slots from 244", 2, 244);
    // "no such type"
    Arena::m1(18, 8).slots(b"slots of type 3", 3, 0);
}

fn other_slots() {
    // "or an offset sum leaves 32 bits": S{E at 12} span 16, where 32 bits would wrap to byte 11
    let struct_at_row_1 = [0, 2, 4, 0, 0, 0, 8, 1, 1, 16, 0, 0];
    Arena::of(&struct_at_row_1).slots(b"slots from 4294967295", 1, 4294967295);
    // "judge the arena first, and pass on its refusal"
    Arena::of(&doors_lent::M6).slots(b"slots of M6", 2, 0);
}

fn places() {
    // "At a struct, a step below the member count adds that member's offset and goes on with its type."
    Arena::m1(18, 8).place(b"place of member 1", 2, &[1]);
    Arena::m1(18, 8).place(b"place of member 0", 2, &[0]);
    // "steps too few, too many or out of range, is no place"
    Arena::m1(18, 8).place(b"place, no step", 2, &[]);
    Arena::m1(18, 8).place(b"place of member 2", 2, &[2]);
    Arena::m1(18, 8).place(b"place, two steps", 2, &[1, 0]);
}

fn other_places() {
    // "Another start": no such type
    Arena::m1(18, 8).place(b"place from type 3", 3, &[]);
    // "judge the arena first, and pass on its refusal"
    Arena::of(&doors_lent::M6).place(b"place in M6", 2, &[1]);
}

pub fn run() {
    slots();
    other_slots();
    places();
    other_places();
}
