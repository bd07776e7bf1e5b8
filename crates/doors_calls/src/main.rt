// Calls each function of `doors`, over which doors_c is the static library, and prints answers and lent buffers.
// `stdout` is written by hand from the sentences of 01, or of embed/wuldazin.h where it says so, that stand beside the tables.
#![tactic(auto)]

mod masks;
mod parts;
mod reports;
mod short;
mod walks;

// E14 of 02: "size, alignment and column step", "the column step of the first four is 0", "Another shape or width is 2." Of f32, vec3 has
// 12 and 16, mat2x3 32, 16 and 16. embed/wuldazin.h: zeros on a refusal.
fn plain() {
    doors_lent::plain(b"plain 2 4", 2, 4);
    doors_lent::plain(b"plain 5 4", 5, 4);
    doors_lent::plain(b"plain 13 4", 13, 4);
    doors_lent::plain(b"plain 5 3", 5, 3);
}

fn main() {
    walks::run();
    reports::run();
    masks::run();
    parts::run();
    plain();
    short::run();
}
