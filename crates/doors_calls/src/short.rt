// embed/wuldazin.h: "An answer, place, numbers or part buffer that is too short for its words is left as it was", and of a mask
// "A buffer of one word gets the first mask alone." A buffer here is the first words of a longer one, which is printed whole.

ghost use Rattle.std.specs.Prelude.{◌≤◌};

// The rows are those of the accepted arena all the same.
fn answer_of_check() {
    let mut rows = [9u32; 44];
    let mut answer = [9u32; 5];
    doors::wuldazin_check(
        &doors_lent::TYPES,
        &doors_lent::MEMBERS,
        0,
        0,
        &mut rows,
        &mut answer[..3],
    );
    doors_lent::words(b"an answer of 3 words", &answer);
    doors_lent::words(b"rows", &rows);
}

// The slots of a range, with so many words of the mask and of the answer lent; the answer is printed, and the mask is given.
fn range_within(name: &[u8], offset: u32, size: u32, masks: usize, words: usize) -> [u64; 3]
    requires { (masks ≤ 3) × (words ≤ 5) }
{
    let mut mask = [9u64; 3];
    let mut answer = [9u32; 5];
    doors::wuldazin_range(offset, size, &mut mask[..masks], &mut answer[..words]);
    doors_lent::words(name, &answer);
    mask
}

fn ranges() {
    // The refusal is told by the mask alone.
    let mask = range_within(b"an answer of 3 words, 25", 252, 5, 3, 3);
    doors_lent::words(b"mask", &mask);
    range_within(b"an answer of 4 words, 25", 252, 5, 3, 4);
}

// (3, 2) has the masks 3 and 3.
fn masks() {
    let none = range_within(b"a mask of 0 words", 3, 2, 0, 5);
    doors_lent::words(b"mask", &none);
    let one = range_within(b"a mask of 1 word", 3, 2, 1, 5);
    doors_lent::words(b"mask", &one);
    let refused = range_within(b"a mask of 1 word, 25", 252, 5, 1, 5);
    doors_lent::words(b"mask", &refused);
    let two = range_within(b"a mask of 2 words", 3, 2, 2, 5);
    doors_lent::words(b"mask", &two);
}

fn place() {
    let mut rows = [9u32; 42];
    let mut place = [9u64; 3];
    let mut answer = [9u32; 5];
    doors::wuldazin_place(
        &doors_lent::TYPES,
        &doors_lent::MEMBERS,
        0,
        0,
        &mut rows,
        2,
        &[1],
        &mut place[..1],
        &mut answer,
    );
    doors_lent::words(b"a place of 1 word", &answer);
    doors_lent::words(b"place", &place);
}

fn part() {
    let mut part = [9u64; 3];
    doors::wuldazin_members(&doors_lent::TYPES, &doors_lent::MEMBERS, 2, &mut part[..1]);
    doors_lent::words(b"a part of 1 word", &part);
}

fn numbers() {
    let mut numbers = [9u32; 5];
    let mut answer = [9u32; 5];
    doors::wuldazin_plain(5, 4, &mut numbers[..2], &mut answer);
    doors_lent::words(b"numbers of 2 words", &answer);
    doors_lent::words(b"numbers", &numbers);
}

pub fn run() {
    answer_of_check();
    ranges();
    masks();
    place();
    part();
    numbers();
}
