// "Every other arena refusal zeroes 14 words for each type and leaves the rest". The answer is "number, type, member, detail".
// "The type is the first one refused; the member is its position in the struct, for 6 and 17 to 21 in a struct; all else is 0".

// Kept: `types`, `members`, `capabilities`: as a `doors_lent::Arena` each of the calls below would write out a struct, whose rule is always the older one.
// An arena for a number: its answer, and rows for three types and two words more.
fn refuse(number: u32, types: &[u32], members: &[u32], capabilities: u32) {
    let mut rows = [9u32; 44];
    let mut answer = [9u32; 5];
    doors::wuldazin_check(types, members, capabilities, 0, &mut rows, &mut answer);
    doors_lent::refusal(number, &answer);
    doors_lent::words(b"rows", &rows);
}

fn refuse_types(number: u32, types: &[u32], capabilities: u32) {
    refuse(number, types, &[], capabilities);
}

// 2 and 3: "type record by type record".
fn fields() {
    // "field outside its set, unnamed words too": the last word of a scalar
    refuse_types(2, &[0, 2, 4, 0, 0, 1], 0);
    // "or first member plus count above the table's rows": 4,294,967,295 and 1, of one row
    refuse(
        2,
        &[0, 2, 4, 0, 0, 0, 8, 4294967295, 1, 4, 0, 0],
        &[0, 0, 0, 0],
        0,
    );
    // "pointer or binding-array base outside the arena"
    refuse_types(3, &[5, 1, 0, 0, 0, 0], 0);
}

// 4 to 7: "over the arena, type by type".
fn layouts() {
    // "array's count, or its measure, above 2,147,483,647, at stride 0 too"
    refuse_types(4, &[0, 2, 4, 0, 0, 0, 7, 0, 0, 2147483648, 0, 0], 0);
    // "array element not an earlier type"
    refuse_types(5, &[7, 0, 0, 1, 4, 0], 0);
    // "member not an earlier type": the second member
    refuse(
        6,
        &[0, 2, 4, 0, 0, 0, 8, 0, 2, 8, 0, 0],
        &[0, 0, 0, 0, 1, 4, 0, 0],
        0,
    );
    // "width no power of two"
    refuse_types(7, &[0, 2, 3, 0, 0, 0], 0);
}

// 8: "capability missing, in both Rust forms; detail is its bit".
fn capabilities() {
    // a width's form: f16 without SHADER_FLOAT16, bit 1, of the second type
    refuse_types(8, &[0, 2, 4, 0, 0, 0, 0, 2, 2, 0, 0, 0], 0);
    // a type's form: a ray query with vertex_return, of RAY_QUERY but no RAY_HIT_VERTEX_POSITION, bit 12
    refuse_types(
        8,
        &[0, 2, 4, 0, 0, 0, 0, 2, 4, 0, 0, 0, 12, 1, 0, 0, 0, 0],
        1024,
    );
}

fn scalars() {
    // "width invalid": a float of 1 byte
    refuse_types(9, &[0, 2, 1, 0, 0, 0], 0);
    // "abstract scalar": scalar kind 4 is AbstractInt
    refuse_types(10, &[0, 4, 8, 0, 0, 0], 0);
    // "matrix element not float": scalar kind 0 is Sint
    refuse_types(11, &[2, 2, 2, 0, 4, 0], 0);
    // "atomic width": a bool
    refuse_types(12, &[4, 3, 1, 0, 0, 0], 0);
}

fn references() {
    // "pointer base not data": a sampler
    refuse_types(13, &[10, 0, 0, 0, 0, 0, 5, 0, 0, 0, 0, 0], 0);
    // "pointer to unsized outside Storage": to a runtime array, in Function
    refuse_types(
        14,
        &[0, 2, 4, 0, 0, 0, 7, 0, 1, 0, 4, 0, 5, 1, 0, 0, 0, 0],
        0,
    );
    // "array base": a sampler
    refuse_types(15, &[10, 0, 0, 0, 0, 0, 7, 0, 0, 1, 4, 0], 0);
}

fn members() {
    // "empty struct"
    refuse_types(16, &[8, 0, 0, 0, 0, 0], 0);
    // "not data": a sampler, the second member
    refuse(
        17,
        &[0, 2, 4, 0, 0, 0, 10, 0, 0, 0, 0, 0, 8, 0, 2, 8, 0, 0],
        &[0, 0, 0, 0, 1, 4, 0, 0],
        0,
    );
    // "member overlap": M4, E at 8
    refuse(
        18,
        &[0, 2, 4, 0, 0, 0, 1, 3, 2, 4, 0, 0, 8, 0, 2, 16, 0, 0],
        &[1, 0, 0, 0, 0, 8, 0, 0],
        0,
    );
    // "member out of bounds": M6, span 15
    refuse(19, &doors_lent::M6, &doors_lent::MEMBERS, 0);
}

fn last_members() {
    // "dynamic member not last": a runtime array, then E
    refuse(
        20,
        &[0, 2, 4, 0, 0, 0, 7, 0, 1, 0, 4, 0, 8, 0, 2, 8, 0, 0],
        &[1, 0, 0, 0, 0, 4, 0, 0],
        0,
    );
    // "a struct sum above 4,294,967,295 or difference below 0": M10, E at 0, S{E} at 16, E at 0
    refuse(
        21,
        &[0, 2, 4, 0, 0, 0, 8, 0, 1, 4, 0, 0, 8, 1, 3, 32, 0, 0],
        &[0, 0, 0, 0, 0, 0, 0, 0, 1, 16, 0, 0, 0, 0, 0, 0],
        0,
    );
}

fn images() {
    // "image form": three dimensions, arrayed
    refuse_types(22, &[9, 2, 1, 0, 0, 0], 0);
    // "binding array of data that is no struct"
    refuse_types(23, &[0, 2, 4, 0, 0, 0, 13, 0, 0, 1, 0, 0], 0);
    // "binding array of external images": class 2 with TEXTURE_EXTERNAL, bit 9
    refuse_types(24, &[9, 1, 0, 2, 0, 0, 13, 0, 0, 1, 0, 0], 512);
}

// E9 of 02: "34, blend source refused, detail 1 to 6: bad index, collision, other locations, types differ, not IO-shareable, one source
// missing". Location 0 is stored as 1, sources 0 and 1 as 1 and 2; 8192 is DUAL_SOURCE_BLENDING.
fn blend_members() {
    let types = [0, 2, 4, 0, 0, 0, 8, 0, 2, 16, 0, 0];
    // location 1
    refuse(34, &types, &[0, 0, 0, 0, 0, 4, 2, 1], 8192);
    // source 2
    refuse(34, &types, &[0, 0, 0, 0, 0, 4, 1, 3], 8192);
    // source 0 twice
    refuse(34, &types, &[0, 0, 1, 1, 0, 4, 1, 1], 8192);
    // "Capability bit 13 is DUAL_SOURCE_BLENDING"
    refuse(8, &types, &[0, 0, 0, 0, 0, 4, 1, 1], 8191);
    // "A blend source requires a location; a struct's record without it is number 2."
    refuse(2, &types, &[0, 0, 0, 0, 0, 4, 0, 1], 8192);
}

fn blend_structs() {
    // both sources, and location 2 beside them
    refuse(
        34,
        &[0, 2, 4, 0, 0, 0, 8, 0, 3, 16, 0, 0],
        &[0, 0, 1, 1, 0, 4, 1, 2, 0, 8, 3, 0],
        8192,
    );
    // f32 and u32
    refuse(
        34,
        &[0, 2, 4, 0, 0, 0, 0, 1, 4, 0, 0, 0, 8, 0, 2, 8, 0, 0],
        &[0, 0, 1, 1, 1, 4, 1, 2],
        8192,
    );
    // two bools
    refuse(
        34,
        &[0, 3, 1, 0, 0, 0, 8, 0, 2, 2, 0, 0],
        &[0, 0, 1, 1, 0, 1, 1, 2],
        8192,
    );
    // source 1 alone
    refuse(
        34,
        &[0, 2, 4, 0, 0, 0, 8, 0, 2, 16, 0, 0],
        &[0, 0, 1, 2, 0, 4, 0, 0],
        8192,
    );
}

pub fn run() {
    fields();
    layouts();
    capabilities();
    scalars();
    references();
    members();
    last_members();
    images();
    blend_members();
    blend_structs();
}
