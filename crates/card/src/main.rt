// The card program: checks a fixed arena by the older uniform rule and prints a line for each type, its number and then its row. It reads nothing.
#![tactic(auto)]

use valid_type_info::UniformRule;

// Kept: the system's number of the stream; program_input, which has it, is of programs that read.
const STDOUT: i32 = 1;

fn print_row(i: usize, row: &[u32]) {
    io::print_decimal(STDOUT, i as u64);
    for word in row {
        io::write_all(STDOUT, b" ");
        io::print_decimal(STDOUT, u64::from(*word));
    }
    io::write_all(STDOUT, b"\n");
}

// f32; vec3 of f32; a struct of the two with span 16.
fn main() {
    let types = [0u32, 2, 4, 0, 0, 0, 1, 3, 2, 4, 0, 0, 8, 0, 2, 16, 0, 0];
    let members = [1u32, 0, 0, 0, 0, 12, 0, 0];
    let mut rows = [0u32; ir_records::ROW_TABLE];
    let judged = valid_arena::check(&types, &members, 0, UniformRule::Older, &mut rows);
    if judged.is_ok() {
        for (i, row) in rows.chunks(ir_records::ROW_WORDS).take(3).enumerate() {
            print_row(i, row);
        }
    }
}
