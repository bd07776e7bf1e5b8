// What is said of texts that are refused. `stdout` is written by hand: the number by 02, the place by counting.
#![tactic(auto)]

use program_output::{Output, Standard};
use std::io::Write;
use wgsl_grammar::Refusal;

// What was expected.
fn expected<W: Write>(to: &mut W) {
    wgsl_lines::answer(to, b"struct A { a f32 }");
    wgsl_lines::answer(to, b"struct A{a:f32");
    wgsl_lines::answer(to, b"struct fn {a:f32}");
    wgsl_lines::answer(to, b"struct A{a:array<f32,4u>}");
    wgsl_lines::answer(to, b"const a");
    wgsl_lines::answer(to, b"struct A{@location(0) a:f32}");
    wgsl_lines::answer(to, b"struct A{a:vec3<foo>}");
}

// 32 arrays, so that the f32 is the 33rd type.
fn deep<W: Write>(to: &mut W) {
    wgsl_lines::answer(
        to,
        b"struct A{a:array<array<array<array<array<array<array<array<array<array<array<array<array<array<array<array<array<array<array<array<array<array<array<array<array<array<array<array<array<array<array<array<f32",
    );
}

// Which name.
fn names<W: Write>(to: &mut W) {
    wgsl_lines::answer(to, b"struct A{a:vec3f}");
    wgsl_lines::answer(to, b"struct A{a:f32}\nstruct A{b:f32}");
    wgsl_lines::answer(to, b"struct A{a:f32,\x0ba:u32}");
}

// Which attribute or number.
fn limits<W: Write>(to: &mut W) {
    wgsl_lines::answer(to, b"struct A{@size(4294967296) a:foo}");
    wgsl_lines::answer(to, b"struct A{a:array<f32,0>}");
    wgsl_lines::answer(to, b"struct A{a:array<f32,1073741824>}");
    wgsl_lines::answer(to, b"struct A{@align(3) a:vec2<f32>}");
    wgsl_lines::answer(to, b"struct A{@size(2) a:f32}");
    wgsl_lines::answer(to, b"struct A{@size(4294967295)a:f32,b:f32}");
}

// A line feed, a vertical tab, a form feed, a carriage return, one before a line feed: five lines. Comments and blanks before a token are passed.
fn lines<W: Write>(to: &mut W) {
    wgsl_lines::answer(to, b"\n\x0b\x0c\r\r\n?");
    wgsl_lines::answer(to, b"struct A {\r\n  a: f32\r\n  // b\r\n  b: f32\r\n}\r\n");
    wgsl_lines::answer(to, b"struct A{a:f32} /* /* */");
    wgsl_lines::answer(to, b"// \xc3\xa9\n");
}

// What is said of a refusal.
fn say<W: Write>(to: &mut W, text: &[u8], refusal: Refusal) {
    let mut out = Output::new();
    wgsl_messages::put_message(&mut out, text, refusal);
    out.write_out(to);
}

// With room for so many words.
// Kept: the parameters are those of `read_at`, which it calls.
fn refuse_short<W: Write>(to: &mut W, text: &[u8], types: &mut [u32], members: &mut [u32]) {
    if let Err(refusal) = wgsl_read::read_at(text, types, members) {
        say(to, text, refusal);
    }
}

// One type record too few, one member record too few.
fn full<W: Write>(to: &mut W) {
    let mut one = [0u32; 6];
    let mut two = [0u32; 12];
    let mut member = [0u32; 4];
    refuse_short(to, b"struct A{a:f32,b:f32}", &mut one, &mut member);
    refuse_short(to, b"struct A{a:f32,b:f32}", &mut two, &mut member);
}

fn main() {
    let mut to = Standard;
    expected(&mut to);
    deep(&mut to);
    names(&mut to);
    limits(&mut to);
    lines(&mut to);
    full(&mut to);
}
