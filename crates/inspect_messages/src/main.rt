// What `inspect` says of its arguments, which are in `args`, and of the lines at which it stops.
#![tactic(auto)]

use program_commands::Session;
use program_lines::Line;
use program_output::{Output, Standard};
use std::io::Write;

fn stop_at<W: Write>(to: &mut W, mut s: Session, line: &[u8]) {
    let mut arena = [0u32; program_commands::ARENA_WORDS];
    let mut numbers = [0u32; program_lines::MOST_NUMBERS];
    let mut out = Output::new();
    match program_lines::said_line(line, &mut numbers) {
        Ok(Some(Line::Change(change))) => s.change(change, &mut arena),
        Ok(_) => {}
        Err(reason) => s.stop(reason),
    }
    s.flush(&mut out, to);
}

fn stop<W: Write>(to: &mut W, line: &[u8]) {
    stop_at(to, Session::new(), line);
}

fn stop_each<W: Write>(to: &mut W, lines: &[&[u8]]) {
    for line in lines {
        stop(to, line);
    }
}

// A byte order mark in UTF-8 and in UTF-16 of either order, a NUL, a carriage return that is not the last byte.
fn bytes<W: Write>(to: &mut W) {
    stop_each(
        to,
        &[
            b"\xef\xbb\xbfcheck",
            b"# \xff\xfe",
            b"# \xfe\xff",
            b"type 0 2 4\0",
            b"check\rclear\r",
        ],
    );
}

fn words<W: Write>(to: &mut W) {
    stop_each(to, &[b"type 0 2 -4", b"caps 4294967296", b"help"]);
}

// Too few numbers, or too many.
fn usage<W: Write>(to: &mut W) {
    stop_each(
        to,
        &[
            b"caps",
            b"rule",
            b"type",
            b"member 0",
            b"layout 0",
            b"judge 0",
            b"check 0",
            b"members",
            b"slots 0",
            b"range 0",
            b"place",
            b"short",
            b"report 0",
            b"plain 0 4 0",
            b"pass 0",
            b"set 0",
            b"choose",
            b"run 0",
            b"clear 0",
            b"order",
        ],
    );
}

// Tables that are full: 1,024 types, 4,096 members.
fn full<W: Write>(to: &mut W) {
    let mut s = Session::new();
    s.types = program_commands::MEMBERS_AT;
    s.members = program_commands::ARENA_WORDS;
    stop_at(to, s, b"type 0 2 4");
    stop_at(to, s, b"member 0 0");
}

fn main(rt: HostRuntime) {
    program_command_line::run(&rt);
    let mut to = Standard;
    bytes(&mut to);
    words(&mut to);
    usage(&mut to);
    full(&mut to);
}
