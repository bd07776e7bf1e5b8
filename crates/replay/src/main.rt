// Replays the arenas and queries in `stdin`; `stdout` holds the answers of naga, and of the harness's reading of 01 where naga has none.
#![tactic(auto)]

fn main(rt: HostRuntime) {
    program_session::run(&rt);
}
