// The session at a line that is as long as it may be, which is answered, and at one that is longer: it is not cut, and nothing after it is answered.
#![tactic(auto)]

fn main(rt: HostRuntime) {
    program_session::run(&rt);
}
