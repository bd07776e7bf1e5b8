// Answers its arguments, or the commands on standard input.
#![tactic(auto)]

fn main(rt: HostRuntime) {
    program_command_line::run(&rt);
}
