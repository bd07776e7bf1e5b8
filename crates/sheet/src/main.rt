// The layout sheet of kernels: what the structs of a WGSL text or a SPIR-V module measure and where their members lie.
#![tactic(auto)]

fn main(rt: HostRuntime) {
    sheet_program::run(&rt);
}
