// What holds of every record of a WGSL text, by one induction over the grammar, and the theorem about growth: if one member grows by d bytes and its alignment holds, the span grows by no more than d rounded up to the struct's alignment, and no offset falls. This crate holds definitions and theorems, and no code.
#![tactic(auto)]
