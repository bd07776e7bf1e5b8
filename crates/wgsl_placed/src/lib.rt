// The records of a WGSL text are the standard's own placement of the types that it has: the theorem, and the worked layouts of the W3C WGSL specification computed from their text. This crate holds definitions and theorems, and no code.
#![tactic(auto)]
