// The records of a module that was read: which instructions they come from, and that they are in order; the statement and its proof, and no code.
#![tactic(auto)]
