// E13 of document 02, of the arena's, the slots' and the place's definitions: the statement and its proof, and no code.
#![tactic(auto)]
