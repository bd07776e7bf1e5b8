// Term 3 of the terms of acceptance, of the arena's and the place's definitions: the statement and its proof, and no code.
#![tactic(auto)]
