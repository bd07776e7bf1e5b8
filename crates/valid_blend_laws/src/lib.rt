// The arena without blend sources, and what does not read them: definitions and laws, and no code.
#![tactic(auto)]
