// The uniform rule as a word, in the contracts of the calls that take it so: definitions and laws, and no code. `UniformRule::try_from` reads the word.
#![tactic(auto)]
