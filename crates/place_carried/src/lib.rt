// The bytes of a type that leaves carry, and those that are wasted: definitions and laws, and no code.
#![tactic(auto)]
