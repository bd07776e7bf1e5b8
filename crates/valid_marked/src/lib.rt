// The marked examples of document 01: theorems about the definitions, and no code.
#![tactic(auto)]
