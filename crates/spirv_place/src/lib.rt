// Places by the words of a SPIR-V module, and what term 3 says of them: the statement and its proof, and no code.
#![tactic(auto)]
