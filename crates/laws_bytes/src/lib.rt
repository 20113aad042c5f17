// Laws over what the operations answer, in bytes: no code, only definitions and proofs.
#![tactic(auto)]
