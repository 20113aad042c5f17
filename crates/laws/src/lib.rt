// The laws of the papers and the starred examples, as theorems over the definitions of the operations.
#![tactic(auto)]
