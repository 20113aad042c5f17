// Document 000's appendices A to C as it prints them, and theorems: the definitions of this project are these. No code.
#![tactic(auto)]
