// Which source trees run to a target tree: definitions and theorems only.
#![tactic(auto)]
