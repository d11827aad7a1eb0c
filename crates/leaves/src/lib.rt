// The problem that a question poses at the leaves: definitions and theorems in specs/, no code.
#![tactic(auto)]
