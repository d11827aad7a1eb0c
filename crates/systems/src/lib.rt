// Systems of share clauses over trees: definitions and theorems in specs/, no code.
#![tactic(auto)]
