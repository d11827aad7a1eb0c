// A question written as bytes, and its commands in order: definitions and laws in specs/, no code.
#![tactic(auto)]
