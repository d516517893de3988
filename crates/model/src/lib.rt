// The model of document 01: definitions in specs/, theorems in proofs/. It has no function; every other crate cites it.
#![tactic(auto)]
