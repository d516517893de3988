// What the demands ask, said of what the code promises, in bytes: no function. specs/ has the promises as claims and what a host calls,
// proofs/ the theorems over them.
#![tactic(auto)]
