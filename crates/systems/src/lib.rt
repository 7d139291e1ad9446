// Systems of linear equations over any arithmetic: definitions in specs/, what follows from the laws in proofs/.
// The code over them is in the crates `rows` and `solver`.
#![tactic(auto)]
