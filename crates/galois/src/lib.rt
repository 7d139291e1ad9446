// The numbers below 256 as a field: definitions in specs/, their laws in proofs/. The code over them is in the crate `byte`.
#![tactic(auto)]
