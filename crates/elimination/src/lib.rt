// Elimination: how far rows have come on their way into the kept form, and that no step changes the contents. Definitions and lemmas;
// the code is in the crate `solver`.
#![tactic(auto)]
