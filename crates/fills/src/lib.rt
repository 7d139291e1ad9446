// What a slice holds that is written over the front of another, and while a loop writes it element by element: one definition, and lemmas.
#![tactic(auto)]
