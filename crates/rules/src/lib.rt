// What each call that changes the tables answers and leaves, as definitions (specs/) and laws (proofs/) alone. The code of the calls is
// in the crates map, unmap and protect.
#![tactic(auto)]
