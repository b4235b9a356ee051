// What map, unmap, clear and protect do to the list of areas and to the page entries, as definitions (specs/) and laws
// (proofs/) alone. There is no code here.
#![tactic(auto)]
