// What the two lent tables have in common, as definitions (specs/) and laws (proofs/) alone: effects element by element
// over a range, and tests over a range or a list. There is no code here.
#![tactic(auto)]
