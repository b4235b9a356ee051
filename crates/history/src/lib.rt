// Demand 3: from fresh tables, after any sequence of calls, each page's entry and what a lookup says of it follow from the
// history alone. Definitions (specs/) and theorems (proofs/); there is no code here.
#![tactic(auto)]
