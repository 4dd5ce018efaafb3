// The search for a completion of a row: there is no code here, specs/ has the definitions and proofs/ that the search misses none.
#![tactic(auto)]
