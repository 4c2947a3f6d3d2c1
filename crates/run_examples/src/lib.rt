#![tactic(auto)]

// Examples only: runs that meet the hypotheses of demand 3, and the bench sheet's.
