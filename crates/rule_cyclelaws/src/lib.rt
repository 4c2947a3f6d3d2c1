#![tactic(auto)]

// Theorems only: when rule sets are cyclic.
