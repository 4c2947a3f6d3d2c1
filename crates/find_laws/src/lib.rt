#![tactic(auto)]

// Theorems about finding: what the definitions of model/specs/Find.antt say of each other.
