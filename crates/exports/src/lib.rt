#![tactic(auto)]

// Theorems only: about what the exported routines answer, all of them at once.
