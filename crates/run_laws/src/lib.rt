#![tactic(auto)]

// Whole runs of the cache: definitions and theorems, no functions.
