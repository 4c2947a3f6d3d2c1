#![tactic(auto)]

// The theorems about every sound state of the cache: definitions in specs/, proofs in proofs/.
