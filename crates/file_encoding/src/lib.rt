#![tactic(auto)]

// Theorems only: reading accepts exactly the bytes of files.
