#![tactic(auto)]

// A state is the bytes of what it holds. What is claimed is in specs/.
