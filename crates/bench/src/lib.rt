#![tactic(auto)]

// The bench sheet, proved about the definitions. No functions.
