// The write-back cache on 1,024 lent bytes. What is right is in specs/. The numbers of a state's layout, each
// by its name (specs/State.antt says what they are of).
#![tactic(auto)]

pub const STATE_SIZE: usize = 1024;

pub const RULES_START: usize = 4;

pub const WRITES_START: usize = 164;

pub const ENTRY_LENGTH: usize = 12;

pub const FLAG_PLACE: usize = 11;
