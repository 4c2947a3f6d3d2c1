// Writes, rules and checks, whose meaning is in specs/, and how a refusal stands in one number.
#![tactic(auto)]

ghost use Rattle.std.specs.Prelude.{◌≡◌, ◌<◌, IfErr};
ghost use Rattle.model.specs.Limits.{words};
ghost use Rattle.model.specs.Answer.{number_of, refusal, coded, at_zero, outcome};

// The limits of documents 01 and 02, each by its name (specs/Limits.antt says what they are of).
pub const NAMES: u64 = 65536;

pub const NARROW_NAMES: u16 = 256;

pub const WORDS: u64 = 4294967296;

pub const DISK_BLOCKS: usize = 256;

pub const LAST_BLOCK: usize = DISK_BLOCKS - 1;

pub const MOST_RULES: usize = 32;

pub const MOST_TESTS: usize = 16;

pub const MOST_INITIAL: usize = 64;

pub const MOST_MAIN: usize = 20;

pub const MOST_CHECKS: usize = 16;

pub const MOST_INITIAL_PUTS: usize = MOST_INITIAL / 2;

pub const MOST_MAIN_PUTS: usize = MOST_MAIN / 2;

pub const MOST_FOUND: usize = 12;

pub const FOUND_SCHEDULES: usize = 1 << MOST_FOUND;

pub const MOST_CANDIDATES: usize = 16;

pub const CANDIDATE_SETS: usize = 1 << MOST_CANDIDATES;

pub const MOST_HELD: usize = 64;

// A write: its address, its label (a name and an epoch) and its block, both halves in one number.
#[derive(Clone, Copy)]
pub struct Write {
    pub address: u8,
    pub name: u16,
    pub epoch: u32,
    pub block: u32,
}

// A rule: writes named `first` depend on writes named `second` whose epochs are so related. (The predicate is
// of one byte everywhere else. With three numbers of one width there is no gap, and rules are copied as a whole.
// It is a number, since the theorems speak of rules with any predicate: specs/Rules.antt, Known.)
#[derive(Clone, Copy)]
pub struct Rule {
    pub first: u16,
    pub predicate: u16,
    pub second: u16,
}

// A check of a disk, with its addresses and blocks.
#[derive(Clone, Copy)]
pub enum Check {
    Range(u8),
    Pair { a: u8, v: u32, b: u8, w: u32 },
    Pointer(u8),
}

// Why a call is refused, by the names of include/pelzhondy_answer.h. `cause as u8` is the number that
// documents and C callers know it by.
#[derive(Clone, Copy, PartialEq, Eq)]
pub enum Cause {
    Cut = 1,
    UnknownTag = 2,
    WrongLength = 3,
    OutOfOrder = 4,
    UnknownPredicate = 5,
    OverLimit = 6,
    TestNotEnded = 7,
    CyclicRules = 8,
    NoSuchTest = 9,
    FileHasRules = 10,
    TooManyCandidates = 11,
    BufferTooShort = 12,
    NoSetDoes = 13,
    Not1024Bytes = 14,
    NotSound = 15,
    StateFull = 16,
    Late = 17,
    RingOfNeeds = 18,
    NotWholePuts = 19,
    EmptyPut = 20,
    LogDamaged = 21,
    FileHasTests = 22,
    TestTooLong = 24,
}

impl Cause {
    // Its number.
    pub fn number(self) -> u8
        ensures { result ≡ number_of self }
    {
        self as u8
    }
}

// A refusal: why, and its place in the file.
#[derive(Clone, Copy, PartialEq, Eq)]
pub struct Refusal {
    pub cause: Cause,
    pub place: usize,
}

// A refusal that is about no place in a file has place 0.
impl From<Cause> for Refusal {
    ghost from_gives = { λ cause r. r ≡ at_zero cause };

    fn from(cause: Cause) -> Refusal {
        Refusal { cause, place: 0 }
    }
}

// A refusal by its number and place: bit 63, the number from bit 32 on, the place below.
pub fn refuse(number: u64, place: u64) -> u64
    requires { (number < 256) × (place < words) }
    ensures { result ≡ refusal number place }
{
    9223372036854775808 + number * WORDS + place
}

// A refusal as one number, by any number that a byte holds, a cause's or not.
pub fn code_of(number: u8, place: usize) -> u64
    requires { place < words }
    ensures { result ≡ refusal number place }
{
    refuse(u64::from(number), place as u64)
}

impl Refusal {
    // This refusal as one number.
    pub fn code(self) -> u64
        requires { self.place < words }
        ensures { result ≡ refusal (number_of self.cause) self.place }
    {
        code_of(self.cause.number(), self.place)
    }
}

// What a call answers, a number below bit 63 or a refusal, as one number.
pub fn coded(answer: Result<u64, Refusal>) -> u64
    requires { IfErr answer (λ why. why.place < words) }
    ensures { result ≡ coded (outcome answer) }
{
    match answer {
        Ok(number) => number,
        Err(why) => why.code(),
    }
}
