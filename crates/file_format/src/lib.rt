// A file's fields: a tag, a two-byte length and a body. What a file is, in specs/; here, numbers as
// bytes, a field's length, and what a scan of a file keeps and gives.
#![tactic(auto)]

ghost use Rattle.std.specs.Prelude.{◌≡◌, ◌+◌, ◌<◌, ◌≤◌, true, false, length, IfSome, IfNone};
ghost use Rattle.file_format.specs.Bytes.{half, word};
ghost use Rattle.file_format.specs.File.{wide_write_length, is_tag, kind_of, kind_number, is_wide, body_length, body_at, field_end};

// The last tag of document 01, and the last of all: 8, 9 and 10 are 1, 2 and 3 with names of two bytes.
pub const END_TAG: u8 = 7;

pub const LAST_TAG: u8 = 10;

// The bytes of a field before its body, and those of a body: a rule's and a write's with names of one
// byte and of two, a pair check's, and one address.
pub const HEAD_LENGTH: usize = 3;

pub const NARROW_RULE_LENGTH: usize = 3;

pub const WIDE_RULE_LENGTH: usize = 5;

pub const NARROW_WRITE_LENGTH: usize = 10;

pub const WIDE_WRITE_LENGTH: usize = 11;

pub const PAIR_LENGTH: usize = 10;

pub const ADDRESS_LENGTH: usize = 1;

// The same as the second byte of a field's length.
pub const NARROW_RULE_LENGTH_BYTE: u8 = NARROW_RULE_LENGTH as u8;

pub const WIDE_RULE_LENGTH_BYTE: u8 = WIDE_RULE_LENGTH as u8;

pub const NARROW_WRITE_LENGTH_BYTE: u8 = NARROW_WRITE_LENGTH as u8;

// Those of a put's two fields, and of a range check's field and an end of test.
pub const PUT_LENGTH: usize = 2 * (HEAD_LENGTH + NARROW_WRITE_LENGTH);

pub const END_LENGTH: usize = HEAD_LENGTH + ADDRESS_LENGTH + HEAD_LENGTH;

// Those of a block, on a disk and in a program of puts, and those of a disk.
pub const BLOCK_LENGTH: usize = 4;

pub const DISK_LENGTH: usize = model::DISK_BLOCKS * BLOCK_LENGTH;

// What a field holds. Its number is the tag of document 01 for it.
#[derive(Clone, Copy, PartialEq, Eq)]
pub enum Kind {
    Initial = 1,
    Main = 2,
    Rule = 3,
    Range = 4,
    Pair = 5,
    Pointer = 6,
    End = 7,
}

// How much of a file has been read: its rules, its finished tests, whether a test has begun,
// and that test's fields.
#[derive(Clone, Copy, Default)]
pub struct Counts {
    pub rules: usize,
    pub tests: usize,
    pub begun: bool,
    pub initial: usize,
    pub main: usize,
    pub checks: usize,
}

// Where a test stands: the offset of its first field, and how many fields of each kind it has.
#[derive(Clone, Copy, Default)]
pub struct Extent {
    pub at: usize,
    pub initial: usize,
    pub main: usize,
    pub checks: usize,
}

// A scan in progress: the counts, and where the test in hand begins.
#[derive(Clone, Copy, Default)]
pub struct ScanState {
    pub counts: Counts,
    pub from: usize,
}

// What a file holds: how many rules, how many tests, and where the tests stand, the first ones of an
// array. (The project has no heap, so the count stands beside it.)
#[derive(Clone, Copy)]
pub struct Contents {
    pub rules: usize,
    pub count: usize,
    pub tests: [Extent; model::MOST_TESTS],
}

// Two bytes, big-endian.
#[tactic(auto, unfolding(crate::specs::Bytes::half))]
pub fn half_at(s: &[u8], i: usize) -> u16
    requires { i + 1 < length s.now }
    ensures { result ≡ half s.now i }
{
    u16::from_be_bytes([s[i], s[i + 1]])
}

// Four bytes, big-endian.
#[tactic(auto, unfolding(crate::specs::Bytes::half, crate::specs::Bytes::word))]
pub fn word_at(s: &[u8], i: usize) -> u32
    requires { i + 3 < length s.now }
    ensures { result ≡ word s.now i }
{
    u32::from_be_bytes([s[i], s[i + 1], s[i + 2], s[i + 3]])
}

// Whether the names of a field with this tag are of two bytes.
#[tactic(auto, unfolding(crate::specs::File::is_wide))]
pub fn is_wide(tag: u8) -> bool
    ensures { result ≡ is_wide tag }
{
    END_TAG < tag
}

// Its kind as a number: the tag with names of one byte that holds the same.
#[tactic(auto, unfolding(crate::specs::File::kind_of, crate::specs::File::is_wide))]
pub fn kind_of(tag: u8) -> u8
    ensures { result ≡ kind_of tag }
{
    if is_wide(tag) { tag - END_TAG } else { tag }
}

impl Kind {
    // The kind of a field with this tag, with names of one byte or of two; none for what is no tag. (By the tag
    // itself: by way of `kind_of` reading took a third longer.)
    #[tactic(auto, unfolding(crate::specs::File::kind_of, crate::specs::File::is_wide, crate::specs::File::is_tag))]
    pub fn of(tag: u8) -> Option<Kind>
        ensures some { IfSome result (λ kind. (is_tag tag ≡ true) × (kind_number kind ≡ kind_of tag)) }
        ensures none { IfNone result (is_tag tag ≡ false) }
    {
        match tag {
            1 | 8 => Some(Kind::Initial),
            2 | 9 => Some(Kind::Main),
            3 | LAST_TAG => Some(Kind::Rule),
            4 => Some(Kind::Range),
            5 => Some(Kind::Pair),
            6 => Some(Kind::Pointer),
            END_TAG => Some(Kind::End),
            _ => None,
        }
    }
}

// How long its body is.
#[tactic(auto, unfolding(crate::specs::File::body_length))]
pub fn body_length(tag: u8) -> usize
    ensures { (result ≡ body_length tag) × (result ≤ wide_write_length) }
{
    match tag {
        3 => NARROW_RULE_LENGTH,
        4 => ADDRESS_LENGTH,
        5 => PAIR_LENGTH,
        6 => ADDRESS_LENGTH,
        7 => 0,
        8 => WIDE_WRITE_LENGTH,
        9 => WIDE_WRITE_LENGTH,
        10 => WIDE_RULE_LENGTH,
        _ => NARROW_WRITE_LENGTH,
    }
}

// Where the field at `at` ends.
pub fn end_of(s: &[u8], at: usize) -> usize
    requires { (at < length s.now) × (field_end s.now at ≤ length s.now) }
    ensures { result ≡ field_end s.now at }
{
    at + HEAD_LENGTH + body_length(s[at])
}

// Its body, a part of the file.
pub fn body_at(s: &[u8], at: usize) -> &[u8]
    requires { (at < length s.now) × (field_end s.now at ≤ length s.now) }
    ensures { result.now ≡ body_at s.now at }
{
    &s[at + HEAD_LENGTH..end_of(s, at)]
}
