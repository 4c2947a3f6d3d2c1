// The reader of test files. A file is fields: a tag, a two-byte length and a body.
#![tactic(auto)]

ghost use Rattle.std.specs.Prelude.{◌≡◌, ◌&&◌, ◌-◌, leb, take};
ghost use Rattle.file_format.specs.File.{kind_number};
ghost use Rattle.file_format.specs.Scan.{counted, test_from, in_hand, advanced, ended, scan_of};
ghost use Rattle.file_format.specs.Held.{Scans};
ghost use Rattle.file_reader.specs.Limits.{Within};

use file_format::{Contents, Counts, Extent, Kind, ScanState};
use model::{Cause, Refusal};

// The counts after one more field of a kind.
#[tactic(auto, unfolding(file_format::specs::Scan::counted))]
fn count_field(kind: Kind, c: Counts) -> Counts
    requires { Within c }
    ensures { result ≡ counted (kind_number kind) c }
{
    match kind {
        Kind::Rule => Counts {
            rules: c.rules + 1,
            ..c
        },
        Kind::Initial => Counts {
            begun: true,
            initial: c.initial + 1,
            ..c
        },
        Kind::Main => Counts {
            begun: true,
            main: c.main + 1,
            ..c
        },
        Kind::Range | Kind::Pair | Kind::Pointer => Counts {
            begun: true,
            checks: c.checks + 1,
            ..c
        },
        Kind::End => Counts {
            rules: c.rules,
            tests: c.tests + 1,
            ..Counts::default()
        },
    }
}

#[tactic(auto, unfolding(file_format::specs::Scan::test_from))]
fn begin_at(kind: Kind, from: usize, next: usize) -> usize
    ensures { result ≡ test_from (kind_number kind) from next }
{
    match kind {
        Kind::Rule | Kind::End => next,
        _ => from,
    }
}

// Where the test in hand stands.
fn in_hand(st: ScanState) -> Extent
    ensures { result ≡ in_hand st }
{
    let c = st.counts;
    Extent {
        at: st.from,
        initial: c.initial,
        main: c.main,
        checks: c.checks,
    }
}

#[tactic(auto, unfolding(file_format::specs::Scan::advanced))]
fn advance(kind: Kind, next: usize, st: ScanState) -> ScanState
    requires { Within st.counts }
    ensures { result ≡ advanced (kind_number kind) next st }
{
    ScanState {
        counts: count_field(kind, st.counts),
        from: begin_at(kind, st.from, next),
    }
}

fn end_scan(
    length: usize,
    tests: &[Extent; model::MOST_TESTS],
    st: ScanState,
) -> Result<Contents, Refusal>
    requires { Within st.counts }
    ensures { Scans (ended length st (take st.counts.tests tests.now)) result }
{
    let c = st.counts;
    if c.begun {
        return Err(Refusal {
            cause: Cause::TestNotEnded,
            place: length,
        });
    }
    Ok(Contents {
        rules: c.rules,
        count: c.tests,
        tests: *tests,
    })
}

// Reads a file: how many rules it holds and where its tests stand, or the refusal.
pub fn read(s: &[u8]) -> Result<Contents, Refusal>
    ensures { Scans (scan_of s.now) result }
{
    let mut st = ScanState::default();
    let mut tests = [Extent::default(); model::MOST_TESTS];
    let mut at = 0;
    while at < s.len() {
        let kind = match file_faults::fault(s, at, st.counts) {
            Ok(kind) => kind,
            Err(cause) => return Err(Refusal { cause, place: at }),
        };
        // The field's length is its body's: another is refused.
        let next = at + file_format::HEAD_LENGTH + usize::from(file_format::half_at(s, at + 1));
        // The test in hand has its place behind the finished ones; its end makes it one of these.
        tests[st.counts.tests] = in_hand(st);
        st = advance(kind, next, st);
        at = next;
    }
    end_scan(s.len(), &tests, st)
}

// Test numbers count from 1; the reader's from 0.
pub fn from_zero(test: u64) -> usize
    ensures { result ≡ test - 1 }
{
    test.saturating_sub(1) as usize
}

// Whether there is a test of that number, counted from 1, among so many.
pub fn has_test(tests: usize, test: u64) -> bool
    ensures { result ≡ leb 1 test && leb test tests }
{
    1 <= test && test <= tests as u64
}
