// Columns of writes as masks: where a name or an address stands, and how epochs stand to each other.
#![tactic(auto)]

ghost use Rattle.std.specs.Prelude.{◌≡◌, ◌+◌, ◌<◌, ◌≤◌, length};
ghost use Rattle.relation.specs.Tables.{Filled, Blank};
ghost use Rattle.model.specs.Limits.{most_held};
ghost use Rattle.cache_masks.specs.Masks.{equal_mask, same_mask, same_at, Compared, standing_by, turned_round};
ghost use Rattle.cache_masks.specs.Ranks.{rank_of, rank_at, next_mask, below_mask, union_to, standing_in, bounds, SmallRanks};

// Writes in columns: the addresses, the names and the epochs, each with a place for every write that a state may
// hold.
#[derive(Drop)]
pub struct Columns {
    pub addresses: [u8; model::MOST_HELD],
    pub names: [u16; model::MOST_HELD],
    pub epochs: [u32; model::MOST_HELD],
}

// Columns to be filled.
pub fn no_columns() -> Columns
    ensures { Blank most_held result.addresses × (Blank most_held result.names × Blank most_held result.epochs) }
{
    Columns {
        addresses: [0; model::MOST_HELD],
        names: [0; model::MOST_HELD],
        epochs: [0; model::MOST_HELD],
    }
}

// Which of the first n entries of a column, of names or of addresses, are x.
pub fn same<T: PartialEq + Copy>(column: &[T], x: T, n: usize) -> u64
    requires { (n ≤ length column.now) × (n ≤ most_held) }
    ensures { result ≡ equal_mask T.eq column.now x n }
{
    let mut mask: u64 = 0;
    for j in 0..n {
        mask = relation::with_if(mask, j, column[j] == x);
    }
    mask
}

// The same of names by the last entry that is x, where table has for each entry those up to it that are as it.
pub fn last_same(
    table: &[u64; model::MOST_HELD],
    column: &[u16; model::MOST_HELD],
    x: u16,
    n: usize,
) -> u64
    requires { (n ≤ most_held) × Filled (same_at column.now) n table.now }
    ensures { result ≡ same_mask column.now x n }
{
    for j in (0..n).rev() {
        if column[j] == x {
            return table[j];
        }
    }
    0
}

// For each entry of a column of names those up to it that are as it.
pub fn fill_same(table: &mut [u64; model::MOST_HELD], column: &[u16; model::MOST_HELD], n: usize)
    requires { n ≤ most_held }
    ensures { Filled (same_at column.now) n table.new }
{
    for i in 0..n {
        table[i] = relation::with_bit(last_same(table, column, column[i], i), i);
    }
}

// Which writes' epochs equal an epoch, are less and are greater.
#[derive(Clone, Copy)]
pub struct Epochs {
    pub equal: u64,
    pub less: u64,
    pub greater: u64,
}

// How the first n epochs stand to the epoch t.
pub fn compare_epochs(epochs: &[u32; model::MOST_HELD], t: u32, n: usize) -> Epochs
    requires { n ≤ most_held }
    ensures { Compared epochs.now t n result }
{
    let mut equal: u64 = 0;
    let mut less: u64 = 0;
    let mut greater: u64 = 0;
    for j in 0..n {
        let u = epochs[j];
        equal = relation::with_if(equal, j, t == u);
        less = relation::with_if(less, j, u < t);
        greater = relation::with_if(greater, j, t < u);
    }
    Epochs {
        equal,
        less,
        greater,
    }
}

// Of the writes whose epochs were compared with one, those to which it stands as a predicate says.
#[tactic(auto, unfolding(crate::specs::Masks::standing_by))]
pub fn standing(epochs: Epochs, p: u16) -> u64
    ensures { result ≡ standing_by epochs p }
{
    match p {
        0 => epochs.equal,
        1 => epochs.less,
        2 => epochs.greater,
        _ => 0,
    }
}

// The same turned round: what standing gives of it are those that stand so to the epoch.
pub fn turned(epochs: Epochs) -> Epochs
    ensures { result ≡ turned_round epochs }
{
    Epochs {
        equal: epochs.equal,
        less: epochs.greater,
        greater: epochs.less,
    }
}

// How many epochs are below t. Those of no write count alike, so that the loop has a fixed length: ranks stand
// to each other as the epochs do, whatever else is counted.
fn rank(epochs: &[u32; model::MOST_HELD], t: u32) -> u32
    ensures { (result ≡ rank_of epochs.now t) × (result ≤ most_held) }
{
    let mut count: u32 = 0;
    for u in epochs {
        count += u32::from(*u < t);
    }
    count
}

// The rank of u, where r is that of t.
fn next_rank(epochs: &[u32; model::MOST_HELD], t: u32, r: u32, u: u32) -> u32
    requires { (r ≡ rank_of epochs.now t) × (r ≤ most_held) }
    ensures { (result ≡ rank_of epochs.now u) × (result ≤ most_held) }
{
    if t == u {
        return r;
    }
    rank(epochs, u)
}

// The ranks of the first n epochs. They are counted anew only where the epoch changes.
pub fn fill_ranks(ranks: &mut [u8; model::MOST_HELD], epochs: &[u32; model::MOST_HELD], n: usize)
    requires { n ≤ most_held }
    ensures { Filled (rank_at epochs.now) n ranks.new × SmallRanks n ranks.new }
{
    let mut t: u32 = 0;
    let mut r: u32 = 0;
    for i in 0..n {
        r = next_rank(epochs, t, r, epochs[i]);
        t = epochs[i];
        ranks[i] = r as u8;
    }
}

// So many entries has a table with one for each rank and one more.
pub const BOUNDS: usize = model::MOST_HELD + 1;

// Entry r is the writes whose rank is one below r.
fn mark_ranks(belows: &mut [u64; BOUNDS], ranks: &[u8; model::MOST_HELD], n: usize)
    requires { Blank bounds belows.old × ((n ≤ most_held) × SmallRanks n ranks.now) }
    ensures { Filled (next_mask ranks.now n) bounds belows.new }
{
    for i in 0..n {
        let r = usize::from(ranks[i]) + 1;
        belows[r] = relation::with_bit(belows[r], i);
    }
}

// Each entry of a table is joined with all before it.
fn join_up(table: &mut [u64; BOUNDS])
    ensures { Filled (union_to table.old) bounds table.new }
{
    for r in 1..BOUNDS {
        table[r] |= table[r - 1];
    }
}

// Entry r is the writes whose ranks are below r.
pub fn fill_belows(belows: &mut [u64; BOUNDS], ranks: &[u8; model::MOST_HELD], n: usize)
    requires { Blank bounds belows.old × ((n ≤ most_held) × SmallRanks n ranks.now) }
    ensures { Filled (below_mask ranks.now n) bounds belows.new }
{
    mark_ranks(belows, ranks, n);
    join_up(belows);
}

// The writes to whose epochs one of rank r stands as a predicate says. (`standing` would be handed three masks, all
// made to take one of them.)
#[tactic(auto, unfolding(crate::specs::Ranks::standing_in))]
pub fn standing_in(belows: &[u64; BOUNDS], r: usize, p: u16) -> u64
    requires { r < most_held }
    ensures { result ≡ standing_in belows.now r p }
{
    match p {
        0 => relation::without(belows[r + 1], belows[r]),
        1 => belows[r],
        2 => relation::without(belows[model::MOST_HELD], belows[r + 1]),
        _ => 0,
    }
}
