// A peer table as 61 words.
ghost use Rattle.std.specs.Prelude.{◌≡◌, true, false, ◌++◌, ◌<◌, ◌≤◌, length, drop, MatchOption};
ghost use Rattle.capi_cluster.specs.Words.{row_words, table_words, row_fits, row_of, rows_fit, is_table, table_of};

use capi_words::BYTE_LIMIT;
use peers::{PeerTable, Row};

pub(crate) const TABLE_WORDS: usize = 61;
// The words of 16 and 32 bits are below these.
const HALF_LIMIT: u64 = 65_536;

const WORD_LIMIT: u64 = 4_294_967_296;

// Whether the words of row `k` fit their fields.
#[tactic(auto, unfolding(crate::specs::Words::row_fits))]
fn row_fits(words: &[u64], k: usize) -> bool
    requires { (length words.now ≡ 61) × (k < 10) }
    ensures { result ≡ row_fits k words.now }
{
    let at = 1 + 6 * k;
    words[at] < BYTE_LIMIT
        && words[at + 1] < WORD_LIMIT
        && words[at + 2] < HALF_LIMIT
        && words[at + 3] < BYTE_LIMIT
        && words[at + 4] < WORD_LIMIT
}

// Whether the words of every row do.
fn rows_fit(words: &[u64]) -> bool
    requires { length words.now ≡ 61 }
    ensures { result ≡ rows_fit 10 words.now }
{
    for k in 0..10usize {
        if !row_fits(words, k) {
            return false;
        }
    }
    true
}

// Row `k`.
#[tactic(auto, unfolding(crate::specs::Words::row_of))]
fn row_of(words: &[u64], k: usize) -> Row
    requires { (length words.now ≡ 61) × (k < 10) × (row_fits k words.now ≡ true) }
    ensures { result ≡ row_of k words.now }
{
    let at = 1 + 6 * k;
    Row {
        id: words[at] as u8,
        address: words[at + 1] as u32,
        port: words[at + 2] as u16,
        state: words[at + 3] as u8,
        incarnation: words[at + 4] as u32,
        last_seen: words[at + 5],
    }
}

// Whether words are a peer table.
pub(crate) fn is_table(words: &[u64]) -> bool
    ensures { result ≡ is_table words.now }
{
    if words.len() != TABLE_WORDS {
        return false;
    }
    if BYTE_LIMIT <= words[0] {
        return false;
    }
    rows_fit(words)
}

// The peer table that words stand for. Not inlined: the numbers of all rows would be held there,
// and spilled.
#[inline(never)]
pub(crate) fn read_table(words: &[u64]) -> PeerTable
    requires { is_table words.now ≡ true }
    ensures { result ≡ table_of words.now }
{
    let mut table = PeerTable {
        rows: [Row::NONE; 10],
        count: words[0] as u8,
    };
    for k in 0..10usize {
        table.rows[k] = row_of(words, k);
    }
    table
}

// The same, if they are one. `is_table` and `read_table` stand apart, since a table that is behind
// a test is copied once more.
pub(crate) fn table_of(words: &[u64]) -> Option<PeerTable>
    ensures { MatchOption result (is_table words.now ≡ false) (λ t. (is_table words.now ≡ true) × (t ≡ table_of words.now)) }
{
    if !is_table(words) {
        return None;
    }
    Some(read_table(words))
}

// Puts a row's words to its six places, word by word: a copy of an array of them would go through
// memory once more.
#[tactic(auto, using(crate::proofs::Rows::six_set))]
fn put_row(row: Row, out: &mut [u64])
    requires { length out.old ≡ 6 }
    ensures { out.new ≡ row_words row }
{
    out[0] = row.id as u64;
    out[1] = row.address as u64;
    out[2] = row.port as u64;
    out[3] = row.state as u64;
    out[4] = row.incarnation as u64;
    out[5] = row.last_seen;
}

// Puts a table's words to the front of `out`.
pub(crate) fn put_table(table: PeerTable, out: &mut [u64])
    requires { 61 ≤ length out.old }
    ensures { out.new ≡ table_words table ++ drop 61 out.old }
{
    out[0] = table.count as u64;
    for k in 0..10usize {
        let at = 1 + 6 * k;
        put_row(table.rows[k], &mut out[at..at + 6]);
    }
}
