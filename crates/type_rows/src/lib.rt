// The types layer: which type rows are taken, and the relation "below" between types, closed once a run.
#![tactic(auto)]

ghost use Rattle.std.specs.Prelude.{true, ◌≡◌, List, ℕ, ◌+◌, ◌/◌, ◌%◌, ◌^◌, ◌<◌, ◌≤◌, length, ◌==◌, ◌↔◌, IsTrue, EachIndex, slice_index};
ghost use Rattle.std.specs.Int.Bits.{bit_or};
ghost use Rattle.lists.specs.Choice.{◌⇒◌else◌};
ghost use Rattle.type_rows.specs.Types.{below, below_by};
ghost use Rattle.type_rows.specs.Rows.{good_rows, row_fits, rows_code};
ghost use Rattle.type_rows.specs.Closure.{closure_rows, closure_words, closure_of, bit_of};

/// Whether a row has no bit n or above. A shift by 64 is no shift of a word.
fn row_fits(row: u64, n: usize) -> bool
    requires { n ≤ 64 }
    ensures { result ≡ row_fits n row }
{
    n == 64 || row >> n == 0
}

/// Whether no row has a bit n or above.
fn all_fit(rows: &[u64], n: usize) -> bool
    requires { n ≤ 64 }
    ensures { IsTrue result ↔ EachIndex rows.now (λ s. slice_index rows.now s < 2 ^ n) }
{
    rows.iter().all(|&row| row_fits(row, n))
}

/// Whether the lent type rows are taken: 1 to 64 of them, and of n rows none has a bit at n or higher.
pub fn are_good(rows: &[u64]) -> bool
    ensures value { result ≡ good_rows rows.now }
    ensures coded { (result ⇒ 0 else 104) ≡ rows_code rows.now }
{
    let n = rows.len();
    1 <= n && n <= 64 && all_fit(rows, n)
}

/// Bit t of a word.
fn has_bit(word: u64, t: usize) -> bool
    requires { t < 64 }
    ensures { result ≡ (word / 2 ^ t % 2 == 1) }
{
    (word >> t) % 2 == 1
}

// Three steps of `closure`, for rows that are good. A struct of such rows is no plainer: its making would ask the same
// fact once more, and each of the three would read its field for `rows`.
// The words are written by index: what `iter_mut` lends leaves no clause on the elements afterwards.

/// The words of the declared relation, with every type below itself and below 0.
fn direct_words(rows: &[u64]) -> [u64; 64]
    requires { good_rows rows.now ≡ true }
    ensures { result ≡ closure_rows (length rows.now) (below_by rows.now 0) }
{
    let mut words = [0u64; 64];
    for (s, row) in rows.iter().enumerate() {
        words[s] = 1 << s | 1 | *row;
    }
    words
}

/// A word after the chains over k: where it has bit k, also the bits of word k.
fn chained(word: u64, over: u64, k: usize) -> u64
    requires { k < 64 }
    ensures { result ≡ (word / 2 ^ k % 2 == 1 ⇒ bit_or word over else word) }
{
    if has_bit(word, k) { word | over } else { word }
}

/// The chains over the type k, for all words at once.
fn chain_over(rows: &[u64], k: usize, words: &mut [u64; 64])
    requires rows_value { good_rows rows.now ≡ true }
    requires k_in_bounds { k < length rows.now }
    requires words_value { words.old ≡ closure_rows (length rows.now) (below_by rows.now k) }
    ensures { words.new ≡ closure_rows (length rows.now) (below_by rows.now
        (k + 1)) }
{
    let over = words[k];
    for s in 0..rows.len() {
        words[s] = chained(words[s], over, k);
    }
}

/// The chains over each type in turn.
fn closed(rows: &[u64]) -> [u64; 64]
    requires { good_rows rows.now ≡ true }
    ensures { result ≡ closure_words rows.now }
{
    let mut words = direct_words(rows);
    for k in 0..rows.len() {
        chain_over(rows, k, &mut words);
    }
    words
}

/// "Below", computed once. Of rows that are refused it is the closure of no rows: nothing is below anything.
pub fn closure(rows: &[u64]) -> [u64; 64]
    ensures { result ≡ closure_of rows.now }
{
    if are_good(rows) {
        closed(rows)
    } else {
        [0u64; 64]
    }
}

/// Is s below t, by the words of the closure? False where one of them is no type.
pub fn is_below(words: &[u64; 64], s: u32, t: u32) -> bool
    ensures by_index { (rows : List ℕ) → good_rows rows ≡ true → words.now ≡ closure_words rows
        → result ≡ below rows s t }
    ensures value { result ≡ bit_of words.now s t }
{
    s < 64 && t < 64 && has_bit(words[s as usize], t as usize)
}
