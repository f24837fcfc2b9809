//! Words of 128 bits, one for each operation: which of up to 128 writes are in its past, and which have it in theirs.

ghost use Rattle.std.specs.Prelude.{◌≡◌, ◌↔◌, ◌⊎◌, ◌+◌, ◌<◌, ◌≤◌, [], length, slice_get, slice_index_or, Some};
ghost use Rattle.std.specs.Prelude.{ℕ, IfSome, IsTrue, MatchOption};
ghost use Rattle.model_history.specs.declared.op_id.OpId.{OpId as Operation};
ghost use Rattle.model_history.specs.History.{IsOp, number};
ghost use Rattle.judge_memory.specs.Steps.{IsOrderBy, many};
ghost use Rattle.judge_columns.specs.Words.{AreFutureWords, ArePastWords, HasBit, HasBitAt, HasNoPast, IsAdded, IsGiven, IsTaken};

use judge_memory::LongIndex;

/// Finds for each operation which of up to 128 writes are in its past: those at the place `from` of a list and after it, a bit each.
///
/// The order is one that [`judge_memory::order_causal`] gives. O(n) for n operations.
pub(crate) fn find_past_words(
    index: &LongIndex,
    order: &[u32],
    writes: &[u32],
    from: usize,
    past: &mut Vec<u128>,
)
    requires order { IsOrderBy index.now.history [] order.now }
    requires writes { (k n : ℕ) → slice_get writes.now k ≡ Some n → n < many index.now.history }
    requires from { from ≤ length writes.now }
    requires size { length past.old.items ≡ many index.now.history }
    ensures size { length past.new.items ≡ many index.now.history }
    ensures words { ArePastWords index.now.history writes.now from past.new.items }
{
    mark(writes, from, past);
    for &operation in order {
        take(index, operation, past);
    }
}

/// Finds for each operation which of those writes have it in their past: by one pass back along the order, or by none where nothing is in
/// the past of any of them.
pub(crate) fn find_future_words(
    index: &LongIndex,
    order: &[u32],
    writes: &[u32],
    from: usize,
    future: &mut Vec<u128>,
)
    requires order { IsOrderBy index.now.history [] order.now }
    requires writes { (k n : ℕ) → slice_get writes.now k ≡ Some n → n < many index.now.history }
    requires from { from ≤ length writes.now }
    requires size { length future.old.items ≡ many index.now.history }
    ensures size { length future.new.items ≡ many index.now.history }
    ensures words { AreFutureWords index.now.history writes.now from future.new.items }
{
    if have_no_past(index, writes, from) {
        mark(writes, from, future);
    } else {
        find_by_giving(index, order, writes, from, future);
    }
}

/// Whether nothing is in the past of any of those writes.
fn have_no_past(index: &LongIndex, writes: &[u32], from: usize) -> bool
    requires writes { (k n : ℕ) → slice_get writes.now k ≡ Some n → n < many index.now.history }
    requires from { from ≤ length writes.now }
    ensures { IsTrue result → (k n : ℕ) → k < 128 → slice_get writes.now (from + k) ≡ Some n → HasNoPast index.now.history n }
{
    for bit in 0..128 {
        let place = from + bit;
        if place < writes.len() && !has_no_past(index, writes[place]) {
            return false;
        }
    }
    true
}

/// Whether nothing is in the past of an operation: it is the first of its session, and has no source.
fn has_no_past(index: &LongIndex, operation: u32) -> bool
    requires { operation < many index.now.history }
    ensures { IsTrue result → HasNoPast index.now.history operation }
{
    match (index.before(operation), index.source(operation)) {
        (None, None) => true,
        _ => false,
    }
}

/// Finds for each operation which of those writes have it in their past, by one pass back along the order.
fn find_by_giving(
    index: &LongIndex,
    order: &[u32],
    writes: &[u32],
    from: usize,
    future: &mut Vec<u128>,
)
    requires order { IsOrderBy index.now.history [] order.now }
    requires writes { (k n : ℕ) → slice_get writes.now k ≡ Some n → n < many index.now.history }
    requires from { from ≤ length writes.now }
    requires size { length future.old.items ≡ many index.now.history }
    ensures size { length future.new.items ≡ many index.now.history }
    ensures words { AreFutureWords index.now.history writes.now from future.new.items }
{
    mark(writes, from, future);
    for i in (0..order.len()).rev() {
        give(index, order[i], future);
    }
}

/// Gives an operation the bits of the one before it and of its source.
fn take(index: &LongIndex, operation: u32, words: &mut Vec<u128>)
    requires operation { operation < many index.now.history }
    requires size { length words.old.items ≡ many index.now.history }
    ensures size { length words.new.items ≡ many index.now.history }
    ensures taken { (o : Operation) → IsOp index.now.history o → number index.now.history o ≡ operation
        → IsTaken index.now.history o words.old.items words.new.items }
{
    index.value_is_indexed();
    let before = word_at(words, index.before(operation));
    let source = word_at(words, index.source(operation));
    add_word(words, Some(operation), before | source);
}

/// Gives the bits of an operation to the one before it and to its source.
fn give(index: &LongIndex, operation: u32, words: &mut Vec<u128>)
    requires operation { operation < many index.now.history }
    requires size { length words.old.items ≡ many index.now.history }
    ensures size { length words.new.items ≡ many index.now.history }
    ensures given { (o : Operation) → IsOp index.now.history o → number index.now.history o ≡ operation
        → IsGiven index.now.history o words.old.items words.new.items }
{
    index.value_is_indexed();
    let word = words[operation as usize];
    add_word(words, index.before(operation), word);
    add_word(words, index.source(operation), word);
}

/// Gives each operation the bits of its places in a list, from the place `from` on and only 128; gives no other bits.
fn mark(places: &[u32], from: usize, words: &mut Vec<u128>)
    requires from { from ≤ length places.now }
    requires below { (k n : ℕ) → slice_get places.now k ≡ Some n → n < length words.old.items }
    ensures size { length words.new.items ≡ length words.old.items }
    ensures marked { (n k : ℕ) → k < 128 → HasBitAt words.new.items n k ↔ (slice_get places.now (from + k) ≡ Some n) }
{
    clear(words);
    for bit in 0..128 {
        let place = from + bit as usize;
        if place < places.len() {
            set_bit(words, places[place], bit);
        }
    }
}

/// Gives no place a bit. O(n) for n places.
pub(crate) fn clear(words: &mut Vec<u128>)
    ensures size { length words.new.items ≡ length words.old.items }
    ensures none { (n k : ℕ) → ¬ HasBitAt words.new.items n k }
{
    for i in 0..words.len() {
        words[i] = 0;
    }
}

/// The word at a place, or none of its bits.
fn word_at(words: &[u128], place: Option<u32>) -> u128
    requires { IfSome place (λ n. n < length words.now) }
    ensures { (k : ℕ) → HasBit result k ↔ MatchOption place ⊥ (λ n. HasBitAt words.now n k) }
{
    match place {
        Some(place) => words[place as usize],
        None => 0,
    }
}

/// Gives a place the bits of a word, if it is named.
pub(crate) fn add_word(words: &mut Vec<u128>, place: Option<u32>, word: u128)
    requires { IfSome place (λ n. n < length words.old.items) }
    ensures size { length words.new.items ≡ length words.old.items }
    ensures added { IsAdded words.old.items place word words.new.items }
{
    if let Some(place) = place {
        words[place as usize] |= word;
    }
}

/// Gives a place a bit.
pub(crate) fn set_bit(words: &mut Vec<u128>, place: u32, bit: u32)
    requires place { place < length words.old.items }
    requires bit { bit < 128 }
    ensures size { length words.new.items ≡ length words.old.items }
    ensures set { (n k : ℕ) → HasBitAt words.new.items n k ↔ (HasBitAt words.old.items n k ⊎ ((n ≡ place) × (k ≡ bit))) }
{
    words[place as usize] |= 1 << bit;
}

/// Whether a word has a bit.
pub(crate) fn has_bit(word: u128, bit: u32) -> bool
    requires { bit < 128 }
    ensures { IsTrue result ↔ HasBit word bit }
{
    (word >> bit) & 1 == 1
}

/// Whether a word has some bit.
pub(crate) fn has_some(word: u128) -> bool
    ensures { IsTrue result ↔ ((k : ℕ) × (k < 128) × HasBit word k) }
{
    if word == 0 { false } else { true }
}

/// The bits that two words share.
pub(crate) fn shared(a: u128, b: u128) -> u128
    ensures { (k : ℕ) → HasBit result k ↔ (HasBit a k × HasBit b k) }
{
    a & b
}

/// The bits of a word that another one has not.
pub(crate) fn without(a: u128, b: u128) -> u128
    ensures { (k : ℕ) → k < 128 → HasBit result k ↔ (HasBit a k × (¬ HasBit b k)) }
{
    a & !b
}
