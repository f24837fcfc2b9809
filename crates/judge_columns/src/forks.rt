//! The columns of sessions with one write each, 128 at once: a bit for each write in place of a number.

ghost use Rattle.std.specs.Prelude.{◌≡◌, ◌↔◌, ◌⊎◌, ◌+◌, ◌*◌, ◌++◌, ◌∷◌, ◌<◌, ◌≤◌, ℕ, List, [], Some, length, slice_get, IfOk, IsTrue, OnOk};
ghost use Rattle.order_memory.specs.SourceOrder.{IsCyclic};
ghost use Rattle.judge_memory.specs.Steps.{IsOrderBy, many};
ghost use Rattle.judge_columns.specs.Forks.{AreForksFound, AreForkWords, AreOnlyWrites, HasForkSizes, IsForkAt, IsLeftEdge, IsLeftIn};
ghost use Rattle.judge_columns.specs.Groups.{IsInGroups};
ghost use Rattle.judge_columns.specs.Parts.{IsSweptOver};
ghost use Rattle.judge_columns.specs.Swept.{HasEdge};
ghost use Rattle.judge_columns.specs.Words.{AreVariableWords, HasBit, HasBitAt};

use crate::sweeping::Overwritten;
use crate::swept::Swept;
use crate::words::{
    add_word, clear, find_future_words, find_past_words, has_bit, has_some, set_bit, shared,
    without,
};
use judge_memory::{LongIndex, Part};
use std::alloc::{AllocError, Global};

/// What up to 128 writes are before and after.
#[derive(Drop)]
pub(crate) struct ForkWords {
    /// By operation: the writes in its past.
    pub(crate) past: Vec<u128>,
    /// By operation: the writes that have it in their past.
    pub(crate) future: Vec<u128>,
    /// By variable: the writes of it.
    pub(crate) of_variable: Vec<u128>,
}

/// Looks, for each known read, at those of the writes that are of its variable and in its past.
///
/// Afterwards `late` has, for each write, those that conflict with it. O(n) for n operations.
pub(crate) fn look_at_reads(
    index: &LongIndex,
    writes: &[u32],
    from: usize,
    words: &ForkWords,
    late: &mut Vec<u128>,
) -> Overwritten
    requires straight { ¬ IsCyclic index.now.history }
    requires only { AreOnlyWrites index.now.history writes.now }
    requires words { AreForkWords index.now writes.now from words.now }
    requires size { length late.old.items ≡ many index.now.history }
    requires none { (n k : ℕ) → ¬ HasBitAt late.old.items n k }
    ensures size { length late.new.items ≡ many index.now.history }
    ensures found { AreForksFound index.now.history writes.now from (many index.now.history) result.start result.read late.new.items }
{
    let mut overwritten = Overwritten {
        start: false,
        read: false,
    };
    for operation in 0..index.operations() {
        look_at(
            index,
            writes,
            from,
            words,
            operation,
            &mut overwritten,
            late,
        );
    }
    overwritten
}

/// Looks at those writes for one operation.
fn look_at(
    index: &LongIndex,
    _writes: &[u32],
    _from: usize,
    words: &ForkWords,
    operation: u32,
    overwritten: &mut Overwritten,
    late: &mut Vec<u128>,
)
    requires straight { ¬ IsCyclic index.now.history }
    requires only { AreOnlyWrites index.now.history _writes.now }
    requires words { AreForkWords index.now _writes.now _from words.now }
    requires operation { operation < many index.now.history }
    requires size { length late.old.items ≡ many index.now.history }
    ensures size { length late.new.items ≡ many index.now.history }
    ensures found { AreForksFound index.now.history _writes.now _from operation overwritten.old.start overwritten.old.read late.old.items
        → AreForksFound index.now.history _writes.now _from (operation + 1) overwritten.new.start overwritten.new.read late.new.items }
{
    index.value_is_indexed();
    let variable = index.variable(operation);
    let seen = shared(
        words.past[operation as usize],
        words.of_variable[variable as usize],
    );
    match index.part(operation) {
        Part::InitialRead => overwritten.start |= has_some(seen),
        Part::SourcedRead(source) => leave(words, source, seen, overwritten, late),
        Part::Write | Part::ThinAirRead | Part::UnknownRead => {}
    }
}

/// Notes those of the writes that are in the past of a read, except those in the past of its source.
fn leave(
    words: &ForkWords,
    source: u32,
    seen: u128,
    overwritten: &mut Overwritten,
    late: &mut Vec<u128>,
)
    requires past { source < length words.now.past.items }
    requires future { source < length words.now.future.items }
    requires late { source < length late.old.items }
    ensures size { length late.new.items ≡ length late.old.items }
    ensures start { overwritten.new.start ≡ overwritten.old.start }
    ensures read { IsTrue overwritten.new.read ↔ (IsTrue overwritten.old.read ⊎ ((k : ℕ) × (k < 128)
        × (HasBit seen k × (¬ HasBitAt words.now.past.items source k) × HasBitAt words.now.future.items source k))) }
    ensures left { (n k : ℕ) → k < 128 → HasBitAt late.new.items n k
        ↔ (HasBitAt late.old.items n k ⊎ ((n ≡ source) × (HasBit seen k × (¬ HasBitAt words.now.past.items source k)))) }
{
    if has_some(seen) {
        let rest = without(seen, words.past[source as usize]);
        overwritten.read |= has_some(shared(rest, words.future[source as usize]));
        add_word(late, Some(source), rest);
    }
}

/// Adds what the sessions of a group of 128 writes of a list show, or of fewer at the end of the list. O(n) for n operations.
// In each loop that calls it the words are locals, whose places are kept in registers.
#[inline(always)]
pub(crate) fn sweep_group(
    index: &LongIndex,
    order: &[u32],
    writes: &[u32],
    group: usize,
    words: &mut ForkWords,
    late: &mut Vec<u128>,
    swept: &mut Swept,
) -> Result<(), AllocError>
    requires order { IsOrderBy index.now.history [] order.now }
    requires only { AreOnlyWrites index.now.history writes.now }
    requires from { group * 128 < length writes.now }
    requires sizes { HasForkSizes index.now words.old }
    requires late { length late.old.items ≡ many index.now.history }
    ensures sizes { HasForkSizes index.now words.new }
    ensures late { length late.new.items ≡ many index.now.history }
    ensures swept { OnOk result ((groups : List ℕ)
        → IsSweptOver index.now.history (IsInGroups 128 (IsForkAt index.now.history writes.now) groups) swept.old
        → IsSweptOver index.now.history (IsInGroups 128 (IsForkAt index.now.history writes.now) (groups ++ group ∷ [])) swept.new) }
{
    let from = group * 128;
    find_words(index, order, writes, from, words);
    clear(late);
    let overwritten = look_at_reads(index, writes, from, words, late);
    push_left(index, writes, from, late, &mut swept.edges)?;
    swept.has_overwritten_start |= overwritten.start;
    swept.has_overwritten_read |= overwritten.read;
    Ok(())
}

/// Finds what those writes are before and after.
fn find_words(index: &LongIndex, order: &[u32], writes: &[u32], from: usize, words: &mut ForkWords)
    requires order { IsOrderBy index.now.history [] order.now }
    requires only { AreOnlyWrites index.now.history writes.now }
    requires from { from ≤ length writes.now }
    requires sizes { HasForkSizes index.now words.old }
    ensures sizes { HasForkSizes index.now words.new }
    ensures words { AreForkWords index.now writes.now from words.new }
{
    find_past_words(index, order, writes, from, &mut words.past);
    find_future_words(index, order, writes, from, &mut words.future);
    mark_variables(index, writes, from, &mut words.of_variable);
}

/// Gives each variable the bits of those of the writes that are of it.
fn mark_variables(index: &LongIndex, writes: &[u32], from: usize, words: &mut Vec<u128>)
    requires only { AreOnlyWrites index.now.history writes.now }
    requires from { from ≤ length writes.now }
    requires size { length words.old.items ≡ index.now.bound }
    ensures size { length words.new.items ≡ index.now.bound }
    ensures words { AreVariableWords index.now.history writes.now from index.now.variables words.new.items }
{
    clear(words);
    for bit in 0..128 {
        let place = from + bit as usize;
        if place < writes.len() {
            set_bit(words, index.variable(writes[place]), bit);
        }
    }
}

/// Pushes an edge from each of the writes to each operation that has its bit.
fn push_left(
    index: &LongIndex,
    writes: &[u32],
    from: usize,
    late: &[u128],
    edges: &mut Vec<(u32, u32)>,
) -> Result<(), AllocError>
    requires from { from ≤ length writes.now }
    requires size { length late.now ≡ many index.now.history }
    ensures { OnOk result ((a b : ℕ) → HasEdge edges.new.items a b
        ↔ (HasEdge edges.old.items a b ⊎ IsLeftEdge writes.now from late.now a b)) }
{
    for to in 0..index.operations() {
        push_word(writes, from, late[to as usize], to, edges)?;
    }
    Ok(())
}

/// Pushes an edge to an operation from each of the writes that has a bit in its word.
fn push_word(
    writes: &[u32],
    from: usize,
    word: u128,
    to: u32,
    edges: &mut Vec<(u32, u32)>,
) -> Result<(), AllocError>
    requires { from ≤ length writes.now }
    ensures { OnOk result ((a b : ℕ) → HasEdge edges.new.items a b
        ↔ (HasEdge edges.old.items a b ⊎ ((b ≡ to) × IsLeftIn writes.now from word a))) }
{
    if word == 0 {
        return Ok(());
    }
    for bit in 0..128 {
        if has_bit(word, bit) {
            push_from(writes, from + bit as usize, to, edges)?;
        }
    }
    Ok(())
}

/// Pushes an edge from the write at a place, if there is one.
fn push_from(
    writes: &[u32],
    place: usize,
    to: u32,
    edges: &mut Vec<(u32, u32)>,
) -> Result<(), AllocError>
    ensures { OnOk result ((a b : ℕ) → HasEdge edges.new.items a b
        ↔ (HasEdge edges.old.items a b ⊎ ((b ≡ to) × (slice_get writes.now place ≡ Some a)))) }
{
    if place < writes.len() {
        edges.push((writes[place], to))?;
    }
    Ok(())
}

impl ForkWords {
    /// No writes. Fails for want of memory alone. It takes 32 bytes an operation and 16 a variable.
    pub(crate) fn new(alloc: Global, index: &LongIndex) -> Result<ForkWords, AllocError>
        ensures { IfOk result (HasForkSizes index.now) }
    {
        let operations = index.operations() as usize;
        Ok(ForkWords {
            past: vec![in alloc; 0; operations]?,
            future: vec![in alloc; 0; operations]?,
            of_variable: vec![in alloc; 0; index.variables() as usize]?,
        })
    }
}

/// How many groups of 128 it takes for so many places.
pub(crate) fn groups(count: usize) -> usize
    ensures each { (g : ℕ) → g < result → g * 128 < count }
    ensures enough { count ≤ result * 128 }
{
    if count % 128 == 0 {
        count / 128
    } else {
        count / 128 + 1
    }
}
