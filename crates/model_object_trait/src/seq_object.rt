//! The trait of an object with a sequential specification, and the laws of its answers.

ghost use Rattle.std.specs.Prelude.{◌≡◌, ◌↔◌, List, [], ◌∷◌, ◌++◌, Bool, true, false, IsTrue, IfOk, OnErr};

use std::alloc::{AllocError, Global};

/// An object with a sequential specification: each call has one answer, which the start and the calls before it
/// determine.
///
/// The laws below the methods hold for every implementation, so code over a `SeqObject` may rely on them.
pub trait SeqObject: Drop + Sized {
    /// What a session asks of the object.
    type Call: Copy + Eq + Send + Sync;
    /// What the object answers.
    type Ret: Copy + Eq + Send + Sync;
    /// What the object holds before the first call.
    type Start: Drop + Send + Sync;

    /// The answer to a call after the earlier calls, from a start.
    ghost answer: { Self.Start → List Self.Call → Self.Call → Self.Ret };

    /// A state represents a start and the calls since.
    ghost stands: { Self → Self.Start → List Self.Call → Type 0 };

    /// A query changes no later answer.
    ghost query: { Self.Call → Bool };

    /// The answer to the first call may depend on whether the second came before it.
    ghost depends: { Self.Call → Self.Call → Bool };

    /// The second call settles the answer to the first: what came before it makes no difference any more.
    ghost settles: { Self.Call → Self.Call → Bool };

    /// A return is of a kind that the call may have.
    ghost matches: { Self.Call → Self.Ret → Bool };

    /// The start that needs no table of initial values.
    ghost plain_start: { Self.Start };

    /// What may be a start.
    ghost is_start: { Self.Start → Type 0 };

    /// The plain start.
    fn plain(alloc: Global) -> Result<Self::Start, AllocError>
        ensures { IfOk result (λ s. s ≡ plain_start) };

    /// An equal start.
    fn copy_start(alloc: Global, start: &Self::Start) -> Result<Self::Start, AllocError>
        requires { is_start start.now }
        ensures { IfOk result (λ s. s ≡ start.now) };

    /// A start that gives the call the same answer as this start, whatever calls came before it. It may hold less.
    fn start_for(
        alloc: Global,
        start: &Self::Start,
        call: &Self::Call,
    ) -> Result<Self::Start, AllocError>
        requires { is_start start.now }
        ensures start { IfOk result (λ s. is_start s) }
        ensures alike { IfOk result (λ s. (cs : List Self.Call) → answer s cs call.now ≡ answer start.now cs call.now) };

    /// A state with no calls.
    fn fresh(alloc: Global, start: &Self::Start) -> Result<Self, AllocError>
        requires { is_start start.now }
        ensures { IfOk result (λ o. stands o start.now []) };

    /// An equal state.
    ///
    /// Fails for want of memory alone. It takes time and room for what the state holds.
    fn again(&self, alloc: Global) -> Result<Self, AllocError>
        ensures { IfOk result (λ o. o ≡ self.now) };

    /// Answers a call and takes it in. A refusal leaves the state unchanged.
    fn apply(&mut self, call: Self::Call) -> Result<Self::Ret, AllocError>
        ensures answers { (s : Self.Start) (cs : List Self.Call) → stands self.old s cs → IfOk result (λ r. r ≡ answer s cs call) }
        ensures takes_in { (s : Self.Start) (cs : List Self.Call) → stands self.old s cs
            → IfOk result (λ _. stands self.new s (cs ++ call ∷ [])) }
        ensures err { OnErr result (self.new ≡ self.old) };

    /// Whether the call changes no later answer.
    fn is_query(call: &Self::Call) -> bool
        ensures { result ≡ query call.now };

    /// Whether the answer to the call may depend on another that came before it.
    fn depends_on(call: &Self::Call, other: &Self::Call) -> bool
        ensures { result ≡ depends call.now other.now };

    /// Whether another call settles the answer to the call.
    fn is_settled_by(call: &Self::Call, other: &Self::Call) -> bool
        ensures { result ≡ settles call.now other.now };

    /// Whether the answer to the call may depend on any that came before it.
    fn depends_on_any(call: &Self::Call) -> bool
        ensures { result ≡ false → (other : Self.Call) → depends call.now other ≡ false };

    /// Whether the return is of a kind that the call may have.
    fn fits(call: &Self::Call, ret: &Self::Ret) -> bool
        ensures { result ≡ matches call.now ret.now };

    ghost plain_is_start: { is_start plain_start };

    ghost answer_fits: { (s : Self.Start) (cs : List Self.Call) (c : Self.Call) → matches c (answer s cs c) ≡ true };

    ghost query_changes_nothing: { (s : Self.Start) (before after : List Self.Call) (q c : Self.Call) → query q ≡ true
        → answer s (before ++ q ∷ after) c ≡ answer s (before ++ after) c };

    ghost others_change_nothing: { (s : Self.Start) (before after : List Self.Call) (o c : Self.Call) → depends c o ≡ false
        → answer s (before ++ o ∷ after) c ≡ answer s (before ++ after) c };

    ghost settled: { (s : Self.Start) (before after : List Self.Call) (o c : Self.Call) → settles c o ≡ true
        → answer s (before ++ o ∷ after) c ≡ answer s (o ∷ after) c };

    ghost equal_calls: { (a b : Self.Call) → (Self.Call.eq a b ≡ true) ↔ (a ≡ b) };

    ghost equal_rets: { (a b : Self.Ret) → (Self.Ret.eq a b ≡ true) ↔ (a ≡ b) };
}
