//! Laws of every run of the world. The functions do nothing: what they ensure is the law.

ghost use Rattle.std.specs.Prelude.{◌↔◌, ◌∷◌, ◌++◌, [], ℕ, List};
ghost use Rattle.model_history.specs.History.{HistoryValue};
ghost use Rattle.live_simulation.specs.declared.step.StepOf.{StepOf as AnyStep};
ghost use Rattle.live_simulation.specs.declared.reply.ReplyOf.{ReplyOf as AnyReply};
ghost use Rattle.live_simulation.specs.Runs.{IsReply, IsRun, Replied};
ghost use Rattle.live_simulation.specs.Headline.{EachNoIsTrue, EachYesIsTrue, SealsAreCuts};

use cert_check::laws::explained_certificates_show_their_criterion;
use pattern_check::Refutable;

/// Runs are made step by step: a run is empty, or a run with one more step, whose reply that step and the steps and replies
/// before it determine.
pub fn runs_are_made_step_by_step<O: Refutable>()
    ensures none { (start : O.Start) (k : ℕ) → IsRun O.matches O.answer O.passes start k [] }
    ensures more { (start : O.Start) (k : ℕ) (es : List (Replied O.Start O.Call O.Ret)) (step : AnyStep O.Call O.Ret)
        (reply : AnyReply (HistoryValue O.Start O.Call O.Ret)) → IsRun O.matches O.answer O.passes start k (es ++ (step, reply) ∷ [])
        ↔ (IsRun O.matches O.answer O.passes start k es × IsReply O.matches O.answer O.passes start k es step reply) }
{}

/// In every run, each sealer that has finished has sealed a consistent cut of what its sessions recorded.
pub fn seals_are_consistent_cuts<O: Refutable>()
    ensures { (start : O.Start) (k : ℕ) (es : List (Replied O.Start O.Call O.Ret))
        → IsRun O.matches O.answer O.passes start k es → SealsAreCuts start k es }
{}

/// In every run, each yes is true: the history of the sealer that the case was filed from meets the criterion.
pub fn each_yes_is_true<O: Refutable>()
    ensures { (start : O.Start) (k : ℕ) (es : List (Replied O.Start O.Call O.Ret))
        → IsRun O.matches O.answer O.passes start k es → EachYesIsTrue start k es O.answer }
{
    explained_certificates_show_their_criterion::<O>();
}

/// In every run, each no is true: its kind excludes the criterion in the history of the sealer that the case was filed from,
/// which does not meet it.
pub fn each_no_is_true<O: Refutable>()
    ensures { (start : O.Start) (k : ℕ) (es : List (Replied O.Start O.Call O.Ret))
        → IsRun O.matches O.answer O.passes start k es → EachNoIsTrue start k es O.answer O.excluded }
{
    O::passing_patterns_exclude();
}
