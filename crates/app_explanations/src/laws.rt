//! Laws of what is found of a history: the contract of each function is the law, and the function does nothing.

ghost use Rattle.app_orders.specs.declared.length.Length.{Length};
ghost use Rattle.app_explanations.specs.Agreeing.{Agree};
ghost use Rattle.app_explanations.specs.Report.{IsReportOf};

use app_findings::Findings;
use json_histories::AnyHistory;

/// Two reports on one history agree: that of `judge` and the answers that `explain` shows in words, as JSON or in a list, also where the
/// history is that of a log.
pub fn reports_on_one_history_agree()
    ensures { (long : Length) (history : AnyHistory) (first second : Findings) → IsReportOf long history first
        → IsReportOf long history second → Agree history first second }
{}
