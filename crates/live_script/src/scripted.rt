//! The trait of objects whose calls, returns and starts are kept whole where a reader of scripts cuts them.

ghost use Rattle.live_script.specs.Kept.{AreWholeStarts, IsWholeOperation};

use json_histories::Named;
use model_objects::{AddRemoveSet, Counter, Counters, Memory, Queue, Queues, Register, Sets};

/// An object whose calls, returns and starts have no more parts than a reader of scripts keeps.
pub(crate) trait Scripted: Named {
    ghost call_whole: { (call : Self.Call) → IsWholeOperation (Self.call_form call) };

    ghost return_whole: { (ret : Self.Ret) → IsWholeOperation (Self.return_form ret) };

    ghost start_kept: { (start : Self.Start) → Self.is_start start → AreWholeStarts (Self.start_form start) };
}

impl Scripted for Register {
    ghost use Rattle.live_script.specs.Laws.KeptForms.{register_call, register_return};

    ghost call_whole = { register_call };

    ghost return_whole = { register_return };

    ghost start_kept = { λ start is. tt };
}

impl Scripted for Counter {
    ghost use Rattle.live_script.specs.Laws.KeptForms.{counter_call, counter_return};

    ghost call_whole = { counter_call };

    ghost return_whole = { counter_return };

    ghost start_kept = { λ start is. tt };
}

impl Scripted for AddRemoveSet {
    ghost use Rattle.live_script.specs.Laws.KeptForms.{set_call, set_return};

    ghost call_whole = { set_call };

    ghost return_whole = { set_return };

    ghost start_kept = { λ start is. tt };
}

impl Scripted for Queue {
    ghost use Rattle.live_script.specs.Laws.KeptForms.{queue_call, queue_return};

    ghost call_whole = { queue_call };

    ghost return_whole = { queue_return };

    ghost start_kept = { λ start is. tt };
}

impl Scripted for Memory {
    ghost use Rattle.json_histories.specs.RegisterForm.{start_form};
    ghost use Rattle.live_script.specs.Laws.KeptForms.{memory_call, register_return, table_kept};

    ghost call_whole = { memory_call };

    ghost return_whole = { register_return };

    ghost start_kept = { λ start is. table_kept start_form (λ v. tt) start is.short };
}

impl Scripted for Counters {
    ghost use Rattle.json_histories.specs.Spelling.{no_start_form};
    ghost use Rattle.live_script.specs.Laws.KeptForms.{counter_return, counters_call, table_kept};

    ghost call_whole = { counters_call };

    ghost return_whole = { counter_return };

    ghost start_kept = { λ start is. table_kept no_start_form (λ v. tt) start is.short };
}

impl Scripted for Sets {
    ghost use Rattle.json_histories.specs.Spelling.{no_start_form};
    ghost use Rattle.live_script.specs.Laws.KeptForms.{set_return, sets_call, table_kept};

    ghost call_whole = { sets_call };

    ghost return_whole = { set_return };

    ghost start_kept = { λ start is. table_kept no_start_form (λ v. tt) start is.short };
}

impl Scripted for Queues {
    ghost use Rattle.json_histories.specs.Spelling.{no_start_form};
    ghost use Rattle.live_script.specs.Laws.KeptForms.{queue_return, queues_call, table_kept};

    ghost call_whole = { queues_call };

    ghost return_whole = { queue_return };

    ghost start_kept = { λ start is. table_kept no_start_form (λ v. tt) start is.short };
}
