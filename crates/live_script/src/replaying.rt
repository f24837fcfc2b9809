//! Running a script, and writing the lines of its replies.

ghost use Rattle.std.specs.Prelude.{◌≡◌, IfErr, IfOk, string_bytes};
ghost use Rattle.std.specs.List.{flat_map};
ghost use Rattle.json_histories.specs.AnyForm.{IsJson};
ghost use Rattle.live_script.specs.AnyScriptForm.{form_of, IsAnyScript, IsRefusedFor};
ghost use Rattle.live_script.specs.Replays.{IsReplay, IsReplayOf};
ghost use Rattle.live_script.specs.ReplyLines.{line_for};
ghost use Rattle.live_script.specs.declared.any_script.AnyScript.{AnyScript};

use crate::any_script::AnyScript;
use crate::lines::reply_line;
use crate::reader::read_script;
use crate::script::Script;
use crate::script_error::ScriptError;
use json_histories::Named;
use live_simulation::Reply;
use pattern_check::Refutable;
use std::alloc::{AllocError, Global};

/// The lines of the replies to the steps of the script that the text is, one after the other. The steps and replies before each reply
/// determine it.
///
/// [`read_script`] states the form of a script, and the refusals in their order. `Memory` only where an allocation was refused. It costs
/// O(n) for a text of n bytes, what [`World::run`](world::World::run) does, and what [`reply_line`] does for each reply.
pub fn replay(alloc: Global, text: &[u8]) -> Result<String, ScriptError>
    ensures replayed { IfOk result (λ lines. (script : AnyScript) × IsJson text.now (form_of script) × IsAnyScript script
        × IsReplay script (string_bytes lines)) }
    ensures refused { IfErr result (IsRefusedFor text.now) }
{
    let script = read_script(alloc, text)?;
    Ok(replay_script(alloc, script)?)
}

/// The lines of the replies to the steps of a script.
fn replay_script(alloc: Global, script: AnyScript) -> Result<String, AllocError>
    ensures { IfOk result (λ text. IsReplay script (string_bytes text)) }
{
    match script {
        AnyScript::Register(script) => replay_of(alloc, script),
        AnyScript::Counter(script) => replay_of(alloc, script),
        AnyScript::Set(script) => replay_of(alloc, script),
        AnyScript::Queue(script) => replay_of(alloc, script),
        AnyScript::Memory(script) => replay_of(alloc, script),
        AnyScript::Counters(script) => replay_of(alloc, script),
        AnyScript::Sets(script) => replay_of(alloc, script),
        AnyScript::Queues(script) => replay_of(alloc, script),
    }
}

/// The same for a script of one object.
fn replay_of<O: Named + Refutable>(alloc: Global, script: Script<O>) -> Result<String, AllocError>
    ensures { IfOk result (λ text.
        IsReplayOf O.matches O.answer O.passes O.name O.operation_form O.start_form script (string_bytes text)) }
{
    let replies = script.run(alloc)?;
    let text = reply_lines::<O>(alloc, replies.as_slice());
    drop(replies);
    text
}

/// The lines of replies, one after the other.
fn reply_lines<O: Named>(alloc: Global, replies: &[Reply<O>]) -> Result<String, AllocError>
    ensures { IfOk result (λ text.
        string_bytes text ≡ flat_map (line_for O.name O.operation_form O.start_form) replies.now) }
{
    let mut text = String::new(alloc);
    for reply in replies {
        let line = reply_line::<O>(alloc, reply)?;
        text.push_str(line.as_str())?;
    }
    Ok(text)
}
