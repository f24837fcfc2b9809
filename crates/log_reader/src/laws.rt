//! Laws of texts and their logs. The functions do nothing: what they ensure is the law.

ghost use Rattle.std.specs.Prelude.{◌≡◌, ℕ, Bool, true, List, [], ◌∷◌, Some, codes, slice_get};
ghost use Rattle.serde_json.specs.Data.{Data, string};
ghost use Rattle.log_events.specs.declared.event.Event.{Event as AnyEvent};
ghost use Rattle.log_reader.specs.EventLines.{IsSaidIn};
ghost use Rattle.log_reader.specs.Forms.{said_in};
ghost use Rattle.log_reader.specs.Logs.{IsLogOf, IsRefusedLog, Log};
ghost use Rattle.log_reader.specs.NameLaw.{FitsWord};
ghost use Rattle.log_reader.specs.Names.{Name, value_name};
ghost use Rattle.log_reader.specs.NameTexts.{IsNameText};
ghost use Rattle.log_reader.specs.OrderLines.{SaysOrderFirst};
ghost use Rattle.log_reader.specs.declared.refusal.Refusal.{Refusal as AnyRefusal};

/// A text has one log, or one refusal, and not both.
pub fn texts_have_one_log()
    ensures log { (text : List ℕ) (a b : Log) (t u : Bool) → IsLogOf text a t → IsLogOf text b u → (a ≡ b) × (t ≡ u) }
    ensures refusal { (text : List ℕ) (r s : AnyRefusal) → IsRefusedLog text r → IsRefusedLog text s → r ≡ s }
    ensures either { (text : List ℕ) (log : Log) (torn : Bool) (r : AnyRefusal) → IsLogOf text log torn → ¬ IsRefusedLog text r }
{}

/// Each event of a log is what its line says: the line that has its number is JSON of this event, with the names that the log has at the
/// numbers of the event.
pub fn lines_say_events()
    ensures { (text : List ℕ) (log : Log) (torn : Bool) → IsLogOf text log torn
        → (place : ℕ) (e : AnyEvent) → slice_get log.events place ≡ Some e → IsSaidIn text log place e }
{}

/// A log is in the order of time exactly where the first line of its text that is not blank says so.
pub fn first_lines_say_order()
    ensures said { (text : List ℕ) (log : Log) (torn : Bool) → IsLogOf text log torn → log.in_time ≡ true → SaysOrderFirst text }
    ensures kept { (text : List ℕ) (log : Log) (torn : Bool) → IsLogOf text log torn → SaysOrderFirst text → log.in_time ≡ true }
{}

/// Two JSON values with one name are the same, where their numbers fit 64 bits.
pub fn names_tell_values()
    ensures { (d e : Data) (name : Name) → FitsWord d → FitsWord e → value_name d ≡ Some name → value_name e ≡ Some name → d ≡ e }
{}

/// Different names have different texts: a text is that of one name.
pub fn texts_tell_names()
    ensures { (text : List ℕ) (name other : Name) → IsNameText name text → IsNameText other text → name ≡ other }
{}

/// An event with a note is the event without it.
pub fn notes_say_nothing()
    ensures begin { (client call note : Data)
        → said_in (string (codes "begin") ∷ client ∷ call ∷ note ∷ []) ≡ said_in (string (codes "begin") ∷ client ∷ call ∷ []) }
    ensures end { (client answer note : Data)
        → said_in (string (codes "end") ∷ client ∷ answer ∷ note ∷ []) ≡ said_in (string (codes "end") ∷ client ∷ answer ∷ []) }
    ensures fail { (client note : Data)
        → said_in (string (codes "fail") ∷ client ∷ note ∷ []) ≡ said_in (string (codes "fail") ∷ client ∷ []) }
    ensures lost { (client note : Data)
        → said_in (string (codes "lost") ∷ client ∷ note ∷ []) ≡ said_in (string (codes "lost") ∷ client ∷ []) }
{}
