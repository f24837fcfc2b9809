//! Forms that are read token by token: that of one value, and that of the elements of a list.

ghost use Rattle.std.specs.Prelude.{◌≡◌, ◌≢◌, ◌<◌, ◌≤◌, List, [], length, IfOk, IfErr, OnOk};
ghost use Rattle.serde_json.specs.Data.{Data};
ghost use Rattle.json_bounded.specs.Steps.Reading.{AreRefused, IsRefused};
ghost use Rattle.json_histories.specs.Json.{list};
ghost use Rattle.json_histories.specs.Reads.{IsRead};
ghost use Rattle.json_tokens.specs.Tokens.{IsRest, IsValue};

use json::Reader;
use json_bounded::TextError;
use json_tokens::{Gather, gather_rest, next_list};
use std::alloc::Global;

/// A type whose values have a form as JSON values.
pub(crate) trait Formed: Drop + Sized {
    /// Its form.
    ghost form: { Self → Data };

    /// The item whose form the value that comes next is. It passes the value in any case.
    ///
    /// `NotJson` exactly where no value comes next, and `Memory` only where an allocation was refused. O(n) for n bytes of the value.
    fn next(alloc: Global, reader: &mut Reader<'_>, depth: usize) -> Result<Option<Self>, TextError>
        ensures read { IfOk result (λ item. IsValue (λ d. IsRead form d item) depth reader.old reader.new) }
        ensures shorter { OnOk result (length reader.new < length reader.old) }
        ensures refused { IfErr result (IsRefused depth reader.old) };
}

/// The parts of a list that were taken, one after the other, towards the whole that they make.
pub(crate) trait Parts: Gather + Drop + Sized {
    /// What the parts make.
    type Whole: Drop;

    /// The parts that make it.
    ghost parts: { Self.Whole → List Data };

    /// None of the parts.
    fn none(alloc: Global) -> Self
        ensures { Self.is_of result [] };

    /// The whole, where these are all of its parts.
    fn whole(self) -> Option<Self::Whole>
        ensures { (ds : List Data) → Self.is_of self ds → IsRead parts ds result };

    ghost refuses_parts: { (ds : List Data) (whole : Self.Whole) → Self.refuses ds → ds ≢ parts whole };
}

/// The whole whose parts the elements of the value that comes next are, where this is a list. It passes the value in any case.
///
/// `NotJson` exactly where no value comes next, and `Memory` only where an allocation was refused. O(n) for n bytes of the value, beside
/// what `take_next` takes.
pub(crate) fn next_whole<P: Parts>(
    alloc: Global,
    reader: &mut Reader<'_>,
    depth: usize,
) -> Result<Option<P::Whole>, TextError>
    ensures read { IfOk result
        (λ whole. IsValue (λ d. IsRead (λ w. list (P.parts w)) d whole) depth reader.old reader.new) }
    ensures shorter { OnOk result (length reader.new < length reader.old) }
    ensures refused { IfErr result (IsRefused depth reader.old) }
{
    let mut parts = P::none(alloc);
    if next_list(alloc, reader, depth, &mut parts)? {
        Ok(parts.whole())
    } else {
        Ok(None)
    }
}

/// The whole whose parts the elements of the rest of a list are. It passes the rest in any case.
///
/// `NotJson` exactly where no rest of a list comes next, and `Memory` only where an allocation was refused. O(n) for n bytes of the rest,
/// beside what `take_next` takes.
pub(crate) fn next_rest<P: Parts>(
    alloc: Global,
    reader: &mut Reader<'_>,
    depth: usize,
) -> Result<Option<P::Whole>, TextError>
    ensures read { IfOk result (λ whole. IsRest (λ ds. IsRead P.parts ds whole) depth reader.old reader.new) }
    ensures shorter { OnOk result (length reader.new ≤ length reader.old) }
    ensures refused { IfErr result (AreRefused depth reader.old) }
{
    let mut parts = P::none(alloc);
    if gather_rest(alloc, reader, depth, &mut parts)? {
        Ok(parts.whole())
    } else {
        Ok(None)
    }
}
