//! Taking the elements of a list, one after the other, as far as they are wanted.

ghost use Rattle.std.specs.Prelude.{◌∷◌, ◌<◌, ◌≤◌, List, [], length, IfOk, IfErr, OnOk};
ghost use Rattle.json.specs.Reads.{token_of};
ghost use Rattle.serde_json.specs.Data.{Data};
ghost use Rattle.json_bounded.specs.Steps.Reading.{AreRefused, IsRefused};
ghost use Rattle.json_tokens.specs.Gathers.{AreTaken, IsTaken, IsTakenList};
ghost use Rattle.json_tokens.specs.Tokens.{IsList, IsRest, IsValue};

use crate::passing::{next_token, pass_no_list};
use json::{Reader, Token};
use json_bounded::{TextError, walk_items};
use std::alloc::Global;

/// What the elements of a list are taken into.
pub trait Gather {
    /// These elements were taken, and no others.
    ghost is_of: { Self → List Data → Type 0 };

    /// No list of these elements is wanted.
    ghost refuses: { List Data → Type 0 };

    /// Takes the value that comes next as one more element, and returns whether a list that goes on with it may be wanted. It passes the
    /// value in any case.
    ///
    /// `NotJson` exactly where no value comes next, and `Memory` only where an allocation was refused.
    fn take_next(
        &mut self,
        alloc: Global,
        reader: &mut Reader<'_>,
        depth: usize,
    ) -> Result<bool, TextError>
        ensures taken { IfOk result
            (λ taken. IsValue (λ d. (ds : List Data) → is_of self.old ds → IsTaken is_of refuses self.new taken ds d)
            depth reader.old reader.new) }
        ensures shorter { OnOk result (length reader.new < length reader.old) }
        ensures refused { IfErr result (IsRefused depth reader.old) };
}

/// Takes the elements of the rest of a list, and returns whether they are wanted. It passes the whole list in any case.
///
/// `NotJson` exactly where no rest of a list comes next, and `Memory` only where an allocation was refused. O(n) for n bytes of the list,
/// beside what `take_next` takes.
pub fn gather_rest<G: Gather>(
    alloc: Global,
    reader: &mut Reader<'_>,
    depth: usize,
    gathered: &mut G,
) -> Result<bool, TextError>
    requires empty { G.is_of gathered.old [] }
    ensures read { IfOk result (λ taken. IsRest (AreTaken G.is_of G.refuses gathered.new taken) depth reader.old reader.new) }
    ensures shorter { OnOk result (length reader.new ≤ length reader.old) }
    ensures refused { IfErr result (AreRefused depth reader.old) }
{
    'elements: while !reader.take_end_array() {
        if !gathered.take_next(alloc, reader, depth)? {
            walk_items(reader, depth)?;
            return Ok(false);
        }
    }
    Ok(true)
}

/// Takes the elements of the value that begins with a token, and returns whether it is a list of wanted elements. It passes the value in
/// any case.
///
/// It serves a caller that took the token to see whether a text or a list comes. `NotJson` exactly where the token begins no value, and
/// `Memory` only where an allocation was refused. O(n) for n bytes of the value, beside what `take_next` takes.
pub fn gather_list<G: Gather>(
    alloc: Global,
    token: Token<'_>,
    reader: &mut Reader<'_>,
    depth: usize,
    gathered: &mut G,
) -> Result<bool, TextError>
    requires empty { G.is_of gathered.old [] }
    ensures read { IfOk result
        (λ taken. IsList (IsTakenList G.is_of G.refuses gathered.new taken) depth (token_of token.entry ∷ reader.old) reader.new) }
    ensures shorter { OnOk result (length reader.new ≤ length reader.old) }
    ensures refused { IfErr result (IsRefused depth (token_of token.entry ∷ reader.old)) }
{
    if let Token::BeginArray = token {
        if depth == 0 {
            return Err(TextError::NotJson);
        }
        return gather_rest(alloc, reader, depth - 1, gathered);
    }
    pass_no_list(alloc, token, reader, depth)?;
    Ok(false)
}

/// Takes the elements of the list that comes next, and returns whether a list comes, and its elements are wanted. It passes the value in
/// any case.
///
/// `NotJson` exactly where no value comes next, and `Memory` only where an allocation was refused. O(n) for n bytes of the value, beside
/// what `take_next` takes.
pub fn next_list<G: Gather>(
    alloc: Global,
    reader: &mut Reader<'_>,
    depth: usize,
    gathered: &mut G,
) -> Result<bool, TextError>
    requires empty { G.is_of gathered.old [] }
    ensures read { IfOk result
        (λ taken. IsList (IsTakenList G.is_of G.refuses gathered.new taken) depth reader.old reader.new) }
    ensures shorter { OnOk result (length reader.new < length reader.old) }
    ensures refused { IfErr result (IsRefused depth reader.old) }
{
    let token = next_token(reader)?;
    gather_list(alloc, token, reader, depth, gathered)
}
