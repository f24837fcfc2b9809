//! Tokens, each of which ties a place of a shelf to the case file there.

ghost use Rattle.std.specs.Prelude.{◌≡◌};
ghost use Rattle.boxcar.specs.Table.{Shows};

use crate::shelf_name::ShelfName;
use boxcar::Pushed;
use cert_check::CaseFile;
use live_case_board::Mark;
use model_object_trait::SeqObject;
use std::marker::{Model, PhantomData};

/// Shows which file is at a place of a shelf.
#[derive(Drop)]
pub struct Token<O: SeqObject, K: ShelfName> {
    pushed: Pushed<CaseFile<O>>,
    of: PhantomData<K>,
}

impl<O: SeqObject, K: ShelfName> Model for Token<O, K> {
    ghost use Rattle.boxcar.specs.Table.{Shows};
    ghost use Rattle.live_case_desk.specs.Files.{FileAt};

    ghost Value = { FileAt O.Start O.Call O.Ret };

    ghost view = { λ t. record { place = t.pushed.index; file = t.pushed.value } };

    ghost invariant = { λ t. Shows K.shelf t.pushed };
}

impl<O: SeqObject, K: ShelfName> Token<O, K> {
    /// The token of a file that was pushed.
    pub(crate) fn of(pushed: Pushed<CaseFile<O>>) -> Token<O, K>
        requires { Shows K.shelf pushed }
        ensures { result ≡ record { place = pushed.index; file = pushed.value } }
    {
        Token {
            pushed,
            of: PhantomData,
        }
    }

    /// What shows where the file is.
    pub(crate) fn pushed(&self) -> &Pushed<CaseFile<O>>
        ensures shows { Shows K.shelf result.now }
        ensures place { result.now.index ≡ self.now.place }
        ensures file { result.now.value ≡ self.now.file }
    {
        &self.pushed
    }

    /// Another token of the same file.
    pub(crate) fn again(&self) -> Token<O, K>
        ensures { result ≡ self.now }
    {
        Token {
            pushed: self.pushed.again(),
            of: PhantomData,
        }
    }
}

impl<O: SeqObject, K: ShelfName> Mark for Token<O, K> {
    ghost place = { λ t. t.place };

    fn place(&self) -> usize {
        self.pushed.index()
    }
}
