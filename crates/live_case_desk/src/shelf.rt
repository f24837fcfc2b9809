//! The shelf of a desk, to which case files are added and from which none is taken.

ghost use Rattle.std.specs.Prelude.{◌≡◌, IfOk};

use crate::shelf_name::ShelfName;
use crate::token::Token;
use cert_check::CaseFile;
use live_case_board::Mark;
use model_object_trait::SeqObject;
use std::alloc::{AllocError, Global};
use std::marker::Model;
use std::sync::Wait;

/// Case files, which stay where they were placed for as long as the shelf lasts. None is compared or copied.
#[derive(Drop)]
pub struct Shelf<O: SeqObject> {
    files: boxcar::Vec<CaseFile<O>>,
}

impl<O: SeqObject> Model for Shelf<O> {
    ghost use Rattle.boxcar.specs.Table.{Shelves};

    ghost Value = { Shelves };

    ghost view = { λ s. s.files };
}

impl<O: SeqObject> Shelf<O> {
    /// An empty shelf.
    ///
    /// Fails for want of memory alone. O(1).
    pub fn new(alloc: Global) -> Result<Shelf<O>, AllocError> {
        let files = boxcar::Vec::new(alloc)?;
        Ok(Shelf { files })
    }

    /// Places a file. It is dropped where memory runs out.
    pub(crate) fn place<K: ShelfName>(
        &self,
        rt: &impl Wait,
        file: CaseFile<O>,
    ) -> Result<Token<O, K>, AllocError>
        requires { self.now ≡ K.shelf }
        ensures { IfOk result (λ t. t.file ≡ file) }
    {
        match self.files.push_shown(rt, file) {
            Ok(pushed) => Ok(Token::of(pushed)),
            Err(back) => {
                drop(back);
                Err(AllocError)
            }
        }
    }

    /// The file of a token.
    pub(crate) fn file<'a, K: ShelfName>(&'a self, token: &Token<O, K>) -> &'a CaseFile<O>
        requires { self.now ≡ K.shelf }
        ensures { result.now ≡ token.now.file }
    {
        self.files.value(token.pushed())
    }

    /// Tokens of one place are of one file. It does nothing: what it ensures is the law.
    pub(crate) fn agree<K: ShelfName>(&self, a: &Token<O, K>, b: &Token<O, K>)
        requires { self.now ≡ K.shelf }
        ensures { a.now.place ≡ b.now.place → a.now.file ≡ b.now.file }
    {
        if a.place() == b.place() {
            self.files.agrees(a.pushed(), b.pushed());
        }
    }
}
