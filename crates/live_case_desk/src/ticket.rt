//! Tickets, by which callers name the cases that they filed.

ghost use Rattle.std.specs.Prelude.{◌≡◌, ◌↔◌, IsTrue};
ghost use Rattle.live_case_desk.specs.Files.{file_at, IsSameCase};

use crate::desk::Desk;
use crate::shelf_name::ShelfName;
use crate::token::Token;
use cert_check::CaseFile;
use live_case_board::Mark;
use model_object_trait::SeqObject;
use pattern_check::Refutable;
use std::marker::Model;

/// Names a case of a desk: its number, and its file.
///
/// Give it only to the desk that gave it.
#[derive(Drop)]
pub struct Ticket<O: SeqObject, K: ShelfName> {
    number: u32,
    token: Token<O, K>,
}

impl<O: SeqObject, K: ShelfName> Model for Ticket<O, K> {
    ghost use Rattle.live_case_desk.specs.Files.{CaseOf};

    ghost Value = { CaseOf O.Start O.Call O.Ret };

    ghost view = { λ t. record { number = t.number; place = t.token.place; file = t.token.file } };
}

impl<O: SeqObject, K: ShelfName> Ticket<O, K> {
    /// The ticket of a case.
    pub(crate) fn of(number: u32, token: Token<O, K>) -> Ticket<O, K>
        ensures { result ≡ record { number = number; place = token.place; file = token.file } }
    {
        Ticket { number, token }
    }

    /// The number of the case, in the order of filing from 0.
    pub fn number(&self) -> u32
        ensures { result ≡ self.now.number }
    {
        self.number
    }

    /// The place of the case on its board: its number.
    pub(crate) fn index(&self) -> usize
        ensures { result ≡ self.now.number }
    {
        self.number as usize
    }

    /// What shows where the file is.
    pub(crate) fn token(&self) -> &Token<O, K>
        ensures { result.now ≡ file_at self.now }
    {
        &self.token
    }

    /// Whether the other ticket is of the same case.
    pub(crate) fn is_same_case(&self, other: &Ticket<O, K>) -> bool
        ensures { IsTrue result ↔ IsSameCase self.now other.now }
    {
        self.number == other.number && self.token.place() == other.token.place()
    }

    /// Another ticket of the same case.
    pub fn again(&self) -> Ticket<O, K>
        ensures { result ≡ self.now }
    {
        Ticket {
            number: self.number,
            token: self.token.again(),
        }
    }
}

impl<O: Refutable, K: ShelfName> Ticket<O, K> {
    /// The file of the case, on the shelf of its desk.
    pub fn file<'a>(&self, desk: &'a Desk<O, K>) -> &'a CaseFile<O>
        ensures { result.now ≡ self.now.file }
    {
        desk.file_of(&self.token)
    }
}
