//! The cases of a desk, on a board whose marks are tokens of the files.

ghost use Rattle.std.specs.Prelude.{◌≡◌, ◌≢◌, ◌<◌, ◌≤◌, ◌↔◌, ℕ, ◌∷◌, ◌++◌, [], false, length, option_copied, slice_get};
ghost use Rattle.std.specs.Prelude.{IfOk, IfErr, IfSome, IsNone, IsSome, IsTrue, MatchOption, None, OnOk, OnErr, Some};
ghost use Rattle.live_case_board.specs.Boards.{CaseState, fresh_case, row_of, handed_out, refuted};
ghost use Rattle.live_case_board.specs.Events.{IsChanged, IsIdleAt, IsDueOf, IsStanding};
ghost use Rattle.live_case_board.specs.CaseFiles.{AreRowsFor, HasPiece};
ghost use Rattle.live_case_desk.specs.Files.{PassesFor};
ghost use Rattle.live_case_desk.specs.Answers.{IsTrueAnswer};
ghost use Rattle.live_case_desk.specs.Steps.Cases.{IsFiled, IsPut, refusal_of_ticket, refusal_of_verdict};

use crate::shelf::Shelf;
use crate::shelf_name::ShelfName;
use crate::ticket::Ticket;
use crate::token::Token;
use crate::verdict::Verdict;
use cert_check::CaseFile;
use live_case_board::{Answer, Board, BoardError, CaseRows, MAX_CASES, Piece};
use model_history::OpId;
use pattern_check::{Pattern, Refutable};
use std::alloc::{AllocError, Global};
use std::marker::Model;
use std::sync::Wait;

/// The board of a desk. What it says of a case is true of the file that the case's token shows.
#[derive(Drop)]
pub struct Cases<O: Refutable, K: ShelfName> {
    board: Board<Token<O, K>>,
}

impl<O: Refutable, K: ShelfName> Model for Cases<O, K> {
    ghost use Rattle.std.specs.Prelude.{List};
    ghost use Rattle.live_case_board.specs.Boards.{CaseState};
    ghost use Rattle.live_case_desk.specs.Files.{FileAt, AreTrueCases};

    ghost Value = { List (CaseState (FileAt O.Start O.Call O.Ret)) };

    ghost view = { λ c. c.board };

    ghost invariant = { λ c. AreTrueCases O.answer O.passes c.board };
}

impl<O: Refutable, K: ShelfName> Cases<O, K> {
    /// No cases, with room for 64.
    pub fn new(alloc: Global) -> Result<Cases<O, K>, AllocError>
        ensures { IfOk result (λ c. c ≡ []) }
    {
        let board = Board::new(alloc)?;
        Ok(Cases { board })
    }

    /// Whether 64 cases are filed.
    fn is_full(&self) -> bool
        ensures { IsTrue result ↔ (MAX_CASES ≤ length self.now) }
    {
        self.board.cases() >= MAX_CASES
    }

    /// Places a file on the shelf and files its case with these rows. The `Err` has the file where 64 cases are filed, and none
    /// where memory runs out.
    pub fn file_or_back(
        &mut self,
        rt: &impl Wait,
        shelf: &Shelf<O>,
        file: CaseFile<O>,
        rows: CaseRows,
    ) -> Result<Ticket<O, K>, Option<CaseFile<O>>>
        requires shelf { shelf.now ≡ K.shelf }
        requires rows { AreRowsFor file rows }
        ensures file { IfOk result (λ t. t.file ≡ file) }
        ensures filed { IfOk result (λ t. IsFiled t rows self.old self.new) }
        ensures back { IfErr result (λ back. IfSome back (λ f. f ≡ file)) }
        ensures full { IfErr result (λ back. IsSome back → MAX_CASES ≤ length self.old) }
        ensures unchanged { OnErr result (self.new ≡ self.old) }
    {
        if self.is_full() {
            drop(rows);
            return Err(Some(file));
        }
        let Ok(token) = shelf.place(rt, file) else {
            drop(rows);
            return Err(None);
        };
        match self.file(token.again(), rows) {
            Ok(number) => Ok(Ticket::of(number as u32, token)),
            Err(_full) => {
                drop(token);
                Err(None)
            }
        }
    }

    /// Files a case, and gives its number.
    fn file(&mut self, token: Token<O, K>, rows: CaseRows) -> Result<usize, BoardError>
        requires rows { AreRowsFor token.file rows }
        ensures number { IfOk result (λ number. number ≡ length self.old) }
        ensures filed { OnOk result (self.new ≡ self.old ++ fresh_case token rows ∷ []) }
        ensures refused { IfErr result (λ e. (e ≡ BoardError.Full) × (MAX_CASES ≤ length self.old)) }
        ensures unchanged { OnErr result (self.new ≡ self.old) }
    {
        self.board.file(token, rows)
    }

    /// Hands out the next piece, as the board does.
    pub fn take(&mut self) -> Option<(Ticket<O, K>, OpId)>
        ensures idle { IsNone result → (number : ℕ) → IsIdleAt self.old number }
        ensures none { IsNone result → self.new ≡ self.old }
        ensures due { IfSome result (λ r. IsDueOf self.old (record { number = r.0.number; op = r.1 })) }
        ensures taken { IfSome result (λ r. IsChanged r.0.number (λ s. handed_out s r.1) self.old self.new) }
        ensures piece { IfSome result (λ r. HasPiece r.0.file r.1) }
    {
        let piece = self.next_piece()?;
        Some((self.ticket_of(piece.number), piece.op))
    }

    /// The piece that is handed out next.
    fn next_piece(&mut self) -> Option<Piece>
        ensures idle { IsNone result → (number : ℕ) → IsIdleAt self.old number }
        ensures none { IsNone result → self.new ≡ self.old }
        ensures due { IfSome result (λ p. IsDueOf self.old p) }
        ensures taken { IfSome result (λ p. IsChanged p.number (λ s. handed_out s p.op) self.old self.new) }
        ensures filed { IfSome result (λ p. p.number < length self.new) }
        ensures piece { IfSome result (λ p. (s : CaseState _) → slice_get self.new p.number ≡ Some s → HasPiece s.mark.file p.op) }
    {
        self.board.take()
    }

    /// The ticket of a case.
    fn ticket_of(&self, number: usize) -> Ticket<O, K>
        requires { number < length self.now }
        ensures number { result.number ≡ number }
        ensures file { (s : CaseState _) → slice_get self.now number ≡ Some s → result.file ≡ s.mark.file }
    {
        let _cases = self.board.cases();
        let Some(mark) = self.board.mark(number) else {
            unreachable!();
        };
        Ticket::of(number as u32, mark.again())
    }

    /// A case of a ticket's number and place has the ticket's file. It does nothing: what it ensures is the law.
    fn agree(&self, shelf: &Shelf<O>, ticket: &Ticket<O, K>)
        requires { shelf.now ≡ K.shelf }
        ensures { (s : CaseState _) → slice_get self.now ticket.now.number ≡ Some s
            → s.mark.place ≡ ticket.now.place → s.mark.file ≡ ticket.now.file }
    {
        if let Some(mark) = self.board.mark(ticket.index()) {
            shelf.agree(mark, ticket.token());
        }
    }

    /// Puts a verdict, as the board does.
    pub fn put(&mut self, shelf: &Shelf<O>, verdict: &Verdict<O, K>) -> Result<(), BoardError>
        requires { shelf.now ≡ K.shelf }
        ensures accepted { IfOk result (λ _. refusal_of_verdict self.old verdict.now ≡ None) }
        ensures filled { OnOk result (IsPut verdict.now self.old self.new) }
        ensures refused { IfErr result (λ e. refusal_of_verdict self.old verdict.now ≡ Some e) }
        ensures unchanged { OnErr result (self.new ≡ self.old) }
    {
        let ticket = verdict.ticket();
        self.agree(shelf, ticket);
        self.board.put(
            ticket.index(),
            ticket.token(),
            verdict.op(),
            verdict.outcome(),
        )
    }

    /// Takes a pattern against a case, as the board does. The pattern has to pass its test.
    #[tactic(auto, using(crate::proofs::TrueCases::refusals_agree))]
    pub fn refute(
        &mut self,
        shelf: &Shelf<O>,
        ticket: &Ticket<O, K>,
        pattern: Pattern,
    ) -> Result<(), BoardError>
        requires shelf { shelf.now ≡ K.shelf }
        requires passes { PassesFor O.passes ticket.now.file pattern }
        ensures accepted { IfOk result (λ _. refusal_of_ticket self.old ticket.now ≡ None) }
        ensures refuted { OnOk result (IsChanged ticket.now.number (λ s. refuted s pattern) self.old self.new) }
        ensures refused { IfErr result (λ e. refusal_of_ticket self.old ticket.now ≡ Some e) }
        ensures unchanged { OnErr result (self.new ≡ self.old) }
    {
        self.agree(shelf, ticket);
        self.board
            .refute(ticket.index(), ticket.token(), pattern, true)
    }

    /// The answer for a case, if there is one of the ticket's number and place.
    pub fn ask(&self, shelf: &Shelf<O>, ticket: &Ticket<O, K>) -> Result<Answer, BoardError>
        requires { shelf.now ≡ K.shelf }
        ensures answer { IfOk result (λ a. (s : CaseState _) → slice_get self.now ticket.now.number ≡ Some s → IsStanding s a) }
        ensures truth { IfOk result (IsTrueAnswer O.answer O.passes ticket.now.file) }
        ensures refused { IfErr result (λ e. refusal_of_ticket self.now ticket.now ≡ Some e) }
    {
        self.agree(shelf, ticket);
        self.board.ask(ticket.index(), ticket.token())
    }

    /// The pattern that was accepted against a case.
    pub fn pattern(
        &self,
        shelf: &Shelf<O>,
        ticket: &Ticket<O, K>,
    ) -> Result<Option<&Pattern>, BoardError>
        requires { shelf.now ≡ K.shelf }
        ensures pattern { IfOk result (λ p. (s : CaseState _) → slice_get self.now ticket.now.number ≡ Some s
            → option_copied p ≡ s.pattern) }
        ensures passes { IfOk result (λ p. IfSome p (λ r. PassesFor O.passes ticket.now.file r.now)) }
        ensures refused { IfErr result (λ e. refusal_of_ticket self.now ticket.now ≡ Some e) }
    {
        self.agree(shelf, ticket);
        self.board.pattern(ticket.index(), ticket.token())
    }

    /// Whether a case of the ticket's number and place has a row for an operation without a verdict.
    pub fn is_open(&self, ticket: &Ticket<O, K>, op: OpId) -> bool
        ensures is_open { IsTrue result → (s : CaseState _) → slice_get self.now ticket.now.number ≡ Some s → row_of s op ≡ Some None }
        ensures closed { result ≡ false → (s : CaseState _) → slice_get self.now ticket.now.number ≡ Some s
            → s.mark.place ≡ ticket.now.place → row_of s op ≢ Some None }
    {
        match self.board.row(ticket.index(), ticket.token(), op) {
            Ok(Some(None)) => true,
            Ok(Some(Some(_)) | None) | Err(_) => false,
        }
    }
}
