//! The desk: its shelf of case files, its lock, and the calls that file cases, take pieces and ask for answers.

ghost use Rattle.std.specs.Prelude.{◌≡◌, ◌↔◌, IfOk, IfErr, IfSome, IsTrue, OnOk, Err};
ghost use Rattle.pattern_check.specs.declared.kind.Kind.{Kind as Kinds};
ghost use Rattle.cert_check.specs.Criteria.{Meets};
ghost use Rattle.live_case_board.specs.CaseFiles.{HasPiece};
ghost use Rattle.live_case_desk.specs.Files.{IsSameCase, PassesFor};
ghost use Rattle.live_case_desk.specs.Answers.{IsTrueAnswer};
ghost use Rattle.live_case_desk.specs.Refusals.{RefusesCheck, RefusesFile, RefusesPattern, RefusesVerdict};

use crate::cases::Cases;
use crate::file_rows::unfiled_answer;
use crate::shelf::Shelf;
use crate::shelf_name::ShelfName;
use crate::ticket::Ticket;
use crate::token::Token;
use crate::verdict::Verdict;
use cert_check::laws::explained_certificates_show_their_criterion;
use cert_check::{CaseFile, DeskError, check_piece};
use live_case_board::{Answer, BoardError, CaseRows, has_piece};
use model_history::OpId;
use pattern_check::{Pattern, Refutable};
use std::alloc::{AllocError, Global};
use std::marker::Model;
use std::sync::{Mutex, Wait};

/// Case files, and what is known of them: a shelf, and a board under a lock.
///
/// Threads share it by reference. Whatever the lock guards is true of the files: each verdict is the result of the
/// check of its piece, and each pattern passes its test. Give tickets and verdicts only to the desk that gave them. Calls wait
/// for the lock alone, and none holds it while it tests a piece or a pattern.
#[derive(Drop)]
pub struct Desk<O: Refutable, K: ShelfName> {
    alloc: Global,
    shelf: Shelf<O>,
    cases: Mutex<Cases<O, K>>,
}

impl<O: Refutable, K: ShelfName> Model for Desk<O, K> {
    ghost use Rattle.std.specs.Prelude.{◌≡◌};
    ghost use Rattle.boxcar.specs.Table.{Shelves};

    ghost Value = { Shelves };

    ghost view = { λ d. d.shelf };

    ghost invariant = { λ d. d.shelf ≡ K.shelf };
}

impl<O: Refutable, K: ShelfName> Desk<O, K> {
    /// A desk without cases, on a shelf that `K` names.
    ///
    /// Fails for want of memory alone: room for 64 cases is made here. O(1).
    pub fn on(alloc: Global, shelf: Shelf<O>) -> Result<Desk<O, K>, AllocError>
        requires { shelf ≡ K.shelf }
    {
        let cases = Mutex::new(Cases::new(alloc)?);
        Ok(Desk {
            alloc,
            shelf,
            cases,
        })
    }

    /// The file of a token.
    pub(crate) fn file_of(&self, token: &Token<O, K>) -> &CaseFile<O>
        ensures { result.now ≡ token.now.file }
    {
        self.shelf.file(token)
    }

    /// Where allocations are made.
    pub(crate) fn alloc(&self) -> Global {
        self.alloc
    }

    /// Tickets of one case are of one file. It does nothing: what it ensures is the law.
    pub(crate) fn agree(&self, a: &Ticket<O, K>, b: &Ticket<O, K>)
        ensures { a.now.place ≡ b.now.place → a.now.file ≡ b.now.file }
    {
        self.shelf.agree(a.token(), b.token());
    }

    /// Files a case, and gives the ticket of it.
    ///
    /// `Full` where 64 cases are filed, and `Memory`. The file is dropped then, and the board is as before. O(n) for n
    /// operations.
    pub fn file(&self, rt: &impl Wait, file: CaseFile<O>) -> Result<Ticket<O, K>, DeskError>
        ensures file { IfOk result (λ t. t.file ≡ file) }
        ensures refused { IfErr result RefusesFile }
    {
        match self.file_or_back(rt, file) {
            Ok(ticket) => Ok(ticket),
            Err(Some(file)) => {
                drop(file);
                Err(DeskError::Full)
            }
            Err(None) => Err(DeskError::Memory),
        }
    }

    /// Files a case as `file` does: the `Err` has the file where 64 cases are filed, and none where memory runs out. O(n) for n
    /// operations.
    pub fn file_or_back(
        &self,
        rt: &impl Wait,
        file: CaseFile<O>,
    ) -> Result<Ticket<O, K>, Option<CaseFile<O>>>
        ensures file { IfOk result (λ t. t.file ≡ file) }
        ensures back { IfErr result (λ back. IfSome back (λ f. f ≡ file)) }
    {
        match CaseRows::of(self.alloc, &file) {
            Ok(rows) => self
                .cases
                .lock(rt)
                .file_or_back(rt, &self.shelf, file, rows),
            Err(_no_memory) => {
                drop(file);
                Err(None)
            }
        }
    }

    /// Checks a piece of a case. It takes no lock.
    ///
    /// `NoSuch` where the file has no certificate or its history no such operation, else `Memory`. The cost is that of
    /// `check_piece`.
    pub fn check(&self, ticket: &Ticket<O, K>, op: OpId) -> Result<Verdict<O, K>, DeskError>
        ensures ticket { IfOk result (λ v. v.case_of ≡ ticket.now) }
        ensures op { IfOk result (λ v. v.op ≡ op) }
        ensures piece { IfOk result (λ v. HasPiece ticket.now.file op) }
        ensures refused { IfErr result (RefusesCheck ticket.now.file op) }
    {
        let file = ticket.file(self);
        if !has_piece(file, op) {
            return Err(DeskError::NoSuch);
        }
        let outcome = check_piece(self.alloc, file, op)?;
        Ok(Verdict::of(ticket.again(), op, outcome))
    }

    /// Hands out the next piece: the first operation, by session and then by index, that was not handed out and has no
    /// verdict, of the first case that no pattern refutes and that has such a row. `None` where there is none.
    ///
    /// O(c k + n) for c cases of k sessions and n rows that got a verdict without being handed out.
    pub fn take(&self, rt: &impl Wait) -> Option<(Ticket<O, K>, OpId)>
        ensures { IfSome result (λ r. HasPiece r.0.file r.1) }
    {
        self.cases.lock(rt).take()
    }

    /// Puts a verdict into its row.
    ///
    /// `Stranger` exactly where it is of another case than the ticket's; else `Doubled` where the row has a verdict, or where the
    /// board has no such case, which no run meets. The board is then as before. O(1).
    pub fn put(
        &self,
        rt: &impl Wait,
        ticket: &Ticket<O, K>,
        verdict: Verdict<O, K>,
    ) -> Result<(), DeskError>
        ensures accepted { IfOk result (λ _. IsSameCase verdict.case_of ticket.now) }
        ensures stranger { ¬ IsSameCase verdict.case_of ticket.now → result ≡ Err DeskError.Stranger }
        ensures refused { IfErr result (RefusesVerdict ticket.now verdict) }
    {
        let put = self.put_lent(rt, ticket, &verdict);
        drop(verdict);
        put
    }

    /// The same for a verdict that the caller keeps.
    fn put_lent(
        &self,
        rt: &impl Wait,
        ticket: &Ticket<O, K>,
        verdict: &Verdict<O, K>,
    ) -> Result<(), DeskError>
        ensures accepted { IfOk result (λ _. IsSameCase verdict.now.case_of ticket.now) }
        ensures stranger { ¬ IsSameCase verdict.now.case_of ticket.now → result ≡ Err DeskError.Stranger }
        ensures refused { IfErr result (RefusesVerdict ticket.now verdict.now) }
    {
        if !verdict.ticket().is_same_case(ticket) {
            return Err(DeskError::Stranger);
        }
        let put = self.cases.lock(rt).put(&self.shelf, verdict);
        match put {
            Ok(()) => Ok(()),
            Err(_not_put) => Err(DeskError::Doubled),
        }
    }

    /// Takes a pattern against a case. A second good pattern changes nothing.
    ///
    /// `NotThatPattern` where it does not pass its test, which is made outside the lock, and `Memory`, also where the board has
    /// no such case, which no run meets. The board is then as before. The cost is that of `check_pattern`.
    pub fn refute(
        &self,
        rt: &impl Wait,
        ticket: &Ticket<O, K>,
        pattern: Pattern,
    ) -> Result<(), DeskError>
        ensures accepted { IfOk result (λ _. PassesFor O.passes ticket.now.file pattern) }
        ensures refused { IfErr result (RefusesPattern (PassesFor O.passes ticket.now.file pattern)) }
    {
        let file = ticket.file(self);
        match O::check_pattern(self.alloc, file.history(), file.criterion(), &pattern) {
            Ok(true) => self.accept(rt, ticket, pattern),
            Ok(false) => {
                drop(pattern);
                Err(DeskError::NotThatPattern)
            }
            Err(_no_memory) => {
                drop(pattern);
                Err(DeskError::Memory)
            }
        }
    }

    /// Takes a pattern that passes its test against a case.
    fn accept(
        &self,
        rt: &impl Wait,
        ticket: &Ticket<O, K>,
        pattern: Pattern,
    ) -> Result<(), DeskError>
        requires { PassesFor O.passes ticket.now.file pattern }
        ensures { IfErr result (λ e. e ≡ DeskError.Memory) }
    {
        let taken = self.cases.lock(rt).refute(&self.shelf, ticket, pattern);
        match taken {
            Ok(()) => Ok(()),
            Err(_no_such_case) => Err(DeskError::Memory),
        }
    }

    /// The answer for a case.
    ///
    /// Refuted: `No`, with the kind of the pattern. Else without a certificate `Unknown(None)`. Else `Open` with the number of
    /// rows that have no verdict, where there are any. Else `Yes` where every verdict explains its operation, or `Unknown` with
    /// the first operation that its verdict does not explain. Where the board has no such case, which no run meets, it answers
    /// as if its rows had no verdict. O(n) for n rows.
    pub fn ask(&self, rt: &impl Wait, ticket: &Ticket<O, K>) -> Answer
        ensures truth { IsTrueAnswer O.answer O.passes ticket.now.file result }
        ensures met { result ≡ Answer.Yes → Meets O.answer ticket.now.file.0 ticket.now.file.1 }
        ensures not_met { (kind : Kinds) → result ≡ Answer.No kind → ¬ Meets O.answer ticket.now.file.0 ticket.now.file.1 }
    {
        let file = ticket.file(self);
        let answer = match self.held_answer(rt, ticket) {
            Ok(answer) => answer,
            Err(_no_case) => unfiled_answer(file),
        };
        answer_shows(file, answer);
        answer
    }

    /// What the board answers of a case.
    fn held_answer(&self, rt: &impl Wait, ticket: &Ticket<O, K>) -> Result<Answer, BoardError>
        ensures { IfOk result (IsTrueAnswer O.answer O.passes ticket.now.file) }
    {
        self.cases.lock(rt).ask(&self.shelf, ticket)
    }

    /// A copy of the pattern that was accepted against a case, where there is one.
    ///
    /// Fails for want of memory alone. `None` also where the board has no such case, which no run meets. O(n) for n operations
    /// and lines of the pattern.
    pub fn pattern(
        &self,
        rt: &impl Wait,
        ticket: &Ticket<O, K>,
    ) -> Result<Option<Pattern>, DeskError>
        ensures passes { IfOk result (λ p. IfSome p (PassesFor O.passes ticket.now.file)) }
        ensures refused { IfErr result (λ e. e ≡ DeskError.Memory) }
    {
        let cases = self.cases.lock(rt);
        match cases.pattern(&self.shelf, ticket) {
            Ok(Some(pattern)) => Ok(Some(pattern.copy(self.alloc)?)),
            Ok(None) | Err(_) => Ok(None),
        }
    }

    /// Whether a case has a row without a verdict for an operation.
    pub(crate) fn is_open(&self, rt: &impl Wait, ticket: &Ticket<O, K>, op: OpId) -> bool {
        self.cases.lock(rt).is_open(ticket, op)
    }
}

/// What a true answer shows of the history. It does nothing: what it ensures is the law.
#[tactic(auto, using(crate::proofs::TrueAnswers::yes_met, crate::proofs::TrueAnswers::no_unmet))]
fn answer_shows<O: Refutable>(file: &CaseFile<O>, answer: Answer)
    requires { IsTrueAnswer O.answer O.passes file.now answer }
    ensures met { answer ≡ Answer.Yes → Meets O.answer file.now.0 file.now.1 }
    ensures not_met { (kind : Kinds) → answer ≡ Answer.No kind → ¬ Meets O.answer file.now.0 file.now.1 }
{
    explained_certificates_show_their_criterion::<O>();
    O::passing_patterns_exclude();
    let _certificate = file.certificate();
}
