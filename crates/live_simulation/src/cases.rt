//! The cases of a desk, with their files, their board and the verdicts on their pieces, and the steps that change them.

ghost use Rattle.std.specs.Prelude.{◌≡◌, ◌↔◌, ◌<◌, ◌≤◌, ◌∷◌, ◌++◌, ℕ, [], length, option_copied, slice_get, true};
ghost use Rattle.std.specs.Prelude.{IfErr, IfOk, IfSome, IsNone, IsTrue, MatchOption, None, OnErr, OnOk, Some};
ghost use Rattle.live_case_board.specs.Boards.{CaseState, fresh_case, handed_out, refuted, with_verdict};
ghost use Rattle.live_case_board.specs.Events.{IsDueOf, IsIdleAt, IsStanding, ask_refusal, put_refusal, refute_refusal};
ghost use Rattle.live_case_board.specs.CaseFiles.{HasPiece};
ghost use Rattle.live_simulation.specs.Steps.KeptCases.{Files, HasPieceAt, IsAdded, IsRefusal, ShowsCases, TakesOn, place_of};
ghost use Rattle.live_simulation.specs.Steps.KeptCases.{with_board, with_case, with_one_file, with_verdict_given};

use crate::given_verdict::GivenVerdict;
use crate::place::Place;
use crate::refusal::Refusal;
use crate::reply::{Reply, ReplyOf};
use crate::step::StepOf;
use cert_check::{CaseFile, Certificate, Criterion, check_piece};
use live_case_board::{Answer, Board, BoardError, CaseRows, MAX_CASES, Piece, has_piece};
use model_history::{History, OpId};
use pattern_check::{Pattern, Refutable};
use std::alloc::{AllocError, Global};
use std::marker::Model;

/// The cases of a desk and the verdicts that were given on their pieces, as they are between two steps.
#[derive(Drop)]
pub struct Cases<O: Refutable> {
    files: Vec<CaseFile<O>>,
    board: Board<Place>,
    verdicts: Vec<GivenVerdict>,
}

impl<O: Refutable> Model for Cases<O> {
    ghost use Rattle.live_simulation.specs.Steps.KeptCases.{CasesState};

    ghost Value = { CasesState O.Start O.Call O.Ret };

    ghost view = { λ c. record { files = c.files.items; board = c.board; verdicts = c.verdicts.items } };
}

impl<O: Refutable> Cases<O> {
    /// No case and no verdict.
    ///
    /// Fails for want of memory alone. O(1).
    #[tactic(auto, using(crate::proofs::FileSteps::no_cases))]
    pub fn new(alloc: Global) -> Result<Cases<O>, AllocError>
        ensures { IfOk result (λ c. (start : O.Start) (k : ℕ) → ShowsCases O.answer start k [] c) }
    {
        let board = Board::new(alloc)?;
        Ok(Cases {
            files: Vec::new(alloc),
            board,
            verdicts: Vec::new(alloc),
        })
    }

    /// Files the history of a sealer as the next case.
    ///
    /// Refused in this order: `ShapeMismatch` where there is a certificate and it is for another criterion or does not have the
    /// shape of the history, `Full` where 64 cases are filed. Fails for want of memory alone; do not use the cases after that.
    /// O(n) for n operations, and O(n k) for a certificate of one list and k sessions.
    pub fn file(
        &mut self,
        alloc: Global,
        history: History<O>,
        criterion: Criterion,
        certificate: Option<Certificate>,
    ) -> Result<Reply<O>, AllocError>
        ensures { IfOk result (λ reply. Files O.answer O.passes history criterion certificate self.old reply self.new) }
    {
        match CaseFile::new(history, criterion, certificate) {
            Err(_) => Ok(ReplyOf::Refused(Refusal::ShapeMismatch)),
            Ok(file) => {
                let _certificate = file.certificate();
                if self.is_full() {
                    return Ok(ReplyOf::Refused(Refusal::Full));
                }
                let number = self.filed();
                self.add(alloc, file)?;
                Ok(ReplyOf::Case(number))
            }
        }
    }

    /// Whether 64 cases are filed.
    fn is_full(&self) -> bool
        ensures { IsTrue result ↔ (MAX_CASES ≤ length self.now.board) }
    {
        self.board.cases() >= MAX_CASES
    }

    /// How many cases are filed.
    fn filed(&self) -> usize
        ensures { result ≡ length self.now.files }
    {
        self.files.len()
    }

    /// Adds a case.
    fn add(&mut self, alloc: Global, file: CaseFile<O>) -> Result<(), AllocError>
        requires { length self.old.board < MAX_CASES }
        ensures { OnOk result (IsAdded file self.old self.new) }
    {
        let rows = CaseRows::of(alloc, &file)?;
        let number = self.filed();
        self.push_file(file)?;
        let _number = self.push_case(Place { number }, rows);
        Ok(())
    }

    /// Adds a file.
    fn push_file(&mut self, file: CaseFile<O>) -> Result<(), AllocError>
        ensures { OnOk result (self.new ≡ with_one_file self.old file) }
    {
        self.files.push(file)?;
        Ok(())
    }

    /// Adds a case to the board.
    fn push_case(&mut self, place: Place, rows: CaseRows) -> Result<usize, BoardError>
        ensures filed { OnOk result (self.new ≡ with_board self.old (self.old.board ++ fresh_case place rows ∷ [])) }
        ensures full { IfErr result (λ e. MAX_CASES ≤ length self.old.board) }
    {
        self.board.file(place, rows)
    }

    /// Puts a verdict to a case.
    ///
    /// Refused in this order: `NoSuch` where there is no such verdict or no such case, `Stranger` where the verdict is of
    /// another case, `Doubled` where a verdict on its operation was put to the case before. O(1).
    pub fn put(&mut self, c: usize, v: usize) -> Reply<O>
        ensures { TakesOn O.answer O.passes (StepOf.Put c v) self.old result self.new }
    {
        let Some(verdict) = self.verdict(v) else {
            return ReplyOf::Refused(Refusal::NoSuch);
        };
        match self.fill(c, verdict) {
            Ok(()) => ReplyOf::Accepted,
            Err(error) => ReplyOf::Refused(error.into()),
        }
    }

    /// A verdict that was given.
    fn verdict(&self, v: usize) -> Option<GivenVerdict>
        ensures { result ≡ slice_get self.now.verdicts v }
    {
        self.verdicts.get(v).copied()
    }

    /// Puts a verdict into a row of a case.
    fn fill(&mut self, c: usize, verdict: GivenVerdict) -> Result<(), BoardError>
        ensures accepted { IfOk result (λ _.
            put_refusal place_of (slice_get self.old.board c) (record { number = verdict.piece.number }) verdict.piece.op ≡ None) }
        ensures filled { OnOk result ((s : CaseState Place) → slice_get self.old.board c ≡ Some s
            → self.new ≡ with_case self.old c (with_verdict s verdict.piece.op verdict.outcome)) }
        ensures refused { IfErr result (λ e.
            put_refusal place_of (slice_get self.old.board c) (record { number = verdict.piece.number }) verdict.piece.op ≡ Some e) }
        ensures unchanged { OnErr result (self.new ≡ self.old) }
    {
        let place = Place {
            number: verdict.piece.number,
        };
        self.board.put(c, &place, verdict.piece.op, verdict.outcome)
    }

    /// How many verdicts were given.
    fn given(&self) -> usize
        ensures { result ≡ length self.now.verdicts }
    {
        self.verdicts.len()
    }

    /// Checks a piece of a case, which gives the next verdict.
    ///
    /// `NoSuch` where there is no such case, or it has no certificate or no such operation. Fails for want of memory alone. The
    /// cost is that of the check.
    pub fn work(&mut self, alloc: Global, c: usize, op: OpId) -> Result<Reply<O>, AllocError>
        ensures { IfOk result (λ reply. TakesOn O.answer O.passes (StepOf.Work c op) self.old reply self.new) }
    {
        let Some(file) = self.file_with(c, op) else {
            return Ok(ReplyOf::Refused(Refusal::NoSuch));
        };
        let outcome = check_piece(alloc, file, op)?;
        let number = self.given();
        let piece = Piece { number: c, op };
        self.give(GivenVerdict { piece, outcome })?;
        Ok(ReplyOf::Verdict(number, outcome))
    }

    /// The file of a case.
    fn file_at(&self, c: usize) -> Option<&CaseFile<O>>
        ensures { option_copied result ≡ slice_get self.now.files c }
    {
        if c < self.files.len() {
            Some(&self.files[c])
        } else {
            None
        }
    }

    /// The file of a case that has a piece of an operation.
    fn file_with(&self, c: usize, op: OpId) -> Option<&CaseFile<O>>
        ensures { MatchOption result (¬ HasPieceAt self.now.files c op)
            (λ file. (slice_get self.now.files c ≡ Some file.now) × HasPiece file.now op) }
    {
        match self.file_at(c) {
            None => None,
            Some(file) => {
                if has_piece(file, op) {
                    Some(file)
                } else {
                    None
                }
            }
        }
    }

    /// Adds a verdict.
    fn give(&mut self, verdict: GivenVerdict) -> Result<(), AllocError>
        ensures { OnOk result (self.new ≡ with_verdict_given self.old verdict) }
    {
        self.verdicts.push(verdict)?;
        Ok(())
    }

    /// Puts a pattern against a case.
    ///
    /// Refused in this order: `NoSuch` where there is no such case, `NotThatPattern` where the pattern does not pass for it.
    /// Fails for want of memory alone. The cost is that of the test of the pattern, and of a copy of one that passes.
    pub fn refute(
        &mut self,
        alloc: Global,
        c: usize,
        pattern: &Pattern,
    ) -> Result<Reply<O>, AllocError>
        ensures { IfOk result (λ reply. TakesOn O.answer O.passes (StepOf.Refute c pattern.now) self.old reply self.new) }
    {
        let why = self.refute_refusal(alloc, c, pattern)?;
        match why {
            Some(refusal) => Ok(ReplyOf::Refused(refusal)),
            None => {
                let kept = pattern.copy(alloc)?;
                self.keep(c, kept);
                Ok(ReplyOf::Accepted)
            }
        }
    }

    /// Why a pattern is refused.
    fn refute_refusal(
        &self,
        alloc: Global,
        c: usize,
        pattern: &Pattern,
    ) -> Result<Option<Refusal>, AllocError>
        ensures { IfOk result (λ r. IsRefusal O.passes pattern.now (slice_get self.now.files c) r) }
    {
        let Some(file) = self.file_at(c) else {
            return Ok(Some(Refusal::NoSuch));
        };
        let passing = passes_for(alloc, file, pattern)?;
        if passing {
            Ok(None)
        } else {
            Ok(Some(Refusal::NotThatPattern))
        }
    }

    /// Takes a pattern that passes against a case.
    fn keep(&mut self, c: usize, pattern: Pattern)
        ensures { (s : CaseState Place) → slice_get self.old.board c ≡ Some s → s.mark.number ≡ c →
            self.new ≡ with_case self.old c (refuted s pattern) }
    {
        let _taken = self.against(c, pattern);
    }

    /// Puts a pattern that passes against a case of the board.
    fn against(&mut self, c: usize, pattern: Pattern) -> Result<(), BoardError>
        ensures refuted { OnOk result ((s : CaseState Place) → slice_get self.old.board c ≡ Some s
            → self.new ≡ with_case self.old c (refuted s pattern)) }
        ensures refused { IfErr result (λ e.
            refute_refusal place_of (slice_get self.old.board c) (record { number = c }) true ≡ Some e) }
    {
        let place = Place { number: c };
        self.board.refute(c, &place, pattern, true)
    }

    /// A worker takes the next piece: the first operation, by session and then by index, that was not taken and has no verdict,
    /// of the first case that has a certificate, is not refuted and has such an operation.
    ///
    /// O(c k + n) for c cases of k sessions and n operations that got a verdict without being taken.
    pub fn take(&mut self) -> Reply<O>
        ensures { TakesOn O.answer O.passes StepOf.Take self.old result self.new }
    {
        let piece = self.next_piece();
        ReplyOf::Taken(piece)
    }

    /// The piece that the board hands out.
    fn next_piece(&mut self) -> Option<Piece>
        ensures none { IsNone result → self.new ≡ self.old }
        ensures idle { IsNone result → (number : ℕ) → IsIdleAt self.old.board number }
        ensures due { IfSome result (λ p. IsDueOf self.old.board p) }
        ensures taken { IfSome result (λ p. (s : CaseState Place) → slice_get self.old.board p.number ≡ Some s
            → self.new ≡ with_case self.old p.number (handed_out s p.op)) }
    {
        self.board.take()
    }

    /// The state of a case.
    ///
    /// `NoSuch` where there is no such case. O(n) for n operations.
    pub fn ask(&self, c: usize) -> Reply<O>
        ensures { TakesOn O.answer O.passes (StepOf.Ask c) self.now result self.now }
    {
        match self.standing(c) {
            Ok(answer) => ReplyOf::Answer(answer),
            Err(_error) => ReplyOf::Refused(Refusal::NoSuch),
        }
    }

    /// The board's answer for a case.
    fn standing(&self, c: usize) -> Result<Answer, BoardError>
        ensures accepted { IfOk result (λ _.
            ask_refusal place_of (slice_get self.now.board c) (record { number = c }) ≡ None) }
        ensures standing { IfOk result (λ a.
            (s : CaseState Place) → slice_get self.now.board c ≡ Some s → IsStanding s a) }
        ensures refused { IfErr result (λ e.
            ask_refusal place_of (slice_get self.now.board c) (record { number = c }) ≡ Some e) }
    {
        let place = Place { number: c };
        self.board.ask(c, &place)
    }
}

/// Whether a pattern passes for the history and the criterion of a file.
fn passes_for<O: Refutable>(
    alloc: Global,
    file: &CaseFile<O>,
    pattern: &Pattern,
) -> Result<bool, AllocError>
    ensures { IfOk result (λ yes. IsTrue yes ↔ O.passes file.now.0 file.now.1 pattern.now) }
{
    O::check_pattern(alloc, file.history(), file.criterion(), pattern)
}
