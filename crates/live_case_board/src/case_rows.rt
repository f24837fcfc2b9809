//! The rows with which a case is filed.

ghost use Rattle.std.specs.Prelude.{◌≡◌, ◌≤◌, [], true, false, length, IfOk};
ghost use Rattle.live_case_board.specs.Boards.{AreRowsOf};
ghost use Rattle.live_case_board.specs.CaseFiles.{AreRowsFor};

use crate::case_session::CaseSession;
use cert_check::CaseFile;
use model_history::{History, MAX_SESSIONS};
use model_object_trait::SeqObject;
use std::alloc::{AllocError, Global};
use std::marker::Model;

/// The rows of a case that is to be filed: none without a certificate, else one for each operation, without a verdict.
#[derive(Debug, Drop)]
pub struct CaseRows {
    has_certificate: bool,
    sessions: Vec<CaseSession>,
}

impl Model for CaseRows {
    ghost use Rattle.std.specs.Prelude.{◌≤◌, Bool, List, length};
    ghost use Rattle.live_case_board.specs.Boards.{SessionRows};
    ghost use Rattle.model_history.specs.declared.limits.TheConstants.{MAX_SESSIONS};

    ghost Value = { Bool × List SessionRows };

    ghost view = { λ r. (r.has_certificate, r.sessions.items) };

    ghost invariant = { λ r. length r.sessions.items ≤ MAX_SESSIONS };
}

impl CaseRows {
    /// The rows of a file that is to be filed.
    ///
    /// Fails for want of memory alone. O(n) for n operations.
    pub fn of<O: SeqObject>(alloc: Global, file: &CaseFile<O>) -> Result<CaseRows, AllocError>
        ensures { IfOk result (AreRowsFor file.now) }
    {
        if file.certificate().is_some() {
            CaseRows::certified(alloc, file.history())
        } else {
            Ok(CaseRows::uncertified(alloc))
        }
    }

    /// The rows of a case with a certificate for a history.
    ///
    /// Fails for want of memory alone. O(n) for n operations.
    pub fn certified<O: SeqObject>(alloc: Global, h: &History<O>) -> Result<CaseRows, AllocError>
        ensures certificate { IfOk result (λ r. r.0 ≡ true) }
        ensures rows { IfOk result (λ r. AreRowsOf h.now r.1) }
    {
        let mut sessions = Vec::new(alloc);
        for session in 0..h.sessions() {
            sessions.push(CaseSession::new(alloc, h.len(session))?)?;
        }
        Ok(CaseRows {
            has_certificate: true,
            sessions,
        })
    }

    /// No rows, of a case without a certificate. Takes no memory.
    pub fn uncertified(alloc: Global) -> CaseRows
        ensures { result ≡ (false, []) }
    {
        CaseRows {
            has_certificate: false,
            sessions: Vec::new(alloc),
        }
    }

    /// Whether there is a certificate, and the rows.
    pub(crate) fn into_parts(self) -> (bool, Vec<CaseSession>)
        ensures certificate { result.0 ≡ self.0 }
        ensures rows { result.1.items ≡ self.1 }
        ensures few { length result.1.items ≤ MAX_SESSIONS }
    {
        (self.has_certificate, self.sessions)
    }
}
