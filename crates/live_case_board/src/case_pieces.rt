//! The pieces of a case file.

ghost use Rattle.std.specs.Prelude.{◌↔◌, IsTrue};
ghost use Rattle.live_case_board.specs.CaseFiles.{HasPiece};

use cert_check::CaseFile;
use model_history::OpId;
use model_object_trait::SeqObject;

/// Whether the file has a certificate, and so a piece for the operation.
///
/// O(1).
pub fn has_piece<O: SeqObject>(file: &CaseFile<O>, op: OpId) -> bool
    ensures { IsTrue result ↔ HasPiece file.now op }
{
    file.certificate().is_some() && file.history().contains(op)
}
