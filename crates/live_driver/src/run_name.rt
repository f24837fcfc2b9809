//! The name of a run, which ties sessions and what clients leave to that run.

ghost use Rattle.std.specs.Prelude.{ℕ, Result};
ghost use Rattle.live_recorder.specs.Sessions.{SessionState};
ghost use Rattle.live_driver.specs.Clients.{PlayedState};
ghost use Rattle.live_driver.specs.declared.drive_error.DriveError.{DriveError};

use std::marker::Brand;

/// Says to which run the sessions that clients receive belong, and to which run what the clients leave belongs.
///
/// It has no functions. The maker of a run passes `Brand` where a name is required, and picks the run there.
pub(crate) trait RunName<S, C, R> {
    /// A session that a client may take.
    ghost ready: { SessionState C R → Type 0 };

    /// What the client of a session may leave.
    ghost left: { ℕ → Result (PlayedState S C R) DriveError → Type 0 };
}

impl<S, C, R> RunName<S, C, R> for Brand {
    ghost ready = { λ _. Unit {0} };

    ghost left = { λ _ _. Unit {0} };
}
