//! Steps in the form in which scripts write them, where one may mean several steps of the world.

ghost use Rattle.std.specs.Prelude.{◌≡◌, ℕ, length};
ghost use Rattle.live_script.specs.StepForm.{steps_of};

use live_simulation::StepOf;

/// A step as a script writes it, with calls `C` and returns `R`: one step of the world, or one word for several.
#[derive(Drop)]
pub enum WrittenStep<C, R> {
    /// One step of the world.
    Once(StepOf<C, R>),
    /// The next sealer starts, and knows no operation.
    StartUntold,
    /// A sealer looks so many times.
    Looks(usize, usize),
}

/// A step has at most so many looks.
pub const MAX_LOOKS: usize = 9_999;

impl<C, R> WrittenStep<C, R> {
    /// How many steps of the world it expands to.
    pub fn count(&self) -> usize
        ensures { (k : ℕ) → result ≡ length (steps_of k self.now) }
    {
        match self {
            WrittenStep::Once(_) | WrittenStep::StartUntold => 1,
            WrittenStep::Looks(_, times) => *times,
        }
    }
}
