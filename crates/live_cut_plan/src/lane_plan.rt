//! The part of a plan for one lane: what its looks found so far, and which cell is next.

ghost use Rattle.std.specs.Prelude.{◌≡◌, ◌<◌, ◌≤◌, ◌+◌, ◌∷◌, Some, None};
ghost use Rattle.live_cut_plan.specs.Steps.PlanStates.{fresh_lane, after_return, after_call, return_place, call_place, lane_left};

/// What the looks at one lane found so far.
#[derive(Clone, Copy)]
pub struct LanePlan {
    /// How many of the return cells given at the start are still to be looked at: the first of the lane.
    pub(crate) unread: usize,
    /// How many returns were found, including those given at the start.
    pub(crate) returns: usize,
    /// Whether the return cell after them was found empty.
    pub(crate) returns_over: bool,
    /// How many calls were found after these returns.
    pub(crate) calls: usize,
    /// Whether the call cell after them was found empty.
    pub(crate) calls_over: bool,
}

impl LanePlan {
    /// No look yet, in a lane of which the sealer is given so many operations.
    pub(crate) fn new(told: usize) -> LanePlan
        ensures { result ≡ fresh_lane told }
    {
        LanePlan {
            unread: told,
            returns: told,
            returns_over: false,
            calls: 0,
            calls_over: false,
        }
    }

    /// How many calls were found, including those whose returns were found, of so many places.
    pub(crate) fn found(&self, cap: usize) -> usize
        ensures { self.now.returns + self.now.calls ≤ cap → result ≡ self.now.returns + self.now.calls }
    {
        if self.returns <= cap && self.calls <= cap - self.returns {
            self.returns + self.calls
        } else {
            cap
        }
    }

    /// The place of the next return cell, if there is one.
    pub(crate) fn next_return(&self, cap: usize) -> Option<usize>
        ensures { result ≡ return_place cap self.now }
    {
        if self.unread > 0 {
            Some(self.unread - 1)
        } else if self.returns < cap && !self.returns_over {
            Some(self.returns)
        } else {
            None
        }
    }

    /// The place of the next call cell once no return cell is next, if there is one.
    pub(crate) fn next_call(&self, cap: usize) -> Option<usize>
        ensures { result ≡ call_place cap self.now }
    {
        if self.returns < cap && self.calls < cap - self.returns && !self.calls_over {
            Some(self.returns + self.calls)
        } else {
            None
        }
    }

    /// Receives whether the next return cell was full.
    pub(crate) fn give_return(&mut self, full: bool, cap: usize)
        requires { self.old.unread ≡ 0 → self.old.returns < cap }
        ensures { self.new ≡ after_return full self.old }
    {
        prove!(self.unread > 0 || self.returns < cap);
        if self.unread > 0 {
            self.unread -= 1;
        } else if full {
            self.returns += 1;
        } else {
            self.returns_over = true;
        }
    }

    /// Receives whether the next call cell was full.
    pub(crate) fn give_call(&mut self, full: bool, cap: usize)
        requires { self.old.calls < cap }
        ensures { self.new ≡ after_call full self.old }
    {
        prove!(self.calls < cap);
        if full {
            self.calls += 1;
        } else {
            self.calls_over = true;
        }
    }
}
