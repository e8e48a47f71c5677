//! How many open calls started in each phase, so that no look at a phase walks the sessions.

ghost use Rattle.std.specs.Prelude.{◌≡◌, ◌↔◌, IsTrue, Some};
ghost use Rattle.phase.specs.Counts.{Has, HasNoOthers, IsAtMost, Takes};
ghost use Rattle.phase.specs.declared.open_calls.TheConstants.{SESSIONS};

use crate::phases::Phase;

/// How many open calls started in each phase.
#[derive(Clone, Copy, Debug)]
pub(crate) struct Counts {
    rest: usize,
    prepare: usize,
    resolve: usize,
    capture: usize,
    complete: usize,
}

impl Counts {
    /// No call is open.
    pub(crate) fn none() -> Counts
        ensures { result ≡ record { rest = 0; prepare = 0; resolve = 0; capture = 0; complete = 0 } }
    {
        Counts {
            rest: 0,
            prepare: 0,
            resolve: 0,
            capture: 0,
            complete: 0,
        }
    }

    /// One call fewer that started here, if it is one.
    pub(crate) fn without(self, start: Option<Phase>) -> Counts
        requires { Has self start }
        ensures { Takes self start result }
    {
        let mut fewer = self;
        match start {
            Some(Phase::Rest) => fewer.rest -= 1,
            Some(Phase::Prepare) => fewer.prepare -= 1,
            Some(Phase::Resolve) => fewer.resolve -= 1,
            Some(Phase::Capture) => fewer.capture -= 1,
            Some(Phase::Complete) => fewer.complete -= 1,
            None => {}
        }
        fewer
    }

    /// One call more that started here.
    pub(crate) fn with(self, start: Phase) -> Counts
        requires { IsAtMost self SESSIONS }
        ensures { Takes result (Some start) self }
    {
        let mut more = self;
        match start {
            Phase::Rest => more.rest += 1,
            Phase::Prepare => more.prepare += 1,
            Phase::Resolve => more.resolve += 1,
            Phase::Capture => more.capture += 1,
            Phase::Complete => more.complete += 1,
        }
        more
    }

    /// Whether no counted call started in another phase, of a phase that is guarded.
    pub(crate) fn has_no_others(self, phase: Phase) -> bool
        ensures { IsTrue result ↔ HasNoOthers self phase }
    {
        let Counts {
            rest,
            prepare,
            resolve,
            capture,
            complete,
        } = self;
        match phase {
            Phase::Rest | Phase::Capture => true,
            Phase::Prepare => rest == 0 && resolve == 0 && capture == 0 && complete == 0,
            Phase::Resolve => rest == 0 && prepare == 0 && capture == 0 && complete == 0,
            Phase::Complete => rest == 0 && prepare == 0 && resolve == 0 && capture == 0,
        }
    }
}
