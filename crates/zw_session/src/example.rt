// The premises of the laws can be met: two machines whose calls only take time.

ghost use Rattle.std.proofs.Common.{lit≤};
ghost use Rattle.zw_session.specs.Agrees.{Agrees};
ghost use Rattle.zw_session.specs.Bounds.{SessionsStayEnded, GoesInOrder};
ghost use Rattle.zw_session.specs.Example.{idle, always, idle_stays_ended, idle_agrees};

use crate::{
    Bounded, Simulation, agreement_lifts, calls_go_in_order, sessions_stay_ended,
    target_ends_as_source,
};

struct OneTurnThreeSteps;

impl Bounded for OneTurnThreeSteps {
    ghost State = { Unit {0} };

    ghost machine = { idle 3 };

    ghost stays_ended = { idle_stays_ended 3 };
}

impl Simulation for OneTurnThreeSteps {
    ghost Source = { Unit {0} };

    ghost Target = { Unit {0} };

    ghost source = { idle 1 };

    ghost target = { idle 3 };

    ghost related = { always };

    ghost source_start = { tt };

    ghost target_start = { tt };

    ghost starts = { tt };

    ghost stays_ended = { idle_stays_ended 3 };

    ghost agrees_on_calls = { idle_agrees 1 3 (lit≤ tt) };
}

/// What the laws ask for can be met, and what they say then holds: a machine whose calls take three steps agrees with one whose calls
/// take one.
pub fn idle_machines_agree()
    ensures in_order { GoesInOrder (idle 3) }
    ensures stay_ended { SessionsStayEnded (idle 3) }
    ensures agree { Agrees (idle 1) tt (idle 3) tt }
{
    calls_go_in_order::<OneTurnThreeSteps>();
    sessions_stay_ended::<OneTurnThreeSteps>();
    agreement_lifts::<OneTurnThreeSteps>();
    target_ends_as_source::<OneTurnThreeSteps>();
}
