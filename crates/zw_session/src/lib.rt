//! Sessions, lists of calls of exports with the replies of a host, over any machine that says what one call does; when two
//! machines agree, and how agreement on single calls becomes agreement on sessions. It must not know: Zig, WebAssembly.
//!
//! The functions here do nothing: their contracts are the laws of the definitions in specs/. What is shown of single calls is
//! lifted to whole sessions once, for every pair of machines.
#![tactic(auto)]

mod example;

ghost use Rattle.std.specs.Prelude.{ℕ, List};
ghost use Rattle.zw_session.specs.Sessions.{Machine, Call, session, AllFit};
ghost use Rattle.zw_session.specs.Bounds.{StaysEnded, SessionsStayEnded, GoesInOrder};
ghost use Rattle.zw_session.specs.Agrees.{AgreesOnCalls, Agrees, OnlySuchEnds};
ghost use Rattle.zw_session.specs.Apart.{TellsApart};
ghost use Rattle.zw_session.specs.Incoming.{NumbersComeIn};

pub use example::idle_machines_agree;

/// A machine whose calls stay ended, once they ended, under a larger bound.
pub trait Bounded {
    /// What one call leaves to the next.
    ghost State: { Type 0 };

    ghost machine: { Machine State };

    ghost stays_ended: { StaysEnded machine };
}

/// A source and a target that agree on each single call from related states, and start in related states.
pub trait Simulation {
    /// What one call of the source leaves to the next.
    ghost Source: { Type 0 };

    /// The same of the target.
    ghost Target: { Type 0 };

    ghost source: { Machine Source };

    ghost target: { Machine Target };

    /// Which states stand for each other.
    ghost related: { Source → Target → Type 0 };

    ghost source_start: { Source };

    ghost target_start: { Target };

    ghost starts: { related source_start target_start };

    ghost stays_ended: { StaysEnded target };

    ghost agrees_on_calls: { AgreesOnCalls related source target };
}

/// Calls are made in order, and none after one that didn't return.
pub fn calls_go_in_order<M: Bounded>()
    ensures { GoesInOrder M.machine }
{}

/// A session that ended stays ended, with the same record, under a larger bound.
pub fn sessions_stay_ended<M: Bounded>()
    ensures { SessionsStayEnded M.machine }
{}

/// The lifting: agreement of single calls from related states gives agreement of whole sessions.
pub fn agreement_lifts<S: Simulation>()
    ensures { Agrees S.source S.source_start S.target S.target_start }
{}

/// Where the target's session ends, the source's ends the same with the same record, or the source is wild; and a
/// target never ends where the source runs on for ever.
pub fn target_ends_as_source<S: Simulation>()
    ensures { (calls : List Call) → AllFit S.source calls → (replies : List ℕ) →
        OnlySuchEnds (session S.source calls S.source_start replies)
        (session S.target calls S.target_start replies) }
{}

/// What comes in is a number of 32 or 64 bits, told with a sign or without one, and counts modulo the width that is wanted.
pub fn numbers_come_in()
    ensures { NumbersComeIn }
{}

/// Two machines that differ in a host call, a result, a panic, an answer to a reply, or in that one goes on don't agree.
pub fn machines_are_told_apart()
    ensures { TellsApart }
{}
