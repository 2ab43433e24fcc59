//! The judgement of events of which those of the other side are not there.
ghost use Rattle.std.specs.Prelude.{IfOk};
ghost use Rattle.std.specs.List.{All};
ghost use Rattle.amo_world.specs.Stream.{IsStream};
ghost use Rattle.amo_audit.specs.Alone.{FindsAlone, JudgesAlone};

use crate::Verdict;
use crate::lone_auditor::LoneAuditor;
use amo_world::Event;
use std::alloc::{AllocError, Global};

/// Judges events of which those of the other side may not be there, as in one host's journal: each reply is the protocol's, and no side uses a
/// word twice. Whether a packet that came was sent, only the events of both sides tell, and it is not asked. The first event at fault counts.
pub fn audit_alone(alloc: Global, events: &[Event]) -> Verdict
    requires { All (λ e. IsStream e.stream) events.now }
    ensures { JudgesAlone events.now result }
{
    match judged_alone(alloc, events) {
        Ok(auditor) => auditor.verdict(),
        Err(AllocError) => Verdict::NoMemory,
    }
}

/// An auditor that has judged these events.
fn judged_alone(alloc: Global, events: &[Event]) -> Result<LoneAuditor, AllocError>
    requires { All (λ e. IsStream e.stream) events.now }
    ensures { IfOk result (λ auditor. FindsAlone auditor.streams.items auditor.finding events.now) }
{
    let mut auditor = LoneAuditor::new(alloc)?;
    for place in 0..events.len() {
        auditor.judge(place, &events[place])?;
    }
    Ok(auditor)
}
