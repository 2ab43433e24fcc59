//! Notes what calls of a book answered.
ghost use Rattle.std.specs.Prelude.{◌≡◌, ◌-◌, ◌<◌, IfOk, IfSome, OnOk, OnErr};
ghost use Rattle.amo_packet.specs.Stream.{IsStream};
ghost use Rattle.amo_journal.specs.Journal.{HasAct, HasReply, line_text};
ghost use Rattle.amo_book.specs.Pass.{PassState, Grown, event, mine};
ghost use Rattle.amo_live.specs.Noted.{Begins, Holds, IsSameJournal};

use crate::{Journal, LiveFault};
use amo_core::{Act, Reply};
use amo_object::End;
use amo_text::Sink;
use amo_world::Event;

/// Notes the event of a call, if it made one: the call answered with this reply at this position. Both come back.
#[tactic(auto, using(crate::proofs::Onwards::holds_answer, crate::proofs::Onwards::holds_none, crate::proofs::Onwards::begins_answer))]
pub fn note_answer<S: Sink>(
    journal: &mut Journal<S>,
    pass: usize,
    side: End,
    stream: u32,
    act: Act,
    known: Option<(Reply, u64)>,
) -> Result<Option<(Reply, u64)>, LiveFault>
    requires pass { pass < 64 }
    requires stream { IsStream stream }
    requires spelt { IfSome known (λ k. HasAct journal.old.version side stream act × HasReply act k.0) }
    ensures back { IfOk result (λ back. back ≡ known) }
    ensures noted { OnOk result ((v w : PassState) → v.number ≡ pass → Grown v w side stream act known → Holds S.written journal.old (mine v) → Holds S.written journal.new (mine w)) }
    ensures begun { OnErr result ((v w : PassState) → v.number ≡ pass → Grown v w side stream act known → Holds S.written journal.old (mine v) → Begins S.written journal.new (mine w)) }
    ensures last { OnOk result (IfSome known (λ k. journal.new.last ≡ line_text (record { number = journal.old.next - journal.old.left; event = event pass side stream act k.0 }))) }
    ensures same { IsSameJournal journal.old journal.new }
{
    let Some((reply, position)) = known else {
        return Ok(None);
    };
    let event = Event {
        pass,
        side,
        stream,
        act,
        reply,
    };
    match journal.note(&event) {
        Ok(()) => {
            let Event { reply, .. } = event;
            Ok(Some((reply, position)))
        }
        Err(fault) => Err(fault),
    }
}
