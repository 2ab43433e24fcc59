//! Runs of calls and of the losses that are marked among them.
ghost use Rattle.std.specs.Prelude.{◌≡◌, ◌+◌, ◌++◌, length, replicate, IfOk};
ghost use Rattle.amo_object.specs.declared.step.Step.TheVariants.{LoseAck};
ghost use Rattle.amo_resolve.specs.Weaving.{woven, calls_before};

use crate::Step;
use crate::draft::Draft;
use std::alloc::AllocError;

/// The run of these calls and of a draft's losses among them. It is made where the calls stand: room is made behind them, and from
/// the last one on each moves up past the losses that come before it. Those before the first loss stay.
pub(crate) fn woven(calls: Vec<Step>, draft: &Draft) -> Result<Vec<Step>, AllocError>
    requires { calls_before draft.now.marks.items + draft.now.since ≡ length calls.items }
    ensures { IfOk result (λ run. run.items ≡ woven calls.items draft.now.marks.items) }
{
    let mut run = calls;
    let mut place = run.len();
    let mut losses = draft.marks.len();
    make_room(&mut run, losses)?;
    let mut since = draft.since;
    while losses > 0 {
        if since > 0 {
            since -= 1;
            place -= 1;
            run.swap(place, place + losses);
        } else {
            losses -= 1;
            let mark = draft.marks[losses];
            since = mark.calls;
            run[place + losses] = mark.loss.step();
        }
    }
    Ok(run)
}

/// Room for so many losses, behind all calls.
fn make_room(run: &mut Vec<Step>, losses: usize) -> Result<(), AllocError>
    ensures { IfOk result (λ _. run.new.items ≡ run.old.items ++ replicate losses LoseAck) }
{
    for _ in 0..losses {
        run.push(Step::LoseAck)?;
    }
    Ok(())
}
