//! What the kind of a mode means to a host.
ghost use Rattle.std.specs.Prelude.{◌≡◌, ◌↔◌, IsTrue};
ghost use Rattle.amo_host.specs.Modes.{is_open};
ghost use Rattle.amo_host.specs.Modes.{is_timed, waits};
ghost use Rattle.amo_core.specs.declared.mode.Mode.TheVariants.{Quiet};
ghost use Rattle.amo_object.specs.declared.step.End.TheVariants.{Sender};

use amo_core::Mode;
use amo_object::End;

/// Whether the two are one kind.
pub(crate) fn is_same(one: Mode, other: Mode) -> bool
    ensures { IsTrue result ↔ (one ≡ other) }
{
    one == other
}

/// Whether a handshake is open in this mode.
pub(crate) fn holds_handshake(mode: Mode) -> bool
    ensures { result ≡ is_open mode }
{
    matches!(mode, Mode::NeedId | Mode::Send)
}

/// Whether a stream in this mode has a timer.
pub(crate) fn has_timer(mode: Mode) -> bool
    ensures { result ≡ is_timed mode }
{
    !matches!(mode, Mode::Quiet | Mode::Idle | Mode::Down)
}

/// Whether this is the mode of a sender at rest.
pub(crate) fn is_quiet(mode: Mode) -> bool
    ensures { IsTrue result ↔ (mode ≡ Quiet) }
{
    matches!(mode, Mode::Quiet)
}

/// Whether this is the side that puts.
pub(crate) fn is_sender(side: End) -> bool
    ensures { IsTrue result ↔ (side ≡ Sender) }
{
    matches!(side, End::Sender)
}

/// Whether a side in this mode waits for its peer.
pub(crate) fn waits(mode: Mode) -> bool
    ensures { result ≡ waits mode }
{
    matches!(mode, Mode::NeedId | Mode::Send | Mode::Accept | Mode::Ack)
}
