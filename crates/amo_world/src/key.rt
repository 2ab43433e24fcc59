//! What tells a packet from the others that its side emitted.
ghost use Rattle.std.specs.Prelude.{◌≡◌};
ghost use Rattle.amo_packet.specs.Packet.{body_of};
ghost use Rattle.amo_world.specs.Key.{key_of};

use amo_packet::Body;

/// The kind of a packet, with what an ack says.
#[derive(Clone, Copy, Default, PartialEq, Eq, PartialOrd, Ord)]
pub(crate) enum PacketKind {
    #[default]
    NeedUid,
    Accept,
    Send,
    Ack(bool),
    Cleanup,
    Batch,
}

/// One identifier of a packet, with the packet's kind. An accept is told by the identifier that it brings, since each is
/// accepted for one needuid; a send or a batch by its identifier, since what is sent under each is one. What a side says in one
/// handshake mostly has one identifier, so it stands side by side in an index.
#[derive(Clone, Copy, Default, PartialEq, Eq, PartialOrd, Ord)]
pub(crate) struct Key {
    pub(crate) identifier: u64,
    pub(crate) kind: PacketKind,
}

/// The key of a packet that says this.
pub(crate) fn key_of(body: Body<'_>) -> Key
    ensures { result ≡ key_of (body_of body.entry) }
{
    let (identifier, kind) = match body {
        Body::NeedUid(jd) => (jd, PacketKind::NeedUid),
        Body::Accept(_, id) => (id, PacketKind::Accept),
        Body::Send(id, _) => (id, PacketKind::Send),
        Body::Ack(id, got) => (id, PacketKind::Ack(got)),
        Body::Cleanup(id) => (id, PacketKind::Cleanup),
        Body::Batch(id, _) => (id, PacketKind::Batch),
    };
    Key { identifier, kind }
}
