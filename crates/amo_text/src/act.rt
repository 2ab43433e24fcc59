//! The names of acts, as schedules and journals write them.
ghost use Rattle.std.specs.Prelude.{◌≡◌, ◌≢◌, IfSome, IfNone};
ghost use Rattle.amo_text.specs.Act.{act_field};
ghost use Rattle.amo_text.specs.declared.act.ActName.{ActName};

/// The name of an act: the first of its fields, as `put` of `put 1 61`.
#[derive(Clone, Copy, Debug, PartialEq, Eq)]
pub enum ActName {
    Put,
    Get,
    Ack,
    Start,
    Batch,
    Resend,
    Deliver,
    Crash,
    Recover,
}

/// The name of an act that this field spells.
pub fn read_act_name(field: &[u8]) -> Option<ActName>
    ensures found { IfSome result (λ name. field.now ≡ act_field name) }
    ensures none { IfNone result ((name : ActName) → field.now ≢ act_field name) }
{
    match field {
        b"put" => Some(ActName::Put),
        b"get" => Some(ActName::Get),
        b"ack" => Some(ActName::Ack),
        b"start" => Some(ActName::Start),
        b"batch" => Some(ActName::Batch),
        b"resend" => Some(ActName::Resend),
        b"deliver" => Some(ActName::Deliver),
        b"crash" => Some(ActName::Crash),
        b"recover" => Some(ActName::Recover),
        _ => None,
    }
}
