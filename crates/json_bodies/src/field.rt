//! The names of what may be wrong in a body.

/// A field of a body, as a refusal names it.
#[derive(Clone, Copy, Debug, PartialEq, Eq)]
pub enum Field {
    /// The body as a whole.
    Body,
    Datacenter,
    /// The datacenter, where it is another one.
    Dc,
    Node,
    Address,
    Service,
    Id,
    Name,
    Tags,
    Port,
    EnableTagOverride,
    Check,
    Checks,
    CheckId,
    Status,
    Notes,
    Output,
    ServiceId,
    LockDelay,
    Behavior,
    Ttl,
    NodeChecks,
    ServiceChecks,
    /// The operations of a transaction as a whole.
    Txn,
    Kv,
    Verb,
    Key,
    /// The key, where it is too short or too long.
    KeyLength,
    Value,
    Flags,
    Index,
    Session,
    OnlyPassing,
    Dns,
}

impl Field {
    ghost use Rattle.std.specs.Prelude.{◌≡◌};
    ghost use Rattle.json_bodies.specs.Fields.{name_of};

    /// The field's name, which is that of the member that has it where there is one.
    pub fn text(self) -> &'static str
        ensures { result.now ≡ name_of self }
    {
        match self {
            Field::Body => "body",
            Field::Datacenter => "Datacenter",
            Field::Dc => "dc",
            Field::Node => "Node",
            Field::Address => "Address",
            Field::Service => "Service",
            Field::Id => "ID",
            Field::Name => "Name",
            Field::Tags => "Tags",
            Field::Port => "Port",
            Field::EnableTagOverride => "EnableTagOverride",
            Field::Check => "Check",
            Field::Checks => "Checks",
            Field::CheckId => "CheckID",
            Field::Status => "Status",
            Field::Notes => "Notes",
            Field::Output => "Output",
            Field::ServiceId => "ServiceID",
            Field::LockDelay => "LockDelay",
            Field::Behavior => "Behavior",
            Field::Ttl => "TTL",
            Field::NodeChecks => "NodeChecks",
            Field::ServiceChecks => "ServiceChecks",
            Field::Txn => "Txn",
            Field::Kv => "KV",
            Field::Verb => "Verb",
            Field::Key => "Key",
            Field::KeyLength => "key",
            Field::Value => "Value",
            Field::Flags => "Flags",
            Field::Index => "Index",
            Field::Session => "Session",
            Field::OnlyPassing => "OnlyPassing",
            Field::Dns => "DNS",
        }
    }
}
