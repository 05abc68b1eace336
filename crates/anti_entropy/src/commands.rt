//! The commands of a plan.

ghost use Rattle.std.specs.Prelude.{◌≡◌, [], ◌∷◌, IfOk};
ghost use Rattle.std.specs.Option.{option_copied};
ghost use Rattle.cat_model.specs.Syncs.{new_service, new_check, registers_service, registers_checks, listed};
ghost use Rattle.anti_entropy.specs.Parts.{removes_check, removes_service, retagged};

use cat_model::lists::one;
use cat_model::{
    CheckRow, Command, List, Memory, NewCheck, NewService, NodeRow, ServiceRow, Text, Texts,
};
use std::alloc::Global;

// The tags that the service has once it took over those there.
fn tags_of<'a>(service: &'a ServiceRow, there: Option<&'a ServiceRow>) -> &'a Texts
    ensures { result.now ≡ (retagged (option_copied there.entry) service.now).tags }
{
    match there {
        Some(there) if service.tag_override => &there.tags,
        _ => &service.tags,
    }
}

fn new_service(s: &ServiceRow, tags: &Texts) -> Result<NewService, Memory>
    ensures { IfOk result (λ new. new ≡ new_service (record s.now { tags = tags.now })) }
{
    Ok(NewService {
        id: s.id.clone()?,
        name: s.name.clone()?,
        tags: tags.clone()?,
        address: s.address.clone()?,
        port: s.port,
        tag_override: s.tag_override,
    })
}

fn new_check(c: &CheckRow) -> Result<NewCheck, Memory>
    ensures { IfOk result (λ new. new ≡ new_check c.now) }
{
    Ok(NewCheck {
        id: c.id.clone()?,
        name: c.name.clone()?,
        status: c.status,
        notes: c.notes.clone()?,
        output: c.output.clone()?,
        service: c.service.clone()?,
    })
}

/// The registration of a service, with the tags that it takes over.
pub(crate) fn register_service(
    alloc: Global,
    node: &NodeRow,
    service: &ServiceRow,
    there: Option<&ServiceRow>,
) -> Result<Command, Memory>
    ensures { IfOk result (λ c. c ≡ registers_service node.now (retagged (option_copied there.entry) service.now)) }
{
    let tags = tags_of(service, there);
    Ok(Command::Register {
        node: node.node.clone()?,
        address: node.address.clone()?,
        service: Some(new_service(service, tags)?),
        checks: List::new(alloc),
    })
}

/// The registration of a check.
pub(crate) fn register_check(
    alloc: Global,
    node: &NodeRow,
    check: &CheckRow,
) -> Result<Command, Memory>
    ensures { IfOk result (λ c. c ≡ registers_checks node.now (check.now ∷ [])) }
{
    Ok(Command::Register {
        node: node.node.clone()?,
        address: node.address.clone()?,
        service: None,
        checks: one(alloc, new_check(check)?)?,
    })
}

/// The registration of the node, with the check of its own.
pub(crate) fn register_node(
    alloc: Global,
    node: &NodeRow,
    own: Option<&CheckRow>,
) -> Result<Command, Memory>
    ensures { IfOk result (λ c. c ≡ registers_checks node.now (listed (option_copied own.entry))) }
{
    if let Some(check) = own {
        return register_check(alloc, node, check);
    }
    Ok(Command::Register {
        node: node.node.clone()?,
        address: node.address.clone()?,
        service: None,
        checks: List::new(alloc),
    })
}

/// The removal of a service.
pub(crate) fn remove_service(
    alloc: Global,
    node: &NodeRow,
    service: &ServiceRow,
) -> Result<Command, Memory>
    ensures { IfOk result (λ c. c ≡ removes_service node.now service.now) }
{
    Ok(Command::Deregister {
        node: node.node.clone()?,
        service: service.id.clone()?,
        check: Text::new(alloc, "")?,
    })
}

/// The removal of a check.
pub(crate) fn remove_check(
    alloc: Global,
    node: &NodeRow,
    check: &CheckRow,
) -> Result<Command, Memory>
    ensures { IfOk result (λ c. c ≡ removes_check node.now check.now) }
{
    Ok(Command::Deregister {
        node: node.node.clone()?,
        service: Text::new(alloc, "")?,
        check: check.id.clone()?,
    })
}
