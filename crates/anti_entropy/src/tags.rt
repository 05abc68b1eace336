//! Tags that an agent takes over from the catalog.

ghost use Rattle.std.specs.Prelude.{◌≡◌, ◌∷◌, [], IfOk, map};
ghost use Rattle.cat_model.specs.Catalog.{service_at, service_key};
ghost use Rattle.cat_model.specs.Keys.{pair_cmp};
ghost use Rattle.cat_model.specs.Tables.{Ascends};
ghost use Rattle.node_rows.specs.Tags.{all_tagged, tagged_at};
ghost use Rattle.anti_entropy.specs.Parts.{new_tagged, retagged};

use crate::same::are_same;
use cat_model::{Memory, ServiceRow, Texts};
use node_rows::{Retag, found};
use row_table::Seen;
use std::alloc::Global;

// The tags of the catalog's service that the service takes over, where they are others.
#[tactic(auto, using(crate::proofs::TakenTags::none_taken, crate::proofs::TakenTags::same_taken))]
fn new_tags(service: &ServiceRow, there: &[Seen<'_, ServiceRow>]) -> Result<Option<Texts>, Memory>
    requires { Ascends pair_cmp service_key there.now }
    ensures { IfOk result (λ tags. new_tagged tags service.now ≡ retagged (service_at (service_key service.now) there.now) service.now) }
{
    if !service.tag_override {
        return Ok(None);
    }
    let Some(other) = found(there, service) else {
        return Ok(None);
    };
    if are_same(&other.tags, &service.tags) {
        return Ok(None);
    }
    Ok(Some(other.tags.clone()?))
}

/// The tags that the services take over.
pub(crate) fn retags<'b, 'a>(
    alloc: Global,
    services: &'b [Seen<'a, ServiceRow>],
    there: &'b [Seen<'a, ServiceRow>],
) -> Result<Vec<Retag>, Memory>
    requires { Ascends pair_cmp service_key there.now }
    ensures { IfOk result (λ tags. all_tagged tags.items services.now ≡ map (λ s. retagged (service_at (service_key s) there.now) s) services.now) }
{
    let mut all = Vec::new(alloc);
    for (at, service) in services.iter().enumerate() {
        if let Some(tags) = new_tags(service.row(), there)? {
            all.push(Retag { at, tags })?;
        }
    }
    Ok(all)
}
