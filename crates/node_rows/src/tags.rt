//! Tags of services that are written anew.

ghost use Rattle.std.specs.Prelude.{◌≡◌};
ghost use Rattle.node_rows.specs.Tags.{all_tagged, tagged_at};

use cat_model::{ServiceRow, Texts};

/// Other tags for the service at this place of a list.
#[derive(Debug, Drop)]
pub struct Retag {
    pub at: usize,
    pub tags: Texts,
}

fn give_tags(services: &mut Vec<ServiceRow>, new: Retag)
    ensures { services.new.items ≡ tagged_at new.at new.tags services.old.items }
{
    let Retag { at, tags } = new;
    if at < services.len() {
        services[at].tags = tags;
    }
}

/// Gives the services these tags.
pub fn retag_all(services: &mut Vec<ServiceRow>, new: Vec<Retag>)
    ensures { services.new.items ≡ all_tagged new.items services.old.items }
{
    for one in new {
        give_tags(services, one);
    }
}
