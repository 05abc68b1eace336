//! The rows of which filters are asked: three of each shape.

use anyhow::Result;
use cat_model::{
    CheckRow, CheckView, Instance, List, Memory, NodeRow, ServiceRow, Status, Text, Texts,
};
use filter_expr::{Element, Filter, Listed, Shape};
use std::alloc::Global;

/// Three rows of each shape. The instances have the nodes.
#[derive(Drop)]
pub struct Rows {
    nodes: List<NodeRow>,
    instances: List<Instance>,
    checks: List<CheckView>,
}

impl Rows {
    pub fn new(alloc: Global) -> Result<Rows, Memory> {
        Ok(Rows {
            nodes: nodes(alloc)?,
            instances: instances(alloc)?,
            checks: checks(alloc)?,
        })
    }

    /// The places of the rows that are kept, from 1 on.
    pub fn kept(&self, alloc: Global, shape: Shape, filter: &Filter) -> Result<String> {
        match shape {
            Shape::Node => places(alloc, self.nodes.as_slice(), filter),
            Shape::CatalogService => listed_places(alloc, self.instances.as_slice(), filter),
            Shape::Check => places(alloc, self.checks.as_slice(), filter),
            Shape::Health => places(alloc, self.instances.as_slice(), filter),
        }
    }
}

fn places<E: Element>(alloc: Global, rows: &[E], filter: &Filter) -> Result<String> {
    let mut places = String::new(alloc);
    for (i, row) in rows.iter().enumerate() {
        if filter.keeps(row) {
            places.push_str(place(i))?;
        }
    }
    or_none(places)
}

// The same of instances as the catalog lists them.
fn listed_places(alloc: Global, rows: &[Instance], filter: &Filter) -> Result<String> {
    let mut places = String::new(alloc);
    for (i, row) in rows.iter().enumerate() {
        if filter.keeps(&Listed(row)) {
            places.push_str(place(i))?;
        }
    }
    or_none(places)
}

fn or_none(places: String) -> Result<String> {
    let mut places = places;
    if places.is_empty() {
        places.push_str("none")?;
    }
    Ok(places)
}

fn place(index: usize) -> &'static str {
    match index {
        0 => "1",
        1 => "2",
        _ => "3",
    }
}

// ---- nodes

fn node(alloc: Global, name: &str, address: &str, indexes: (u64, u64)) -> Result<NodeRow, Memory> {
    let (create, modify) = indexes;
    Ok(NodeRow {
        node: Text::new(alloc, name)?,
        address: Text::new(alloc, address)?,
        create,
        modify,
    })
}

fn first_node(alloc: Global) -> Result<NodeRow, Memory> {
    node(alloc, "n1", "10.0.0.1", (2, 2))
}

fn second_node(alloc: Global) -> Result<NodeRow, Memory> {
    node(alloc, "n2", "", (3, u64::MAX))
}

fn third_node(alloc: Global) -> Result<NodeRow, Memory> {
    node(alloc, "and", "db.local:1/x_y-z", (0, 10))
}

fn nodes(alloc: Global) -> Result<List<NodeRow>, Memory> {
    let mut nodes = List::new(alloc);
    nodes.push(first_node(alloc)?)?;
    nodes.push(second_node(alloc)?)?;
    nodes.push(third_node(alloc)?)?;
    Ok(nodes)
}

// ---- instances

fn texts(alloc: Global, texts: &[&str]) -> Result<Texts, Memory> {
    let mut list = List::new(alloc);
    for text in texts {
        list.push(Text::new(alloc, text)?)?;
    }
    Ok(list)
}

fn first_service(alloc: Global) -> Result<ServiceRow, Memory> {
    Ok(ServiceRow {
        node: Text::new(alloc, "n1")?,
        id: Text::new(alloc, "web")?,
        name: Text::new(alloc, "web")?,
        tags: List::new(alloc),
        address: Text::new(alloc, "")?,
        port: 80,
        tag_override: false,
        create: 5,
        modify: 6,
    })
}

fn second_service(alloc: Global) -> Result<ServiceRow, Memory> {
    Ok(ServiceRow {
        node: Text::new(alloc, "n2")?,
        id: Text::new(alloc, "web2")?,
        name: Text::new(alloc, "web")?,
        tags: texts(alloc, &["v1", "v2"])?,
        address: Text::new(alloc, "10.9.9.9")?,
        port: 8080,
        tag_override: true,
        create: 7,
        modify: 9,
    })
}

fn third_service(alloc: Global) -> Result<ServiceRow, Memory> {
    Ok(ServiceRow {
        node: Text::new(alloc, "and")?,
        id: Text::new(alloc, "db")?,
        name: Text::new(alloc, "db")?,
        tags: texts(alloc, &["v1", "in", "a b"])?,
        address: Text::new(alloc, "db.local")?,
        port: 0,
        tag_override: false,
        create: 8,
        modify: 8,
    })
}

fn instances(alloc: Global) -> Result<List<Instance>, Memory> {
    let mut instances = List::new(alloc);
    instances.push(Instance {
        node: first_node(alloc)?,
        service: first_service(alloc)?,
        checks: List::new(alloc),
    })?;
    instances.push(Instance {
        node: second_node(alloc)?,
        service: second_service(alloc)?,
        checks: checks(alloc)?,
    })?;
    instances.push(Instance {
        node: third_node(alloc)?,
        service: third_service(alloc)?,
        checks: List::new(alloc),
    })?;
    Ok(instances)
}

// ---- checks

fn first_check(alloc: Global) -> Result<CheckView, Memory> {
    Ok(CheckView {
        row: CheckRow {
            node: Text::new(alloc, "n1")?,
            id: Text::new(alloc, "c")?,
            name: Text::new(alloc, "cn")?,
            status: Status::Passing,
            notes: Text::new(alloc, "")?,
            output: Text::new(alloc, "o k")?,
            service: Text::new(alloc, "")?,
            create: 7,
            modify: 8,
        },
        service_name: Text::new(alloc, "")?,
    })
}

fn second_check(alloc: Global) -> Result<CheckView, Memory> {
    Ok(CheckView {
        row: CheckRow {
            node: Text::new(alloc, "n2")?,
            id: Text::new(alloc, "d")?,
            name: Text::new(alloc, "dn")?,
            status: Status::Critical,
            notes: Text::new(alloc, "x")?,
            output: Text::new(alloc, "")?,
            service: Text::new(alloc, "web2")?,
            create: 7,
            modify: 9,
        },
        service_name: Text::new(alloc, "web")?,
    })
}

fn third_check(alloc: Global) -> Result<CheckView, Memory> {
    Ok(CheckView {
        row: CheckRow {
            node: Text::new(alloc, "n2")?,
            id: Text::new(alloc, "e")?,
            name: Text::new(alloc, "en")?,
            status: Status::Warning,
            notes: Text::new(alloc, "not")?,
            output: Text::new(alloc, "disk (80% full)")?,
            service: Text::new(alloc, "db")?,
            create: 1,
            modify: 1,
        },
        service_name: Text::new(alloc, "db")?,
    })
}

fn checks(alloc: Global) -> Result<List<CheckView>, Memory> {
    let mut checks = List::new(alloc);
    checks.push(first_check(alloc)?)?;
    checks.push(second_check(alloc)?)?;
    checks.push(third_check(alloc)?)?;
    Ok(checks)
}
