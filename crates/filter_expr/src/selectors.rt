//! The shapes of elements, and the members of them that an expression can name.

ghost use Rattle.std.specs.Prelude.{◌≡◌, bytes_eq};
ghost use Rattle.filter_expr.specs.Selectors as spec;

/// What the elements of a list are.
#[derive(Clone, Copy, Debug, PartialEq, Eq)]
pub enum Shape {
    /// A node.
    Node,
    /// An instance of a service in the catalog, with its node's address.
    CatalogService,
    /// A check.
    Check,
    /// An instance of a service with its node and its checks.
    Health,
}

/// A member of an element itself.
#[derive(Clone, Copy, Debug, PartialEq, Eq)]
pub enum TopMember {
    Address,
    CheckId,
    CreateIndex,
    Datacenter,
    ModifyIndex,
    Name,
    Node,
    Notes,
    Output,
    ServiceAddress,
    ServiceEnableTagOverride,
    ServiceId,
    ServiceName,
    ServicePort,
    ServiceTags,
    Status,
}

/// A member of the node in an element.
#[derive(Clone, Copy, Debug, PartialEq, Eq)]
pub enum NodeMember {
    Address,
    CreateIndex,
    Datacenter,
    ModifyIndex,
    Node,
}

/// A member of the service in an element.
#[derive(Clone, Copy, Debug, PartialEq, Eq)]
pub enum ServiceMember {
    Address,
    CreateIndex,
    EnableTagOverride,
    Id,
    ModifyIndex,
    Port,
    Service,
    Tags,
}

/// What an expression names of an element.
#[derive(Clone, Copy, Debug, PartialEq, Eq)]
pub enum Selector {
    Own(TopMember),
    OfNode(NodeMember),
    OfService(ServiceMember),
}

/// What a member can be.
#[derive(Clone, Copy, Debug, PartialEq, Eq)]
pub(crate) enum Sort {
    Text,
    Number,
    Truth,
    Texts,
}

impl Selector {
    ghost use Rattle.filter_expr.specs.Selectors.{sort_of};

    /// What the member is.
    pub(crate) fn sort(self) -> Sort
        ensures { result ≡ sort_of self }
    {
        match self {
            Selector::Own(member) => own_sort(member),
            Selector::OfNode(member) => node_sort(member),
            Selector::OfService(member) => service_sort(member),
        }
    }
}

fn own_sort(member: TopMember) -> Sort
    ensures { result ≡ spec.own_sort member }
{
    match member {
        TopMember::Address
        | TopMember::CheckId
        | TopMember::Datacenter
        | TopMember::Name
        | TopMember::Node
        | TopMember::Notes
        | TopMember::Output
        | TopMember::ServiceAddress
        | TopMember::ServiceId
        | TopMember::ServiceName
        | TopMember::Status => Sort::Text,
        TopMember::CreateIndex | TopMember::ModifyIndex | TopMember::ServicePort => Sort::Number,
        TopMember::ServiceEnableTagOverride => Sort::Truth,
        TopMember::ServiceTags => Sort::Texts,
    }
}

fn node_sort(member: NodeMember) -> Sort
    ensures { result ≡ spec.node_sort member }
{
    match member {
        NodeMember::Address | NodeMember::Datacenter | NodeMember::Node => Sort::Text,
        NodeMember::CreateIndex | NodeMember::ModifyIndex => Sort::Number,
    }
}

fn service_sort(member: ServiceMember) -> Sort
    ensures { result ≡ spec.service_sort member }
{
    match member {
        ServiceMember::Address | ServiceMember::Id | ServiceMember::Service => Sort::Text,
        ServiceMember::CreateIndex | ServiceMember::ModifyIndex | ServiceMember::Port =>
            Sort::Number,
        ServiceMember::EnableTagOverride => Sort::Truth,
        ServiceMember::Tags => Sort::Texts,
    }
}

fn is(path: &[u8], name: &str) -> bool
    ensures { result ≡ bytes_eq path.now name.now }
{
    path == name.as_bytes()
}

/// The member of a node that a path names.
fn of_node(path: &[u8]) -> Option<Selector>
    ensures { result ≡ spec.of_node path.now }
{
    if is(path, "Address") {
        Some(Selector::Own(TopMember::Address))
    } else if is(path, "CreateIndex") {
        Some(Selector::Own(TopMember::CreateIndex))
    } else if is(path, "Datacenter") {
        Some(Selector::Own(TopMember::Datacenter))
    } else if is(path, "ModifyIndex") {
        Some(Selector::Own(TopMember::ModifyIndex))
    } else if is(path, "Node") {
        Some(Selector::Own(TopMember::Node))
    } else {
        None
    }
}

/// The member of an instance in the catalog that a path names.
fn of_catalog_service(path: &[u8]) -> Option<Selector>
    ensures { result ≡ spec.of_catalog_service path.now }
{
    if is(path, "Address") {
        Some(Selector::Own(TopMember::Address))
    } else if is(path, "CreateIndex") {
        Some(Selector::Own(TopMember::CreateIndex))
    } else if is(path, "Datacenter") {
        Some(Selector::Own(TopMember::Datacenter))
    } else if is(path, "ModifyIndex") {
        Some(Selector::Own(TopMember::ModifyIndex))
    } else if is(path, "Node") {
        Some(Selector::Own(TopMember::Node))
    } else if is(path, "ServiceAddress") {
        Some(Selector::Own(TopMember::ServiceAddress))
    } else if is(path, "ServiceEnableTagOverride") {
        Some(Selector::Own(TopMember::ServiceEnableTagOverride))
    } else if is(path, "ServiceID") {
        Some(Selector::Own(TopMember::ServiceId))
    } else if is(path, "ServiceName") {
        Some(Selector::Own(TopMember::ServiceName))
    } else if is(path, "ServicePort") {
        Some(Selector::Own(TopMember::ServicePort))
    } else if is(path, "ServiceTags") {
        Some(Selector::Own(TopMember::ServiceTags))
    } else {
        None
    }
}

/// The member of a check that a path names.
fn of_check(path: &[u8]) -> Option<Selector>
    ensures { result ≡ spec.of_check path.now }
{
    if is(path, "CheckID") {
        Some(Selector::Own(TopMember::CheckId))
    } else if is(path, "CreateIndex") {
        Some(Selector::Own(TopMember::CreateIndex))
    } else if is(path, "ModifyIndex") {
        Some(Selector::Own(TopMember::ModifyIndex))
    } else if is(path, "Name") {
        Some(Selector::Own(TopMember::Name))
    } else if is(path, "Node") {
        Some(Selector::Own(TopMember::Node))
    } else if is(path, "Notes") {
        Some(Selector::Own(TopMember::Notes))
    } else if is(path, "Output") {
        Some(Selector::Own(TopMember::Output))
    } else if is(path, "ServiceID") {
        Some(Selector::Own(TopMember::ServiceId))
    } else if is(path, "ServiceName") {
        Some(Selector::Own(TopMember::ServiceName))
    } else if is(path, "Status") {
        Some(Selector::Own(TopMember::Status))
    } else {
        None
    }
}

/// The member of the node in an instance that a path names.
fn of_health_node(path: &[u8]) -> Option<Selector>
    ensures { result ≡ spec.of_health_node path.now }
{
    if is(path, "Node.Address") {
        Some(Selector::OfNode(NodeMember::Address))
    } else if is(path, "Node.CreateIndex") {
        Some(Selector::OfNode(NodeMember::CreateIndex))
    } else if is(path, "Node.Datacenter") {
        Some(Selector::OfNode(NodeMember::Datacenter))
    } else if is(path, "Node.ModifyIndex") {
        Some(Selector::OfNode(NodeMember::ModifyIndex))
    } else if is(path, "Node.Node") {
        Some(Selector::OfNode(NodeMember::Node))
    } else {
        None
    }
}

/// The member of the service in an instance that a path names.
fn of_health_service(path: &[u8]) -> Option<Selector>
    ensures { result ≡ spec.of_health_service path.now }
{
    if is(path, "Service.Address") {
        Some(Selector::OfService(ServiceMember::Address))
    } else if is(path, "Service.CreateIndex") {
        Some(Selector::OfService(ServiceMember::CreateIndex))
    } else if is(path, "Service.EnableTagOverride") {
        Some(Selector::OfService(ServiceMember::EnableTagOverride))
    } else if is(path, "Service.ID") {
        Some(Selector::OfService(ServiceMember::Id))
    } else if is(path, "Service.ModifyIndex") {
        Some(Selector::OfService(ServiceMember::ModifyIndex))
    } else if is(path, "Service.Port") {
        Some(Selector::OfService(ServiceMember::Port))
    } else if is(path, "Service.Service") {
        Some(Selector::OfService(ServiceMember::Service))
    } else if is(path, "Service.Tags") {
        Some(Selector::OfService(ServiceMember::Tags))
    } else {
        None
    }
}

/// The member of an element of that shape that a path names, if it is a text, a number, a truth value or a list of texts.
#[tactic(auto, unfolding(crate::specs::Selectors::selector_at))]
pub(crate) fn selector_at(shape: Shape, path: &[u8]) -> Option<Selector>
    ensures { result ≡ spec.selector_at shape path.now }
{
    match shape {
        Shape::Node => of_node(path),
        Shape::CatalogService => of_catalog_service(path),
        Shape::Check => of_check(path),
        Shape::Health => match of_health_node(path) {
            Some(selector) => Some(selector),
            None => of_health_service(path),
        },
    }
}
