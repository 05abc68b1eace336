//! The table of paths.

use Route::{Agent, Catalog, Health, Kv, Query, Session, Txn};

/// What is asked of a path, by its methods.
#[derive(Clone, Copy, Debug, Drop)]
pub(crate) enum Route {
    Kv,
    Txn,
    Catalog(CatalogRoute),
    Health(HealthRoute),
    Session(SessionRoute),
    Query(QueryRoute),
    Agent(AgentRoute),
}

#[derive(Clone, Copy, Debug, Drop)]
pub(crate) enum CatalogRoute {
    Register,
    Deregister,
    Upgrade,
    Nodes,
    Services,
    Service,
    Node,
}

#[derive(Clone, Copy, Debug, Drop)]
pub(crate) enum HealthRoute {
    Node,
    Checks,
    Service,
    State,
}

#[derive(Clone, Copy, Debug, Drop)]
pub(crate) enum SessionRoute {
    Create,
    Destroy,
    Renew,
    Info,
    Node,
    List,
}

#[derive(Clone, Copy, Debug, Drop)]
pub(crate) enum QueryRoute {
    All,
    One,
    Execute,
}

#[derive(Clone, Copy, Debug, Drop)]
pub(crate) enum AgentRoute {
    Services,
    Checks,
    ServiceRegister,
    ServiceDeregister,
    CheckRegister,
    CheckDeregister,
    CheckPass,
    CheckWarn,
    CheckFail,
    CheckUpdate,
}

/// The paths of the API, each with its route. For a name in braces stands one byte or more without a slash, and for one
/// with a star all that follows. A path has one such parameter at most, and no path is of two rows.
pub(crate) const TABLE: [(&str, Route); 33] = [
    ("/v1/kv/", Kv),
    ("/v1/kv/{*key}", Kv),
    ("/v1/txn", Txn),
    ("/v1/catalog/register", Catalog(CatalogRoute::Register)),
    ("/v1/catalog/deregister", Catalog(CatalogRoute::Deregister)),
    ("/v1/catalog/upgrade", Catalog(CatalogRoute::Upgrade)),
    ("/v1/catalog/nodes", Catalog(CatalogRoute::Nodes)),
    ("/v1/catalog/services", Catalog(CatalogRoute::Services)),
    ("/v1/catalog/service/{name}", Catalog(CatalogRoute::Service)),
    ("/v1/catalog/node/{node}", Catalog(CatalogRoute::Node)),
    ("/v1/health/node/{node}", Health(HealthRoute::Node)),
    ("/v1/health/checks/{name}", Health(HealthRoute::Checks)),
    ("/v1/health/service/{name}", Health(HealthRoute::Service)),
    ("/v1/health/state/{state}", Health(HealthRoute::State)),
    ("/v1/session/create", Session(SessionRoute::Create)),
    ("/v1/session/destroy/{id}", Session(SessionRoute::Destroy)),
    ("/v1/session/renew/{id}", Session(SessionRoute::Renew)),
    ("/v1/session/info/{id}", Session(SessionRoute::Info)),
    ("/v1/session/node/{node}", Session(SessionRoute::Node)),
    ("/v1/session/list", Session(SessionRoute::List)),
    ("/v1/query", Query(QueryRoute::All)),
    ("/v1/query/{idn}", Query(QueryRoute::One)),
    ("/v1/query/{idn}/execute", Query(QueryRoute::Execute)),
    ("/v1/agent/services", Agent(AgentRoute::Services)),
    ("/v1/agent/checks", Agent(AgentRoute::Checks)),
    (
        "/v1/agent/service/register",
        Agent(AgentRoute::ServiceRegister),
    ),
    (
        "/v1/agent/service/deregister/{id}",
        Agent(AgentRoute::ServiceDeregister),
    ),
    ("/v1/agent/check/register", Agent(AgentRoute::CheckRegister)),
    (
        "/v1/agent/check/deregister/{id}",
        Agent(AgentRoute::CheckDeregister),
    ),
    ("/v1/agent/check/pass/{id}", Agent(AgentRoute::CheckPass)),
    ("/v1/agent/check/warn/{id}", Agent(AgentRoute::CheckWarn)),
    ("/v1/agent/check/fail/{id}", Agent(AgentRoute::CheckFail)),
    (
        "/v1/agent/check/update/{id}",
        Agent(AgentRoute::CheckUpdate),
    ),
];
