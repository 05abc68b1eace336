use cat_model::Texts;

/// What a registration or its undoing changed: the tables, the service names of which what a read takes differs now, and
/// those of them that had services and have none now.
#[derive(Debug, Drop)]
pub struct Changed {
    pub nodes: bool,
    pub services: bool,
    pub checks: bool,
    pub names: Texts,
    pub vanished: Texts,
}
