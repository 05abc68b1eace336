use cat_model::Texts;

/// What a registration or its undoing touched of its node: whether its own row, the names of the services whose rows went
/// or came, and the services of the checks whose rows did, which are empty for checks of the node alone.
#[derive(Drop)]
pub(crate) struct Touched {
    pub(crate) nodes: bool,
    pub(crate) names: Texts,
    pub(crate) served: Texts,
}
