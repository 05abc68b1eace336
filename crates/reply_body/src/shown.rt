use cat_model::{Bytes, Form};

/// What a reply shows: the HTTP status, and the body in its form.
#[derive(Debug, Drop)]
pub struct Shown {
    pub status: u16,
    pub body: Bytes,
    pub form: Form,
}
