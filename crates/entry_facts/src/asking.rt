use script_model::RequestText;

/// A request to a service, lent by its message, with the document that asked.
pub struct Asking<'a> {
    pub document: u32,
    pub request: &'a RequestText,
}

impl Clone for Asking<'_> {
    fn clone(&self) -> Result<Self, std::alloc::AllocError> {
        Ok(*self)
    }
}

impl Copy for Asking<'_> {}
