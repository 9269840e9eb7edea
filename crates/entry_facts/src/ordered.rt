use script_model::{Origin, Site, UrlText};

/// What an order says, lent by its entry.
pub struct Ordered<'a> {
    pub process: u32,
    pub site: &'a Site,
    pub origin: &'a Origin,
    pub url: &'a UrlText,
}

impl Clone for Ordered<'_> {
    fn clone(&self) -> Result<Self, std::alloc::AllocError> {
        Ok(*self)
    }
}

impl Copy for Ordered<'_> {}
