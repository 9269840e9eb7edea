use script_model::{Origin, RequestText};

/// A post, lent by its message: the frame that it names, and what an inbox gets of it.
pub struct Post<'a> {
    pub frame: u32,
    pub source: &'a Origin,
    pub text: &'a RequestText,
}

impl Clone for Post<'_> {
    fn clone(&self) -> Result<Self, std::alloc::AllocError> {
        Ok(*self)
    }
}

impl Copy for Post<'_> {}
