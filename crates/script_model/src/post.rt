use history_entry::RequestText;
use page_origin::Origin;

/// A post as an inbox keeps it.
#[derive(Drop)]
pub struct Posted {
    pub source: Origin,
    pub text: RequestText,
}
