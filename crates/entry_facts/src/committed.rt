/// An accepted commit: its process and its navigation, which is also the number of the document.
#[derive(Clone, Copy, Debug, PartialEq, Eq)]
pub struct Committed {
    pub process: u32,
    pub document: u32,
}
