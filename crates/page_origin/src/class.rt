/// What the URL of a page leads to.
#[derive(Clone, Copy, Debug, PartialEq, Eq)]
pub enum UrlClass {
    /// The scheme is `http` or `https`.
    Web,
    /// The scheme is `about` and the path is `blank`.
    AboutBlank,
    /// The scheme is `about` and the path is `srcdoc`.
    AboutSrcdoc,
    /// The scheme is `data`.
    DataUrl,
    /// Everything else.
    Foreign,
}
