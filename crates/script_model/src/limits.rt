//! The limits of the format of scripts, and those of the browser.

/// Start pages of a script.
pub const MAX_START_PAGES: usize = 64;

/// Resources of a script.
pub const MAX_RESOURCES: usize = 1024;

/// Isolated origins that a script names, repeats counted.
pub const MAX_ISOLATED_ORIGINS: usize = 64;

/// Bytes of the text of a script's suffix rules.
pub const MAX_SUFFIX_TEXT: usize = 1_048_576;

/// The highest soft limit that a script sets, and the one where it sets none.
pub const MAX_SOFT_LIMIT: u32 = 64;

/// Headers of a resource.
pub const MAX_HEADERS: usize = 64;

/// Bytes of the name of a header.
pub const MAX_HEADER_NAME: usize = 64;

/// Bytes of the value of a header, without the blanks at its ends.
pub const MAX_HEADER_VALUE: usize = 1024;

/// Bytes of the body of a resource.
pub const MAX_BODY: usize = 16_384;

/// Cuts of a body, which comes in one piece more at most.
pub const MAX_CUTS: usize = 63;

/// Actions of a resource.
pub const MAX_ACTIONS: usize = 64;

/// Bytes of the text of a URL, whether it can be read or not.
pub const MAX_URL_INPUT: usize = 4096;

/// Bytes of the text of a post, or of a request to a service.
pub const MAX_SHORT_TEXT: usize = 1024;

/// Bytes of the name of a service.
pub const MAX_SERVICE_NAME: usize = 32;

/// Frames of a history.
pub const MAX_FRAMES: u32 = 64;

/// Navigations of a history.
pub const MAX_NAVIGATIONS: u32 = 256;

/// Requests of a history.
pub const MAX_REQUESTS: u32 = 4096;

/// Processes that are live at a time.
pub const MAX_LIVE_PROCESSES: u32 = 64;

/// Processes that are started in all.
pub const MAX_STARTED_PROCESSES: u32 = 1024;

/// Redirects that one request follows.
pub const MAX_REDIRECTS: u32 = 20;
