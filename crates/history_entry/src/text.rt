ghost use Rattle.std.specs.Prelude.{◌≡◌, IfOk, string_bytes};

use crate::plain_text::PlainText;
use page_origin::NoMemory;
use std::alloc::Global;
use std::marker::Model;

/// The text of a URL as it was given. It may be no URL.
#[derive(Drop, PartialEq)]
pub struct RawUrl {
    text: PlainText,
}

impl Model for RawUrl {
    ghost use Rattle.std.specs.Prelude.{ℕ, List};

    ghost Value = { List ℕ };

    ghost view = { λ t. t.text };

    ghost inverse = { λ text. record { text = text } };
}

impl RawUrl {
    /// The URL as this text gives it, whatever the text is.
    pub fn new(text: String) -> Self
        ensures { result ≡ string_bytes text }
    {
        RawUrl {
            text: PlainText::new(text),
        }
    }

    /// The URL as a copy of this text gives it.
    pub fn of(alloc: Global, text: &str) -> Result<Self, NoMemory>
        ensures { IfOk result (λ copy. copy ≡ text.now) }
    {
        Ok(RawUrl {
            text: PlainText::of(alloc, text)?,
        })
    }

    /// The text as it was given.
    pub fn as_str(&self) -> &str
        ensures { result.now ≡ self.now }
    {
        self.text.as_str()
    }

    /// An equal URL, in memory of its own.
    pub fn copy(&self, alloc: Global) -> Result<Self, NoMemory>
        ensures { IfOk result (λ copy. copy ≡ self.now) }
    {
        Self::of(alloc, self.as_str())
    }
}

/// The text of a request, an answer or a post.
#[derive(Drop, PartialEq)]
pub struct RequestText {
    text: PlainText,
}

impl Model for RequestText {
    ghost use Rattle.std.specs.Prelude.{ℕ, List};

    ghost Value = { List ℕ };

    ghost view = { λ t. t.text };

    ghost inverse = { λ text. record { text = text } };
}

impl RequestText {
    /// The text of a request, an answer or a post, whatever it is.
    pub fn new(text: String) -> Self
        ensures { result ≡ string_bytes text }
    {
        RequestText {
            text: PlainText::new(text),
        }
    }

    /// The text of a request, an answer or a post, as a copy.
    pub fn of(alloc: Global, text: &str) -> Result<Self, NoMemory>
        ensures { IfOk result (λ copy. copy ≡ text.now) }
    {
        Ok(RequestText {
            text: PlainText::of(alloc, text)?,
        })
    }

    /// The text as it was given.
    pub fn as_str(&self) -> &str
        ensures { result.now ≡ self.now }
    {
        self.text.as_str()
    }

    /// An equal text, in memory of its own.
    pub fn copy(&self, alloc: Global) -> Result<Self, NoMemory>
        ensures { IfOk result (λ copy. copy ≡ self.now) }
    {
        Self::of(alloc, self.as_str())
    }
}

/// The name of a service.
#[derive(Drop, PartialEq)]
pub struct ServiceName {
    text: PlainText,
}

impl Model for ServiceName {
    ghost use Rattle.std.specs.Prelude.{ℕ, List};

    ghost Value = { List ℕ };

    ghost view = { λ t. t.text };

    ghost inverse = { λ text. record { text = text } };
}

impl ServiceName {
    /// The name of a service, whatever the text is.
    pub fn new(text: String) -> Self
        ensures { result ≡ string_bytes text }
    {
        ServiceName {
            text: PlainText::new(text),
        }
    }

    /// The name of a service, as a copy of this text.
    pub fn of(alloc: Global, text: &str) -> Result<Self, NoMemory>
        ensures { IfOk result (λ copy. copy ≡ text.now) }
    {
        Ok(ServiceName {
            text: PlainText::of(alloc, text)?,
        })
    }

    /// The text of the name.
    pub fn as_str(&self) -> &str
        ensures { result.now ≡ self.now }
    {
        self.text.as_str()
    }

    /// An equal name, in memory of its own.
    pub fn copy(&self, alloc: Global) -> Result<Self, NoMemory>
        ensures { IfOk result (λ copy. copy ≡ self.now) }
    {
        Self::of(alloc, self.as_str())
    }
}
