ghost use Rattle.std.specs.Prelude.{◌≡◌, IfOk};
ghost use Rattle.std.specs.Option.{option_copied};
ghost use Rattle.script_model.specs.Pieces as pieces;
ghost use Rattle.script_model.specs.ResourceData.{fails_at_once};
ghost use Rattle.history_rules.specs.Redirects as redirects;
ghost use Rattle.history_rules.specs.Responses.{resource_at};
ghost use Rattle.request_facts.specs.Views.{response_view};

use mime_kind::FieldText;
use page_origin::key_of_text;
use script_model::{NoMemory, Pieces, Resource, Script, find};
use std::alloc::Global;

/// The response of a URL: that of the script's resource, or else status 404 without headers and a body.
#[derive(Drop)]
pub struct Response<'a> {
    url: &'a str,
    resource: Option<&'a Resource>,
}

impl Clone for Response<'_> {
    fn clone(&self) -> Result<Self, std::alloc::AllocError> {
        Ok(*self)
    }
}

impl Copy for Response<'_> {}

/// The response of a URL.
pub fn resource_at<'a>(script: &'a Script, url: &'a str) -> Response<'a>
    ensures { response_view result ≡ resource_at script.now url.now }
{
    Response {
        url,
        resource: find(script, key_of_text(url)),
    }
}

impl<'a> Response<'a> {
    /// The script's resource, if it is one.
    pub fn resource(&self) -> Option<&'a Resource>
        ensures { result ≡ self.now.resource }
    {
        self.resource
    }

    /// Its status.
    pub fn status(&self) -> u16
        ensures { result ≡ (response_view self.now).head.status }
    {
        match self.resource {
            Some(resource) => resource.head.status.as_u16(),
            None => 404,
        }
    }

    /// Its first `Location`.
    pub fn location(&self) -> Option<&'a FieldText>
        ensures { option_copied result ≡ redirects.location_of (response_view self.now) }
    {
        match self.resource {
            Some(resource) => resource.head.fields.get("location"),
            None => None,
        }
    }

    /// Whether it redirects: such a status with a `Location`.
    pub fn is_redirect(&self) -> bool
        ensures { result ≡ redirects.is_redirect (response_view self.now) }
    {
        is_redirect_status(self.status()) && self.location().is_some()
    }

    /// Whether its status is 204 or 205, which commits nothing.
    pub fn has_no_content(&self) -> bool
        ensures { result ≡ redirects.has_no_content (response_view self.now) }
    {
        let status = self.status();
        status == 204 || status == 205
    }

    /// Whether its wire fails before the head.
    pub fn fails_at_once(&self) -> bool
        ensures { result ≡ fails_at_once (response_view self.now) }
    {
        match self.resource {
            Some(resource) => resource.fails_at_once(),
            None => false,
        }
    }

    /// Whether its wire carries all of its body.
    pub fn has_ended(&self) -> bool
        ensures { result ≡ pieces.has_ended (response_view self.now) }
    {
        match self.resource {
            Some(resource) => resource.has_ended(),
            None => true,
        }
    }

    /// The pieces in which its body comes.
    #[tactic(auto, unfolding(script_model::specs::Pieces::pieces))]
    pub fn pieces(&self, alloc: Global) -> Result<Pieces, NoMemory>
        ensures { IfOk result (λ parts. parts ≡ pieces.pieces (response_view self.now)) }
    {
        match self.resource {
            Some(resource) => resource.pieces(alloc),
            None => Ok(Pieces::empty(alloc)),
        }
    }
}

/// Whether a status is that of a redirect.
fn is_redirect_status(status: u16) -> bool
    ensures { result ≡ redirects.is_redirect_status status }
{
    matches!(status, 301 | 302 | 303 | 307 | 308)
}
