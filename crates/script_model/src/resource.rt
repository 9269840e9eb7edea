ghost use Rattle.std.specs.Prelude.{◌≡◌, true};
ghost use Rattle.page_origin.specs.PageUrls.{class_of};
ghost use Rattle.script_model.specs.ResourceData.{empty_resource, fails_at_once, is_resource_class};

use crate::action::Action;
use bytes::Bytes;
use http::StatusCode;
use http_header::HeaderMap;
use mime_kind::Head;
use page_origin::PageUrl;
use std::alloc::Global;
use std::marker::Model;

/// The places at which a body is cut into pieces.
#[derive(Drop)]
pub struct Cuts {
    cuts: Vec<u32>,
}

impl Model for Cuts {
    ghost use Rattle.std.specs.Prelude.{ℕ, List};

    ghost Value = { List ℕ };

    ghost view = { λ c. c.cuts.items };
}

impl Cuts {
    /// The cuts at these places.
    pub fn from_vec(cuts: Vec<u32>) -> Self
        ensures { result ≡ cuts.items }
    {
        Cuts { cuts }
    }

    /// The places, as the script gives them.
    pub fn as_slice(&self) -> &[u32]
        ensures { result.now ≡ self.now }
    {
        self.cuts.as_slice()
    }
}

/// What a document does, one action after another.
#[derive(Drop)]
pub struct Actions {
    actions: Vec<Action>,
}

impl Model for Actions {
    ghost use Rattle.std.specs.Prelude.{List};
    ghost use Rattle.script_model.specs.declared.action.Action.{Action as ActionData};

    ghost Value = { List ActionData };

    ghost view = { λ a. a.actions.items };
}

impl Actions {
    /// The list of these actions.
    pub fn from_vec(actions: Vec<Action>) -> Self
        ensures { result ≡ actions.items }
    {
        Actions { actions }
    }

    /// The actions, in order.
    pub fn as_slice(&self) -> &[Action]
        ensures { result.now ≡ self.now }
    {
        self.actions.as_slice()
    }
}

/// What stands at a URL of class Web, AboutBlank or DataUrl.
///
/// The status is from 200 to 599. There are at most 64 header values, with names of at most 64 bytes and values of at most
/// 1,024. The body has at most 16,384 bytes, and at most 63 cuts, which rise and lie within it. Actions are at most 64, with
/// URL texts of at most 4,096 bytes, other texts of at most 1,024, and service names of 1 to 32.
#[derive(Drop)]
pub struct Resource {
    pub url: PageUrl,
    pub head: Head,
    pub body: Bytes,
    pub cuts: Cuts,
    /// After how many bytes of the body the wire fails, if it does.
    pub fail_after: Option<u32>,
    pub actions: Actions,
}

impl Model for Resource {
    ghost use Rattle.script_model.specs.ResourceData.{ResourceData, IsResource};

    ghost Value = { ResourceData };

    ghost view = { λ r. record { url = r.url; head = r.head; body = r.body; cuts = r.cuts; fail_after = r.fail_after; actions = r.actions } };

    ghost invariant = { λ r. IsResource (record { url = r.url; head = r.head; body = r.body; cuts = r.cuts; fail_after = r.fail_after; actions = r.actions }) };
}

impl Resource {
    /// What stands at a URL, with all else as where a script leaves it out: status 200, no headers, an empty body that
    /// does not break off, and no actions.
    pub fn new(alloc: Global, url: PageUrl) -> Resource
        requires { is_resource_class (class_of url) ≡ true }
        ensures { result ≡ empty_resource url }
    {
        Resource {
            url,
            head: Head {
                status: StatusCode::OK,
                fields: HeaderMap::empty(alloc),
            },
            body: Bytes::new(),
            cuts: Cuts::from_vec(Vec::new(alloc)),
            fail_after: None,
            actions: Actions::from_vec(Vec::new(alloc)),
        }
    }

    /// Whether its wire fails before the head.
    pub fn fails_at_once(&self) -> bool
        ensures { result ≡ fails_at_once self.now }
    {
        self.fail_after == Some(0)
    }
}

/// A list of resources.
#[derive(Drop)]
pub struct Resources {
    resources: Vec<Resource>,
}

impl Model for Resources {
    ghost use Rattle.std.specs.Prelude.{List};
    ghost use Rattle.script_model.specs.ResourceData.{ResourceData};

    ghost Value = { List ResourceData };

    ghost view = { λ r. r.resources.items };
}

impl Resources {
    /// The list of these resources.
    pub fn from_vec(resources: Vec<Resource>) -> Self
        ensures { result ≡ resources.items }
    {
        Resources { resources }
    }

    /// The resources, in order.
    pub fn as_slice(&self) -> &[Resource]
        ensures { result.now ≡ self.now }
    {
        self.resources.as_slice()
    }
}
