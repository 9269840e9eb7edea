ghost use Rattle.std.specs.Prelude.{◌≡◌, ◌++◌, IfOk, List, Ok, codes, true, ℕ};

use history_entry::{RequestText, Rule};
use page_origin::NoMemory;
use std::alloc::Global;

/// A request that a service accepted, with the document that asked.
#[derive(Drop)]
pub struct Asked {
    /// The number of the document.
    pub document: u32,
    /// The text of the request.
    pub request: RequestText,
}

/// What a service answers.
#[derive(Drop)]
pub enum ServiceAnswer {
    /// Accepted, with the text that is said.
    Said(RequestText),
    /// Refused, by a rule of services.
    Refused(Rule),
}

impl ServiceAnswer {
    /// The answer that says a text.
    pub fn said(alloc: Global, text: &str) -> Result<ServiceAnswer, NoMemory>
        ensures { IfOk result (λ answer. answer ≡ ServiceAnswer.Said text.now) }
    {
        Ok(ServiceAnswer::Said(RequestText::of(alloc, text)?))
    }

    /// The answer that says the value that was found: `some VALUE`.
    pub fn found(alloc: Global, value: &str) -> Result<ServiceAnswer, NoMemory>
        ensures { IfOk result (λ answer. answer ≡ ServiceAnswer.Said (codes "some " ++ value.now)) }
    {
        let mut text = String::from_str(alloc, "some ")?;
        text.push_str(value)?;
        Ok(ServiceAnswer::Said(RequestText::new(text)))
    }
}

/// A rule by which services answer.
pub trait ServiceRule {
    ghost use Rattle.service_rule.specs.declared.service.Asked.{Asked};
    ghost use Rattle.service_rule.specs.declared.service.ServiceAnswer.{ServiceAnswer};
    ghost use Rattle.history_entry.specs.declared.rule.Rule.{Rule};
    ghost use Rattle.service_rule.specs.Services.{is_service_rule};

    // To the service's name, the origin's earlier requests, the current documents and the request.
    ghost rule: { List ℕ → List Asked → List ℕ → List ℕ → ServiceAnswer };

    /// The answer of a service to a request, by the requests that it accepted of the same origin before, and the current
    /// documents by rising number, `live`. A refusal carries a rule of services.
    fn answer(
        &self,
        alloc: Global,
        service: &str,
        earlier: &[Asked],
        live: &[u32],
        request: &str,
    ) -> Result<ServiceAnswer, NoMemory>
        ensures answer { IfOk result (λ answer. answer ≡ rule service.now earlier.now live.now request.now) }
        ensures refused { (why : Rule) → result ≡ Ok (ServiceAnswer.Refused why) → is_service_rule why ≡ true };
}
