//! The trait of services.

ghost use Rattle.std.specs.Prelude.{◌≡◌, ◌++◌, ◌<◌, ◌-◌, ◌^◌, IfOk, List, Ok, length, true, ℕ};

use page_origin::{NoMemory, TupleOrigin};
use service_rule::ServiceAnswer;
use std::alloc::Global;

/// A service that keeps the requests which it accepted, of each tuple origin by itself.
pub trait Service {
    ghost use Rattle.page_origin.specs.declared.origin.TupleOrigin.{TupleOrigin};
    ghost use Rattle.history_entry.specs.declared.rule.Rule.{Rule};
    ghost use Rattle.service_rule.specs.Services.{ServiceRule, is_service_rule};
    ghost use Rattle.service_rule.specs.declared.service.Asked.{Asked};
    ghost use Rattle.service_rule.specs.declared.service.ServiceAnswer.{ServiceAnswer};
    ghost use Rattle.origin_service.specs.Kept.{gained};

    // The rule by which it answers. No call changes it.
    ghost rule: { ServiceRule };

    // The requests to the service of a name that it accepted of a tuple origin, in order.
    ghost kept: { Self → List ℕ → TupleOrigin → List Asked };

    /// Answers the request of a document, and keeps it where it is accepted.
    ///
    /// `live` lists the current documents by rising number. A refusal carries a rule of services. A refused request changes nothing
    /// that is kept, nor does a want of memory, and what is kept of other origins and to other services stays.
    fn ask(
        &mut self,
        alloc: Global,
        service: &str,
        origin: &TupleOrigin,
        document: u32,
        live: &[u32],
        request: &str,
    ) -> Result<ServiceAnswer, NoMemory>
        requires { length (kept self.old service.now origin.now) < 2 ^ 32 - 1 }
        ensures answer { IfOk result (λ answer. answer ≡ rule service.now (kept self.old service.now origin.now) live.now request.now) }
        ensures refused { (why : Rule) → result ≡ Ok (ServiceAnswer.Refused why) → is_service_rule why ≡ true }
        ensures kept { (name : List ℕ) (tuple : TupleOrigin) →
            kept self.new name tuple ≡ kept self.old name tuple ++ gained result service.now origin.now document request.now name tuple };
}
