//! The script of a run, named by a type.

ghost use Rattle.std.specs.Prelude.{[], false};
ghost use Rattle.history_entry.specs.declared.policy.Policy.TheVariants.{One};
ghost use Rattle.script_model.specs.ScriptData.{ScriptData};

use std::marker::Brand;

/// Which script a desk is for. Each run picks it.
pub trait Named {
    ghost script: { ScriptData };
}

impl Named for Brand {
    ghost script = { record { policy = One; rules = record { suffixes = []; isolated = [] }; spare = false; soft_limit = 0; start = []; resources = [] } };
}
