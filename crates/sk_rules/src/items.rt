//! Lists: each item is read behind those before it.

ghost use Rattle.std.specs.Prelude.{◌≡◌, ℕ, List, Result, []};
ghost use Rattle.serde_json.specs.Data.{Data};
ghost use Rattle.serde_json.specs.View.{view, items_view};
ghost use Rattle.sk_rules.specs.Outcome.{Answers, AnswersAs};
ghost use Rattle.sk_rules.specs.Fields.{items_read};
ghost use Rattle.sk_rules.specs.declared.fault.ScenarioFault.{ScenarioFault};

use crate::fault::ScenarioFault;
use serde_json::Value;
use sk_config::Path;
use std::alloc::Global;

/// A reader of the items of a list.
pub trait ReadItem {
    /// What an item says.
    type Item: Drop;

    // What a value says that stands at this path behind these items, or its first fault.
    ghost meaning: { Self → List ℕ → List Self.Item → Data → Result Self.Item ScenarioFault };

    /// What this value says, which stands at this path behind these items.
    fn read(
        &self,
        alloc: Global,
        at: &Path,
        earlier: &[Self::Item],
        value: &Value,
    ) -> Result<Self::Item, ScenarioFault>
        ensures { Answers (meaning self.now at.now earlier.now (view value.now)) result };
}

/// What the items of a list say.
pub fn read_items<R: ReadItem>(
    alloc: Global,
    reader: &R,
    at: &Path,
    items: &[Value],
) -> Result<Vec<R::Item>, ScenarioFault>
    ensures { AnswersAs (λ read. read.items) (items_read (R.meaning reader.now) at.now [] 0 (items_view items.now)) result }
{
    let mut read = Vec::new(alloc);
    for (index, item) in items.iter().enumerate() {
        let place = at.index(alloc, index)?;
        let value = reader.read(alloc, &place, &read, item)?;
        read.push(value)?;
    }
    Ok(read)
}
