//! Arrays whose items are read alike, one after the other.
ghost use Rattle.std.specs.Prelude.{[], Result};
ghost use Rattle.serde_json.specs.Data.{Data};
ghost use Rattle.serde_json.specs.View.{view, items_view, members_view};
ghost use Rattle.program_edge.specs.declared.status.LineWhy.{LineWhy as LineWhyOf};
ghost use Rattle.line_text.specs.Reading.{Gives, each_read};
ghost use Rattle.line_text.specs.Parts.{i32_read, i64_read, list_read, or_default, text_read};

use crate::parts::{array_of, i32_of, i64_of, member, text_of};
use gd_variant::Text;
use program_edge::LineStop;
use serde_json::{Map, Value};
use sqlite_items::Items;
use std::alloc::Global;

/// What is read of a value, wherever it stands.
pub trait FromValue: Sized + Drop {
    ghost reading: { Data → Result Self LineWhyOf };

    fn from_value(alloc: Global, value: &Value) -> Result<Self, LineStop>
        ensures { Gives (λ x. x) result (reading (view value.now)) };
}

impl FromValue for Text {
    ghost reading = { text_read };

    fn from_value(alloc: Global, value: &Value) -> Result<Text, LineStop> {
        text_of(alloc, value)
    }
}

impl FromValue for i32 {
    ghost reading = { i32_read };

    fn from_value(_alloc: Global, value: &Value) -> Result<i32, LineStop> {
        i32_of(value)
    }
}

impl FromValue for i64 {
    ghost reading = { i64_read };

    fn from_value(_alloc: Global, value: &Value) -> Result<i64, LineStop> {
        i64_of(value)
    }
}

/// Each item, in order.
fn each<T: FromValue>(alloc: Global, items: &[Value]) -> Result<Items<T>, LineStop>
    ensures { Gives (λ xs. xs) result (each_read T.reading (items_view items.now)) }
{
    let mut all = Items::new(alloc);
    for item in items {
        let one = T::from_value(alloc, item)?;
        all.push(one)?;
    }
    Ok(all)
}

/// An array, each item read alike.
#[tactic(auto, unfolding(crate::specs::Parts::list_read))]
pub fn list_of<T: FromValue>(alloc: Global, value: &Value) -> Result<Items<T>, LineStop>
    ensures { Gives (λ xs. xs) result (list_read T.reading (view value.now)) }
{
    let items = array_of(value)?;
    each(alloc, items)
}

/// An array of a key that may be missing, and no items then.
#[tactic(auto, unfolding(crate::specs::Parts::optional))]
pub fn optional_list_of<T: FromValue>(
    alloc: Global,
    members: &Map<String, Value>,
    key: &str,
) -> Result<Items<T>, LineStop>
    ensures { Gives (λ xs. xs) result (or_default [] (list_read T.reading) key.now (members_view members.now.entries)) }
{
    match member(members, key) {
        Some(value) => list_of(alloc, value),
        None => Ok(Items::new(alloc)),
    }
}
