//! A JSON list that is written value by value.

ghost use Rattle.std.specs.Prelude.{◌≡◌, List, [], ◌∷◌, ◌++◌, false, IfOk, OnOk, OnErr, string_bytes};
ghost use Rattle.serde_json.specs.View.{view};
ghost use Rattle.serde_json.specs.Written.{compact_text, has_float};
ghost use Rattle.shop_model.specs.Json.{array};
ghost use Rattle.shop_model.specs.Values.{Text};
ghost use Rattle.shop_views.specs.Page.{opening, closing, HasTexts};

use crate::lists::ListedRow;
use serde_json::Value;
use std::alloc::{AllocError, Global};
use std::marker::Model;

/// The text of a list of values that come one at a time.
#[derive(Drop)]
pub struct ListPage {
    alloc: Global,
    text: String,
    has_items: bool,
}

impl Model for ListPage {
    ghost use Rattle.std.specs.Prelude.{string_bytes};
    ghost use Rattle.shop_views.specs.Page.{Page};

    ghost Value = { Page };

    ghost view = { λ p. record { text = string_bytes p.text; has_items = p.has_items } };
}

/// Returns what comes before a value: a comma, or the bracket that opens the list.
fn opening(later: bool) -> &'static str
    ensures { result.now ≡ opening later }
{
    if later { "," } else { "[" }
}

/// Writes the value's text, after a comma or the bracket that opens the list.
fn piece(alloc: Global, later: bool, value: &Value) -> Result<String, AllocError>
    ensures { IfOk result (λ s. has_float (view value.now) ≡ false
        → string_bytes s ≡ opening later ++ compact_text (view value.now)) }
{
    let text = value.to_string(alloc)?;
    let opening = opening(later);
    format!(in alloc; "{opening}{text}")
}

/// Returns what ends the list.
fn closing(some: bool) -> &'static str
    ensures { result.now ≡ closing some }
{
    if some { "]" } else { "[]" }
}

impl ListPage {
    /// Makes the list without values. It takes no memory.
    pub fn new(alloc: Global) -> ListPage
        ensures { HasTexts result [] }
    {
        ListPage {
            alloc,
            text: String::new(alloc),
            has_items: false,
        }
    }

    /// Adds the value at the end of the list. If it runs out of memory, the page stays as it was.
    pub fn add(&mut self, value: &Value) -> Result<(), AllocError>
        ensures added { OnOk result ((texts : List Text) → has_float (view value.now) ≡ false
            → HasTexts self.old texts → HasTexts self.new (texts ++ compact_text (view value.now) ∷ [])) }
        ensures same { OnErr result (self.new ≡ self.old) }
    {
        let piece = piece(self.alloc, self.has_items, value)?;
        self.text.push_str(piece.as_str())?;
        self.has_items = true;
        Ok(())
    }

    /// Adds the row's value at the end of the list.
    pub fn add_row<R: ListedRow>(&mut self, row: &R) -> Result<(), AllocError>
        ensures { OnOk result ((texts : List Text) → HasTexts self.old texts
            → HasTexts self.new (texts ++ R.ListedRow.written row.now ∷ [])) }
    {
        let value = R::value(self.alloc, row)?;
        self.add(&value)
    }

    /// Returns the text of the whole list.
    pub fn finish(self) -> Result<String, AllocError>
        ensures { IfOk result (λ s. (texts : List Text) → HasTexts self texts → string_bytes s ≡ array texts) }
    {
        let ListPage {
            mut text,
            has_items,
            ..
        } = self;
        text.push_str(closing(has_items))?;
        Ok(text)
    }
}
