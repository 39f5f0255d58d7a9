//! Shows the lists of looks and views as tables, and looks up one number in a list.

ghost use Rattle.std.specs.Prelude.{◌≡◌, [], ◌∷◌, Some, None, IfOk, IfErr, OnOk, map, option_map, string_bytes, codes};
ghost use Rattle.serde_json.specs.View.{view};
ghost use Rattle.till_shows.specs.Bodies.{each};
ghost use Rattle.till_shows.specs.Fields.{row_of};
ghost use Rattle.till_shows.specs.Lists.{is_left_out, begins_with, stands_in, folded, searched_text, searched_texts};
ghost use Rattle.till_shows.specs.Lists.{is_found, are_found, is_sought, has_words, headed, more_rows};
ghost use Rattle.till_shows.specs.Lists.{found_rows, table_in, whole_table, customer_fields, film_fields};
ghost use Rattle.till_shows.specs.Lists.{overdue_fields, arrival_fields, sent_fields, store_fields, category_fields};
ghost use Rattle.till_shows.specs.Lists.{first_named, named_in};
ghost use Rattle.till_shows.specs.declared.bodies.NotShown.TheVariants.{OtherForm};

use crate::bodies::{NotShown, has_number, owned_text, rows_of, text_at, value_of};
use crate::parts::{Member, columns_of, money_part, number, plain, row_text, searched};
use crate::tables::Table;
use caseless::default_case_fold_str;
use serde_json::Value;
use shop_types::{CustomerNo, FilmNo};
use std::alloc::{AllocError, Global};

/// Reports whether the byte is a hyphen of the text that the part leaves out.
fn is_left_out(p: u8, t: u8) -> bool
    ensures { result ≡ is_left_out p t }
{
    t == b'-' && p != b'-'
}

/// Reports whether the text begins with the part. The part may leave out hyphens.
fn begins_with(text: &[u8], part: &[u8]) -> bool
    ensures { result ≡ begins_with part.now text.now }
{
    let mut left = part;
    for t in text {
        let [p, rest @ ..] = left else {
            return true;
        };
        if !is_left_out(*p, *t) {
            if *p != *t {
                return false;
            }
            left = rest;
        }
    }
    left.is_empty()
}

/// Reports whether the text contains the part.
#[tactic(auto, using(crate::proofs::ListLemmas::stands_here, crate::proofs::ListLemmas::nothing_stands))]
fn stands_in(text: &[u8], part: &[u8]) -> bool
    ensures { result ≡ stands_in part.now text.now }
{
    for at in 0..text.len() {
        if begins_with(&text[at..], part) {
            return true;
        }
    }
    part.is_empty()
}

/// Returns the text without upper and lower case.
fn folded(alloc: Global, text: &str) -> Result<String, AllocError>
    ensures { IfOk result (λ s. string_bytes s ≡ folded text.now) }
{
    default_case_fold_str(alloc, text)
}

/// Returns the object's text of the field without upper and lower case, if the field is searched and the object has it.
fn searched_text(alloc: Global, value: &Value, field: &Member) -> Result<Option<String>, AllocError>
    ensures { IfOk result (λ text. option_map string_bytes text ≡ searched_text (view value.now) field.now) }
{
    if !field.is_searched {
        return Ok(None);
    }
    match text_at(value, field.name) {
        Some(text) => Ok(Some(folded(alloc, text)?)),
        None => Ok(None),
    }
}

/// Returns the object's searched texts without upper and lower case.
fn searched_texts(alloc: Global, value: &Value, parts: &[Member]) -> Result<Vec<String>, AllocError>
    ensures { IfOk result (λ texts. map string_bytes texts.items ≡ searched_texts parts.now (view value.now)) }
{
    let mut texts = Vec::new(alloc);
    for part in parts {
        if let Some(text) = searched_text(alloc, value, part)? {
            texts.push(text)?;
        }
    }
    Ok(texts)
}

/// Reports whether one of the texts contains the part.
fn is_found(texts: &[String], part: &str) -> bool
    ensures { result ≡ is_found (map string_bytes texts.now) part.now }
{
    for text in texts {
        if stands_in(text.as_bytes(), part.as_bytes()) {
            return true;
        }
    }
    part.is_empty()
}

/// Reports whether each word is found in the texts. Commas separate the words.
fn are_found(texts: &[String], words: &str) -> bool
    ensures { result ≡ are_found (map string_bytes texts.now) words.now }
{
    words.split(',').all(|word| is_found(texts, word))
}

/// Reports whether each word is found in the texts. Blanks and commas separate the words.
fn is_sought(texts: &[String], words: &str) -> bool
    ensures { result ≡ is_sought (map string_bytes texts.now) words.now }
{
    words.split(' ').all(|piece| are_found(texts, piece))
}

/// Reports whether each word is found in the object.
fn has_words(
    alloc: Global,
    value: &Value,
    parts: &[Member],
    words: &str,
) -> Result<bool, AllocError>
    ensures { IfOk result (λ has. has ≡ has_words words.now parts.now (view value.now)) }
{
    let texts = searched_texts(alloc, value, parts)?;
    Ok(is_sought(texts.as_slice(), words))
}

/// Adds the object's row to the table.
fn add_row(
    alloc: Global,
    value: &Value,
    parts: &[Member],
    table: &mut Table,
) -> Result<(), NotShown>
    ensures shown { OnOk result (option_map (more_rows table.old) (each (row_of parts.now) (view value.now ∷ []))
        ≡ Some table.new) }
    ensures other { IfErr result (λ fault. fault ≡ OtherForm
        → each (row_of parts.now) (view value.now ∷ []) ≡ None) }
{
    let row = row_text(alloc, value, parts)?;
    table.add(row)?;
    Ok(())
}

/// Adds the object's row to the table, if the words of the part are found in the object.
fn add_found(
    alloc: Global,
    value: &Value,
    parts: &[Member],
    part: &str,
    table: &mut Table,
) -> Result<(), NotShown>
    ensures shown { OnOk result (option_map (more_rows table.old) (found_rows parts.now part.now (view value.now ∷ []))
        ≡ Some table.new) }
    ensures other { IfErr result (λ fault. fault ≡ OtherForm
        → found_rows parts.now part.now (view value.now ∷ []) ≡ None) }
{
    let is_sought = has_words(alloc, value, parts, part)?;
    if is_sought {
        return add_row(alloc, value, parts, table);
    }
    Ok(())
}

/// Adds a row for each object in which the part's words are found, in their order.
fn add_rows(
    alloc: Global,
    rows: &[Value],
    parts: &[Member],
    part: &str,
    table: &mut Table,
) -> Result<(), NotShown>
    ensures shown { OnOk result (option_map (more_rows table.old) (found_rows parts.now part.now (map view rows.now))
        ≡ Some table.new) }
    ensures other { IfErr result (λ fault. fault ≡ OtherForm
        → found_rows parts.now part.now (map view rows.now) ≡ None) }
{
    for row in rows {
        add_found(alloc, row, parts, part, table)?;
    }
    Ok(())
}

/// Returns a table with the headings of the parts, and no row.
fn empty_table(alloc: Global, parts: &[Member]) -> Result<Table, AllocError>
    ensures { IfOk result (λ table. table ≡ headed parts.now) }
{
    let columns = columns_of(alloc, parts)?;
    Table::new(alloc, columns.as_slice())
}

/// Returns the table, with these parts, of the objects in which the part's words are found, in their order.
fn table_of_rows(
    alloc: Global,
    rows: &[Value],
    parts: &[Member],
    part: &str,
) -> Result<Table, NotShown>
    ensures shown { IfOk result (λ table. option_map (more_rows (headed parts.now))
        (found_rows parts.now part.now (map view rows.now)) ≡ Some table) }
    ensures other { IfErr result (λ fault. fault ≡ OtherForm
        → found_rows parts.now part.now (map view rows.now) ≡ None) }
{
    let mut table = empty_table(alloc, parts)?;
    add_rows(alloc, rows, parts, part, &mut table)?;
    Ok(table)
}

/// Returns the table, with these parts, of the body's objects in which the part's words are found, in the body's order.
fn table_of(alloc: Global, body: &[u8], parts: &[Member], part: &str) -> Result<Table, NotShown>
    ensures shown { IfOk result (λ table. table_in parts.now part.now body.now ≡ Some table) }
    ensures other { IfErr result (λ fault. fault ≡ OtherForm → table_in parts.now part.now body.now ≡ None) }
{
    let value = value_of(alloc, body)?;
    match rows_of(&value) {
        Some(rows) => table_of_rows(alloc, rows, parts, part),
        None => Err(NotShown::OtherForm),
    }
}

/// Returns the table, with these parts, of all objects in the body's list.
fn whole_table(alloc: Global, body: &[u8], parts: &[Member]) -> Result<Table, NotShown>
    ensures shown { IfOk result (λ table. whole_table parts.now body.now ≡ Some table) }
    ensures other { IfErr result (λ fault. fault ≡ OtherForm → whole_table parts.now body.now ≡ None) }
{
    table_of(alloc, body, parts, "")
}

fn customer_parts() -> [Member; 6]
    ensures { result ≡ customer_fields }
{
    [
        number("id", "customer"),
        searched("name", "name"),
        searched("phone", "phone"),
        plain("address", "address"),
        plain("city", "city"),
        plain("note", "note"),
    ]
}

/// Returns the table of the customers whose name or telephone number contains each word of the part, from the body of
/// `GET /views/customer_list`. Blanks and commas separate the words, which may be in any order. Ignores upper and lower
/// case of any script, and hyphens that a word leaves out. Keeps the order of the list. Each text contains an empty word.
pub fn customers_with(alloc: Global, body: &[u8], part: &str) -> Result<Table, NotShown>
    ensures shown { IfOk result (λ table. table_in customer_fields (folded part.now) body.now ≡ Some table) }
    ensures other { IfErr result (λ fault. fault ≡ OtherForm
        → table_in customer_fields (folded part.now) body.now ≡ None) }
{
    let part = folded(alloc, part)?;
    table_of(alloc, body, customer_parts().as_slice(), part.as_str())
}

fn film_parts() -> [Member; 5]
    ensures { result ≡ film_fields }
{
    [
        number("film", "film"),
        searched("title", "title"),
        plain("rating", "rating"),
        money_part("price", "price"),
        plain("category", "category"),
    ]
}

/// Returns the table of the films whose title contains each word of the part, from the body of `GET /views/film_list`.
/// Blanks and commas separate the words, which may be in any order. Ignores upper and lower case of any script, and
/// hyphens that a word leaves out. Keeps the order of the list. Each text contains an empty word.
pub fn films_with(alloc: Global, body: &[u8], part: &str) -> Result<Table, NotShown>
    ensures shown { IfOk result (λ table. table_in film_fields (folded part.now) body.now ≡ Some table) }
    ensures other { IfErr result (λ fault. fault ≡ OtherForm → table_in film_fields (folded part.now) body.now ≡ None) }
{
    let part = folded(alloc, part)?;
    table_of(alloc, body, film_parts().as_slice(), part.as_str())
}

fn overdue_parts() -> [Member; 3]
    ensures { result ≡ overdue_fields }
{
    [
        plain("customer", "customer"),
        plain("phone", "phone"),
        plain("title", "title"),
    ]
}

/// Returns the table for the body of `GET /overdue/{at}`.
pub fn overdue(alloc: Global, body: &[u8]) -> Result<Table, NotShown>
    ensures shown { IfOk result (λ table. whole_table overdue_fields body.now ≡ Some table) }
    ensures other { IfErr result (λ fault. fault ≡ OtherForm → whole_table overdue_fields body.now ≡ None) }
{
    whole_table(alloc, body, overdue_parts().as_slice())
}

fn arrival_parts() -> [Member; 4]
    ensures { result ≡ arrival_fields }
{
    [
        number("from", "from"),
        number("number", "number"),
        plain("films", "films"),
        plain("received", "received"),
    ]
}

/// Returns the table for the body of `GET /arrivals`.
pub fn arrivals(alloc: Global, body: &[u8]) -> Result<Table, NotShown>
    ensures shown { IfOk result (λ table. whole_table arrival_fields body.now ≡ Some table) }
    ensures other { IfErr result (λ fault. fault ≡ OtherForm → whole_table arrival_fields body.now ≡ None) }
{
    whole_table(alloc, body, arrival_parts().as_slice())
}

fn sent_parts() -> [Member; 3]
    ensures { result ≡ sent_fields }
{
    [
        number("to", "to"),
        number("number", "number"),
        plain("films", "films"),
    ]
}

/// Returns the table for the body of `GET /sent`.
pub fn sent(alloc: Global, body: &[u8]) -> Result<Table, NotShown>
    ensures shown { IfOk result (λ table. whole_table sent_fields body.now ≡ Some table) }
    ensures other { IfErr result (λ fault. fault ≡ OtherForm → whole_table sent_fields body.now ≡ None) }
{
    whole_table(alloc, body, sent_parts().as_slice())
}

fn store_parts() -> [Member; 3]
    ensures { result ≡ store_fields }
{
    [
        plain("store", "store"),
        plain("manager", "manager"),
        money_part("total", "total"),
    ]
}

/// Returns the table for the body of `GET /views/sales_by_store`.
pub fn sales_by_store(alloc: Global, body: &[u8]) -> Result<Table, NotShown>
    ensures shown { IfOk result (λ table. whole_table store_fields body.now ≡ Some table) }
    ensures other { IfErr result (λ fault. fault ≡ OtherForm → whole_table store_fields body.now ≡ None) }
{
    whole_table(alloc, body, store_parts().as_slice())
}

fn category_parts() -> [Member; 2]
    ensures { result ≡ category_fields }
{
    [plain("category", "category"), money_part("total", "total")]
}

/// Returns the table for the body of `GET /views/sales_by_film_category`.
pub fn sales_by_film_category(alloc: Global, body: &[u8]) -> Result<Table, NotShown>
    ensures shown { IfOk result (λ table. whole_table category_fields body.now ≡ Some table) }
    ensures other { IfErr result (λ fault. fault ≡ OtherForm → whole_table category_fields body.now ≡ None) }
{
    whole_table(alloc, body, category_parts().as_slice())
}

/// Returns the text `name` of the first object whose number `by` is the given one.
fn first_named(
    alloc: Global,
    rows: &[Value],
    by: &str,
    number: u64,
    name: &str,
) -> Result<Option<String>, NotShown>
    ensures shown { IfOk result (λ text. first_named by.now number name.now (map view rows.now)
        ≡ Some (option_map string_bytes text)) }
    ensures other { IfErr result (λ fault. fault ≡ OtherForm
        → first_named by.now number name.now (map view rows.now) ≡ None) }
{
    for row in rows {
        if has_number(row, by, number) {
            let text = owned_text(alloc, row, name)?;
            return Ok(Some(text));
        }
    }
    Ok(None)
}

/// Returns the text `name` of the first object in the body's list whose number `by` is the given one.
fn named(
    alloc: Global,
    body: &[u8],
    by: &str,
    number: u64,
    name: &str,
) -> Result<Option<String>, NotShown>
    ensures shown { IfOk result (λ text. named_in by.now number name.now body.now
        ≡ Some (option_map string_bytes text)) }
    ensures other { IfErr result (λ fault. fault ≡ OtherForm → named_in by.now number name.now body.now ≡ None) }
{
    let value = value_of(alloc, body)?;
    match rows_of(&value) {
        Some(rows) => first_named(alloc, rows, by, number, name),
        None => Err(NotShown::OtherForm),
    }
}

/// Returns the customer's name from the body of `GET /views/customer_list`, if the list has the customer.
pub fn customer_named(
    alloc: Global,
    body: &[u8],
    customer: CustomerNo,
) -> Result<Option<String>, NotShown>
    ensures shown { IfOk result (λ name. named_in (codes "id") customer (codes "name") body.now
        ≡ Some (option_map string_bytes name)) }
    ensures other { IfErr result (λ fault. fault ≡ OtherForm
        → named_in (codes "id") customer (codes "name") body.now ≡ None) }
{
    named(alloc, body, "id", customer.get() as u64, "name")
}

/// Returns the film's title from the body of `GET /views/film_list`, if the list has the film.
pub fn film_named(alloc: Global, body: &[u8], film: FilmNo) -> Result<Option<String>, NotShown>
    ensures shown { IfOk result (λ title. named_in (codes "film") film (codes "title") body.now
        ≡ Some (option_map string_bytes title)) }
    ensures other { IfErr result (λ fault. fault ≡ OtherForm
        → named_in (codes "film") film (codes "title") body.now ≡ None) }
{
    named(alloc, body, "film", film.get() as u64, "title")
}
