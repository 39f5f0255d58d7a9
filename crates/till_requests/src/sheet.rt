//! Reads a branch's sheet, which says which copy is which film, and who has the copy.
ghost use Rattle.std.specs.Prelude.{◌≡◌, ℕ, List, [], false, Some, IfOk, IfErr, option_map, string_bytes};
ghost use Rattle.csv.specs.Machine.{next_record};
ghost use Rattle.csv.specs.Reading.{default_config, records_from, strip_bom};
ghost use Rattle.csv.specs.Records.{fields_of};
ghost use Rattle.csv.specs.declared.parser.State.{State};
ghost use Rattle.csv.specs.declared.parser.State.TheVariants as st;
ghost use Rattle.till_requests.specs.SheetProgress.{IsAt, Found};
ghost use Rattle.till_requests.specs.SheetRows.{text_at, has_header, is_row_of, row_of, first_row, row_in_sheet};
ghost use Rattle.till_requests.specs.SheetRows.{folded, is_named, first_number, number_in_sheet};
ghost use Rattle.till_requests.specs.SheetSeen.{seen_row};

use caseless::default_case_fold_str;
use csv::{ByteRecord, Reader, ReaderBuilder};
use shop_types::{CopyNo, CustomerNo, FilmNo, RentalNo, RowNumber};
use std::alloc::Global;

/// The line that a sheet begins with.
const HEADER: &[u8] =
    b"version,branch,until,copy,film,title,rating,price,rental,customer,name,due\n";

/// More records than a sheet has.
const MOST: u32 = 1_000_000;

/// A copy's row of a sheet. The last three are none, or empty, if the copy was in the shop.
#[derive(Drop)]
pub struct SheetRow {
    pub film: Option<FilmNo>,
    pub title: String,
    pub rental: Option<RentalNo>,
    pub customer: Option<CustomerNo>,
    /// The last day of the rental's period, as `2026-03-09`.
    pub due: String,
}

/// Why a sheet wasn't read.
#[derive(Clone, Copy)]
pub enum SheetFault {
    /// It begins with another line.
    OtherHeader,
    /// The row has bytes that are no text.
    NotText,
    /// There was no memory left.
    Memory,
}

/// Tests whether a text begins as a sheet does.
fn has_header(text: &[u8]) -> bool
    ensures { result ≡ has_header text.now }
{
    if text.len() < 75 {
        return false;
    }
    &text[..75] == HEADER
}

/// Returns a field of a record, or an empty one if there is none.
fn text_at(fields: &ByteRecord, at: usize) -> &[u8]
    ensures { result.now ≡ text_at at (fields_of fields.now) }
{
    match fields.get(at) {
        Some(text) => text,
        None => b"".as_slice(),
    }
}

/// Tests whether a record is the copy's row, and of version 1.
fn is_row_of(fields: &ByteRecord, copy: CopyNo) -> bool
    ensures { result ≡ is_row_of copy (fields_of fields.now) }
{
    match CopyNo::read(text_at(fields, 3)) {
        Some(it) => it.get() == copy.get() && text_at(fields, 0) == b"1".as_slice(),
        None => false,
    }
}

/// Returns a copy of a field that is text.
fn owned(alloc: Global, field: &[u8]) -> Result<String, SheetFault>
    ensures text { IfOk result (λ text. string_bytes text ≡ field.now) }
    ensures fault { IfErr result (λ fault. fault ≡ SheetFault.OtherHeader → ⊥) }
{
    let Ok(text) = std::str::from_utf8(field) else {
        return Err(SheetFault::NotText);
    };
    match String::from_str(alloc, text) {
        Ok(text) => Ok(text),
        Err(_) => Err(SheetFault::Memory),
    }
}

/// Returns the row that a record says.
fn row_in(alloc: Global, fields: &ByteRecord) -> Result<SheetRow, SheetFault>
    ensures row { IfOk result (λ row. seen_row row ≡ row_of (fields_of fields.now)) }
    ensures fault { IfErr result (λ fault. fault ≡ SheetFault.OtherHeader → ⊥) }
{
    let title = match owned(alloc, text_at(fields, 5)) {
        Ok(title) => title,
        Err(fault) => return Err(fault),
    };
    let due = match owned(alloc, text_at(fields, 11)) {
        Ok(due) => due,
        Err(fault) => return Err(fault),
    };
    Ok(SheetRow {
        film: FilmNo::read(text_at(fields, 4)),
        title,
        rental: RentalNo::read(text_at(fields, 8)),
        customer: CustomerNo::read(text_at(fields, 9)),
        due,
    })
}

/// Returns a reader at the start of a text. It reads records of any length.
fn start<'a>(alloc: Global, text: &'a [u8]) -> Reader<&'a [u8]>
    ensures { IsAt result st.StartRecord (strip_bom text.now) }
{
    ReaderBuilder::new()
        .has_headers(false)
        .flexible(true)
        .from_reader(alloc, text)
}

/// Reads the next record, if there is one. It fails only with out of memory, since bytes that are in memory always
/// read.
fn next(reader: &mut Reader<&[u8]>, fields: &mut ByteRecord) -> Result<bool, SheetFault>
    ensures found { IfOk result (λ found. (s : State) (rest : List ℕ) → IsAt reader.old s rest
        → Found (next_record default_config s [] [] rest) reader.new found (fields_of fields.new)) }
    ensures fault { IfErr result (λ fault. fault ≡ SheetFault.OtherHeader → ⊥) }
{
    match reader.read_byte_record(fields) {
        Ok(found) => Ok(found),
        Err(_) => Err(SheetFault::Memory),
    }
}

/// Returns the first row of the copy among the records that are left.
fn row_among(
    alloc: Global,
    reader: &mut Reader<&[u8]>,
    copy: CopyNo,
) -> Result<Option<SheetRow>, SheetFault>
    ensures row { IfOk result (λ row. (s : State) (rest : List ℕ) → IsAt reader.old s rest
        → first_row copy (records_from default_config 1000000 s rest) ≡ option_map seen_row row) }
    ensures fault { IfErr result (λ fault. fault ≡ SheetFault.OtherHeader → ⊥) }
{
    let mut fields = ByteRecord::new(alloc);
    for at in 0..MOST {
        if !next(reader, &mut fields)? {
            return Ok(None);
        }
        if is_row_of(&fields, copy) {
            let row = row_in(alloc, &fields)?;
            return Ok(Some(row));
        }
    }
    Ok(None)
}

/// Returns the first row of a copy in a sheet of version 1, if it has one. Fails with `OtherHeader` if the text doesn't
/// begin as a sheet does. A row of another version isn't looked at.
pub fn find_row(alloc: Global, text: &[u8], copy: CopyNo) -> Result<Option<SheetRow>, SheetFault>
    ensures row { IfOk result (λ row. row_in_sheet copy text.now ≡ Some (option_map seen_row row)) }
    ensures header { IfErr result (λ fault. fault ≡ SheetFault.OtherHeader → has_header text.now ≡ false) }
{
    if !has_header(text) {
        return Err(SheetFault::OtherHeader);
    }
    let mut reader = start(alloc, text);
    row_among(alloc, &mut reader, copy)
}

// ---- lines with names

/// Returns the text without upper and lower case.
fn folded(alloc: Global, text: &str) -> Result<String, SheetFault>
    ensures text { IfOk result (λ s. string_bytes s ≡ folded text.now) }
    ensures fault { IfErr result (λ fault. fault ≡ SheetFault.OtherHeader → ⊥) }
{
    match default_case_fold_str(alloc, text) {
        Ok(text) => Ok(text),
        Err(_) => Err(SheetFault::Memory),
    }
}

/// Tests whether a record is a line of that kind with that name, but for upper and lower case. Fails with `NotText` if
/// it is of that kind, and its name isn't text.
fn is_named(alloc: Global, fields: &ByteRecord, kind: &str, name: &str) -> Result<bool, SheetFault>
    ensures is { IfOk result (λ it. it ≡ is_named kind.now name.now (fields_of fields.now)) }
    ensures fault { IfErr result (λ fault. fault ≡ SheetFault.OtherHeader → ⊥) }
{
    if text_at(fields, 0) != kind.as_bytes() {
        return Ok(false);
    }
    let Ok(own) = std::str::from_utf8(text_at(fields, 5)) else {
        return Err(SheetFault::NotText);
    };
    let own = folded(alloc, own)?;
    let other = folded(alloc, name)?;
    Ok(own.as_bytes() == other.as_bytes())
}

/// Returns the number in the first line of that kind with that name among the records that are left.
fn number_among<const KIND: u8>(
    alloc: Global,
    reader: &mut Reader<&[u8]>,
    kind: &str,
    name: &str,
) -> Result<Option<RowNumber<KIND>>, SheetFault>
    ensures number { IfOk result (λ number. (s : State) (rest : List ℕ) → IsAt reader.old s rest
        → first_number kind.now name.now (records_from default_config 1000000 s rest) ≡ number) }
    ensures fault { IfErr result (λ fault. fault ≡ SheetFault.OtherHeader → ⊥) }
{
    let mut fields = ByteRecord::new(alloc);
    for at in 0..MOST {
        if !next(reader, &mut fields)? {
            return Ok(None);
        }
        if is_named(alloc, &fields, kind, name)? {
            return Ok(RowNumber::read(text_at(&fields, 3)));
        }
    }
    Ok(None)
}

/// Returns the number that a sheet of version 1 has for a name of that kind, if it has one: `city` for cities, and `staff`
/// for members of the branch's staff. Upper and lower case are the same. Fails with `OtherHeader` if the text doesn't
/// begin as a sheet does.
pub fn find_number<const KIND: u8>(
    alloc: Global,
    text: &[u8],
    kind: &str,
    name: &str,
) -> Result<Option<RowNumber<KIND>>, SheetFault>
    ensures number { IfOk result (λ number. number_in_sheet kind.now name.now text.now ≡ Some number) }
    ensures header { IfErr result (λ fault. fault ≡ SheetFault.OtherHeader → has_header text.now ≡ false) }
{
    if !has_header(text) {
        return Err(SheetFault::OtherHeader);
    }
    let mut reader = start(alloc, text);
    number_among(alloc, &mut reader, kind, name)
}
