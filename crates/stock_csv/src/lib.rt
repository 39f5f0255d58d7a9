//! Reads stock files. A stock file lists which films a branch gets, and how many copies of each.
#![tactic(auto)]

ghost use Rattle.std.specs.Prelude.{◌≡◌, ℕ, List, [], Some, Ok, IfOk, IfErr, option_map};
ghost use Rattle.csv.specs.Machine.{next_record};
ghost use Rattle.csv.specs.Reading.{default_config, records_from, strip_bom};
ghost use Rattle.csv.specs.Records.{fields_of};
ghost use Rattle.csv.specs.declared.parser.State.{State};
ghost use Rattle.csv.specs.declared.parser.State.TheVariants as st;
ghost use Rattle.shop_types.specs.Numbers.{row_number_of};
ghost use Rattle.stock_csv.specs.Rows.{copies_of, two_of, row_from, row_of, is_header, rows_from, stock_rows_of};
ghost use Rattle.stock_csv.specs.Stock.{IsStock};
ghost use Rattle.stock_csv.specs.Progress.{IsAt, Found};
ghost use Rattle.stock_csv.specs.Fault.{IsFaultOf};

use csv::{ByteRecord, Reader, ReaderBuilder};
use shop_types::{BadCsv, FilmNo};
use std::alloc::Global;

/// A row of a stock file: how many copies of a film come, from 1 to 99.
#[derive(Clone, Copy)]
pub struct StockRow {
    pub film: FilmNo,
    pub copies: u16,
}

/// Why a stock file was not read.
#[derive(Clone, Copy)]
pub enum StockFault {
    /// The file breaks a rule.
    Bad(BadCsv),
    /// There was no memory left.
    Memory,
}

#[tactic(auto, using(crate::proofs::CopiesLemmas::long_is_none))]
fn copies_in(field: &[u8]) -> Option<u16>
    ensures { result ≡ copies_of field.now }
{
    match field {
        [ones @ b'1'..=b'9'] => Some(u16::from(*ones - b'0')),
        [tens @ b'1'..=b'9', ones @ b'0'..=b'9'] => {
            Some(u16::from(*tens - b'0') * 10 + u16::from(*ones - b'0'))
        }
        _ => None,
    }
}

/// Returns the fields of a record that has two.
#[tactic(auto, using(crate::proofs::RowLemmas::two_some, crate::proofs::RowLemmas::two_missing))]
fn two(fields: &ByteRecord) -> Option<(&[u8], &[u8])>
    ensures { option_map (λ pair. (pair.0.now, pair.1.now)) result ≡ two_of (fields_of fields.now) }
{
    if fields.len() != 2 {
        return None;
    }
    let Some(first) = fields.get(0) else {
        return None;
    };
    let Some(second) = fields.get(1) else {
        return None;
    };
    Some((first, second))
}

/// Returns whether a record is the header row.
fn is_header(fields: &ByteRecord) -> bool
    ensures { result ≡ is_header (fields_of fields.now) }
{
    match two(fields) {
        Some((first, second)) => {
            first == b"film_id".as_slice() && second == b"copies".as_slice()
        }
        None => false,
    }
}

fn row_from(first: &[u8], second: &[u8]) -> Option<StockRow>
    ensures { result ≡ row_from (row_number_of first.now) (copies_of second.now) }
{
    let film = FilmNo::read(first)?;
    let copies = copies_in(second)?;
    Some(StockRow { film, copies })
}

fn row_in(fields: &ByteRecord) -> Option<StockRow>
    ensures { result ≡ row_of (fields_of fields.now) }
{
    match two(fields) {
        Some((first, second)) => row_from(first, second),
        None => None,
    }
}

/// Returns a reader at the start of a text. It reads records of any length, and `two` finds the records that haven't
/// two fields.
fn start<'a>(alloc: Global, text: &'a [u8]) -> Reader<&'a [u8]>
    ensures { IsAt result st.StartRecord (strip_bom text.now) }
{
    ReaderBuilder::new()
        .has_headers(false)
        .flexible(true)
        .from_reader(alloc, text)
}

/// Reads the next record, if there is one. It fails only with out of memory, since bytes that are in memory always
/// read.
fn next(reader: &mut Reader<&[u8]>, fields: &mut ByteRecord) -> Result<bool, StockFault>
    ensures found { IfOk result (λ found. (s : State) (rest : List ℕ) → IsAt reader.old s rest
        → Found (next_record default_config s [] [] rest) reader.new found (fields_of fields.new)) }
    ensures fault { IfErr result (λ e. e ≡ StockFault.Memory) }
{
    match reader.read_byte_record(fields) {
        Ok(found) => Ok(found),
        Err(_) => Err(StockFault::Memory),
    }
}

/// Reads the rows below the header row.
fn read_rows(
    alloc: Global,
    reader: &mut Reader<&[u8]>,
    fields: &mut ByteRecord,
) -> Result<Vec<StockRow>, StockFault>
    ensures rows { IfOk result (λ v. (s : State) (rest : List ℕ) → IsAt reader.old s rest
        → rows_from 2 0 (records_from default_config 501 s rest) ≡ Ok v.items) }
    ensures fault { IfErr result (λ e. (s : State) (rest : List ℕ) → IsAt reader.old s rest
        → IsFaultOf e (rows_from 2 0 (records_from default_config 501 s rest))) }
{
    let mut rows = Vec::new(alloc);
    let mut total = 0u32;
    for line in 2..502u32 {
        if !next(reader, fields)? {
            return if line == 2 {
                Err(StockFault::Bad(BadCsv { line }))
            } else {
                Ok(rows)
            };
        }
        let Some(row) = row_in(fields) else {
            return Err(StockFault::Bad(BadCsv { line }));
        };
        let copies = u32::from(row.copies);
        if total + copies > 1000 {
            return Err(StockFault::Bad(BadCsv { line }));
        }
        if rows.push(row).is_err() {
            return Err(StockFault::Memory);
        }
        total += copies;
    }
    if next(reader, fields)? {
        Err(StockFault::Bad(BadCsv { line: 502 }))
    } else {
        Ok(rows)
    }
}

/// Reads the rows of a stock file, in the file's order. Fails with the number of the first record at fault. The header
/// row has the number 1.
///
/// The text is comma-separated, with double quotes around a field that needs them. It may start with one UTF-8 byte
/// order mark. Its first record is `film_id,copies`. Each further record has the number of a film, and how many copies
/// of it come, from 1 to 99. Both are in decimal with no leading zero. There are 1 to 500 such rows, and at most 1,000
/// copies in all. Blank lines are skipped and have no number. If there is no row, the fault is on line 2. In an empty
/// text the fault is on line 1.
pub fn read_stock(alloc: Global, text: &[u8]) -> Result<Vec<StockRow>, StockFault>
    ensures rows { IfOk result (λ v. stock_rows_of text.now ≡ Ok v.items) }
    ensures limits { IfOk result (λ v. IsStock v.items) }
    ensures fault { IfErr result (λ e. IsFaultOf e (stock_rows_of text.now)) }
{
    let mut reader = start(alloc, text);
    let mut fields = ByteRecord::new(alloc);
    if !next(&mut reader, &mut fields)? {
        return Err(StockFault::Bad(BadCsv { line: 1 }));
    }
    if !is_header(&fields) {
        return Err(StockFault::Bad(BadCsv { line: 1 }));
    }
    read_rows(alloc, &mut reader, &mut fields)
}
