//! Tables of texts. Each column is as wide as its widest text.

ghost use Rattle.std.specs.Prelude.{◌≡◌, ◌==◌, ◌∷◌, ◌++◌, [], ℕ, map, drop, take, IfOk, OnOk, OnErr, string_bytes};
ghost use Rattle.till_shows.specs.Tables.{cell_at, width_of, blanks, between, column_width, places, with_cell};
ghost use Rattle.till_shows.specs.Tables.{line_text, table_text, seen_headings, seen_sides, row_count};

use std::alloc::{AllocError, Global};
use std::marker::Model;
use unicode_width::UnicodeWidthStr;

/// How the texts of a column are aligned: to the left, or to the right as numbers are.
#[derive(Clone, Copy)]
pub enum Side {
    Left,
    Right,
}

/// A column's heading, and how its texts are aligned.
#[derive(Clone, Copy)]
pub struct Column {
    pub heading: &'static str,
    pub side: Side,
}

/// The texts of a line of a table, by column. They have no control characters.
#[derive(Drop)]
pub struct Row {
    cells: Vec<String>,
}

impl Model for Row {
    ghost use Rattle.std.specs.Prelude.{List, ℕ, map, string_bytes};

    ghost Value = { List (List ℕ) };

    ghost view = { λ a. map string_bytes a.cells.items };
}

impl Row {
    /// Returns a row with no text. Takes no memory.
    pub fn new(alloc: Global) -> Row
        ensures { result ≡ [] }
    {
        Row {
            cells: Vec::new(alloc),
        }
    }

    /// Puts the text into the next column. If there is no memory, the row stays as it was.
    pub fn push(&mut self, text: String) -> Result<(), AllocError>
        ensures pushed { OnOk result (self.new ≡ self.old ++ string_bytes text ∷ []) }
        ensures same { OnErr result (self.new ≡ self.old) }
    {
        self.cells.push(text)?;
        Ok(())
    }

    /// Returns the text in this column, counted from 0, or an empty text if the row has none there.
    fn cell(&self, at: usize) -> &str
        ensures { result.now ≡ cell_at at self.now }
    {
        match self.cells.get(at) {
            Some(text) => text.as_str(),
            None => "",
        }
    }
}

/// Returns how many columns of a terminal the text takes.
fn width_of(text: &str) -> usize
    ensures { result ≡ width_of text.now }
{
    text.width()
}

/// Adds so many blanks to the end of the text.
fn push_blanks(text: &mut String, count: usize) -> Result<(), AllocError>
    ensures { OnOk result (string_bytes text.new ≡ string_bytes text.old ++ blanks count) }
{
    for _ in 0..count {
        text.push_str(" ")?;
    }
    Ok(())
}

/// Where a cell goes: to a side of so many columns of a terminal.
#[derive(Clone, Copy)]
struct Place {
    side: Side,
    width: usize,
}

/// A line that is written cell by cell.
#[derive(Drop)]
struct Line {
    text: String,
    /// The blanks to write before the next text, if one comes.
    gap: String,
}

impl Model for Line {
    ghost use Rattle.std.specs.Prelude.{string_bytes};
    ghost use Rattle.till_shows.specs.Lines.{Line as Written};

    ghost Value = { Written };

    ghost view = { λ a. record { text = string_bytes a.text; gap = string_bytes a.gap } };
}

impl Line {
    fn new(alloc: Global) -> Line
        ensures { result ≡ record { text = []; gap = [] } }
    {
        Line {
            text: String::new(alloc),
            gap: String::new(alloc),
        }
    }

    /// Adds an empty cell of this width.
    fn add_nothing(&mut self, width: usize) -> Result<(), AllocError>
        ensures { OnOk result (self.new
            ≡ record { text = self.old.text; gap = self.old.gap ++ (blanks width ++ between) }) }
    {
        push_blanks(&mut self.gap, width)?;
        self.gap.push_str("  ")
    }

    /// Adds a text, with so many blanks before it and after it.
    fn add_text(&mut self, before: usize, text: &str, behind: usize) -> Result<(), AllocError>
        ensures { OnOk result (self.new
            ≡ record {
              text = self.old.text ++ (self.old.gap ++ (blanks before ++ text.now));
              gap = blanks behind
                  ++ between;
            }) }
    {
        self.text.push_str(self.gap.as_str())?;
        self.gap.clear();
        push_blanks(&mut self.text, before)?;
        self.text.push_str(text)?;
        push_blanks(&mut self.gap, behind)?;
        self.gap.push_str("  ")
    }

    fn add(&mut self, place: Place, text: &str) -> Result<(), AllocError>
        ensures { OnOk result (self.new ≡ with_cell place text.now self.old) }
    {
        if text.is_empty() {
            return self.add_nothing(place.width);
        }
        let rest = place.width.saturating_sub(width_of(text));
        match place.side {
            Side::Left => self.add_text(0, text, rest),
            Side::Right => self.add_text(rest, text, 0),
        }
    }
}

/// Returns the row's line, without a line feed.
fn row_line(alloc: Global, places: &[Place], row: &Row) -> Result<String, AllocError>
    ensures { IfOk result (λ s. string_bytes s ≡ line_text places.now row.now) }
{
    let mut line = Line::new(alloc);
    for (at, place) in places.iter().enumerate() {
        line.add(*place, row.cell(at))?;
    }
    let Line { text, .. } = line;
    Ok(text)
}

/// Returns the width of the column's widest text.
fn column_width(rows: &[Row], at: usize) -> usize
    ensures { result ≡ column_width at rows.now }
{
    let mut most = 0;
    for row in rows {
        let width = width_of(row.cell(at));
        if width > most {
            most = width;
        }
    }
    most
}

/// Returns the places of each row's cells.
fn places(alloc: Global, sides: &[Side], rows: &[Row]) -> Result<Vec<Place>, AllocError>
    ensures { IfOk result (λ v. v.items ≡ places 0 sides.now rows.now) }
{
    let mut places = Vec::new(alloc);
    for (at, side) in sides.iter().enumerate() {
        let width = column_width(rows, at);
        places.push(Place { side: *side, width })?;
    }
    Ok(places)
}

/// A table. A row may have no text in a column.
#[derive(Drop)]
pub struct Table {
    sides: Vec<Side>,
    /// The first row has the headings.
    rows: Vec<Row>,
}

impl Model for Table {
    ghost use Rattle.till_shows.specs.Lines.{Table as Tabled};

    ghost Value = { Tabled };

    ghost view = { λ a. record { sides = a.sides.items; rows = a.rows.items } };
}

fn sides_of(alloc: Global, columns: &[Column]) -> Result<Vec<Side>, AllocError>
    ensures { IfOk result (λ v. v.items ≡ seen_sides columns.now) }
{
    let mut sides = Vec::new(alloc);
    for column in columns {
        sides.push(column.side)?;
    }
    Ok(sides)
}

fn headings_of(alloc: Global, columns: &[Column]) -> Result<Row, AllocError>
    ensures { IfOk result (λ row. row ≡ seen_headings columns.now) }
{
    let mut row = Row::new(alloc);
    for column in columns {
        row.push(String::from_str(alloc, column.heading)?)?;
    }
    Ok(row)
}

impl Table {
    /// Returns a table with the headings of the columns, and no row.
    pub fn new(alloc: Global, columns: &[Column]) -> Result<Table, AllocError>
        ensures { IfOk result (λ table. table
            ≡ record { sides = seen_sides columns.now; rows = seen_headings columns.now ∷ [] }) }
    {
        let sides = sides_of(alloc, columns)?;
        let headings = headings_of(alloc, columns)?;
        let mut rows = Vec::new(alloc);
        rows.push(headings)?;
        Ok(Table { sides, rows })
    }

    /// Adds the row at the end. If there is no memory, the table stays as it was.
    pub fn add(&mut self, row: Row) -> Result<(), AllocError>
        ensures added { OnOk result (self.new ≡ record { sides = self.old.sides; rows = self.old.rows ++ row ∷ [] }) }
        ensures same { OnErr result (self.new ≡ self.old) }
    {
        self.rows.push(row)?;
        Ok(())
    }

    /// Returns how many rows the table has, without the headings.
    pub fn len(&self) -> usize
        ensures { result ≡ row_count self.now }
    {
        self.rows.len().saturating_sub(1)
    }

    /// Reports whether the table has only headings.
    pub fn is_empty(&self) -> bool
        ensures { result ≡ (row_count self.now == 0) }
    {
        self.len() == 0
    }

    /// Returns the table's lines, the headings first. Each line ends with a line feed. A column is as wide as its
    /// widest text takes in a terminal. There are two blanks between columns, and no blank after a line's last text.
    pub fn text(&self, alloc: Global) -> Result<String, AllocError>
        ensures { IfOk result (λ s. string_bytes s ≡ table_text self.now) }
    {
        let places = places(alloc, self.sides.as_slice(), self.rows.as_slice())?;
        let mut text = String::new(alloc);
        for row in self.rows.as_slice() {
            text.push_str(row_line(alloc, places.as_slice(), row)?.as_str())?;
            text.push_str("\n")?;
        }
        Ok(text)
    }
}
