//! The shop's values as what a column holds.

ghost use Rattle.std.specs.Prelude.{⊤, ◌≡◌, ◌≢◌, ◌<◌, ◌≤◌, ℕ, List, length, IfOk, IfErr};
ghost use Rattle.sqlite_value.specs.declared.value.Value.TheVariants.{Text as SqlText};
ghost use Rattle.sqlite_value.specs.Order.{column};
ghost use Rattle.sql_rows.specs.Rows.{number_value};
ghost use Rattle.sql_rows.specs.declared.fault.StoreFault.TheVariants.{Failed};
ghost use Rattle.shop_model.specs.Calendar.{IsMoment};
ghost use Rattle.shop_types.specs.Films.{rating_text, features_text};
ghost use Rattle.shop_types.specs.Seen.{seen_rule, seen_state, seen_line_state};
ghost use Rattle.shop_schema.specs.RowValues.{IsNumber, IsText, IsKey, IsToken, IsPlace, moment_value, rule_value, state_value, line_value};

use crate::cells::Cell;
use crate::place::DispatchPlace;
use crate::read::{bounded_at, moment_at, row_number_at, text_at};
use shop_types::{
    Bounded, CopyState, Features, LineState, Moment, Name, Rating, RowNumber, Rule, Text, Token,
};
use sql_rows::{StoreFault, fault_of, number_at, words_at};
use sqlite::Row;

impl<const KIND: u8> Cell for RowNumber<KIND> {
    ghost value = { number_value };

    ghost fits = { IsNumber };

    fn read_at(row: &Row, at: usize) -> Result<RowNumber<KIND>, StoreFault> {
        row_number_at(row, at)
    }
}

impl<const LOW: usize, const HIGH: usize> Cell for Text<LOW, HIGH> {
    ghost value = { SqlText };

    ghost fits = { IsText LOW HIGH };

    fn read_at(row: &Row, at: usize) -> Result<Text<LOW, HIGH>, StoreFault> {
        text_at(row, at)
    }
}

impl<const KIND: u8> Cell for Name<KIND> {
    ghost value = { SqlText };

    ghost fits = { IsKey };

    fn read_at(row: &Row, at: usize) -> Result<Name<KIND>, StoreFault> {
        let words = match words_at(row, at) {
            Ok(words) => words,
            Err(fault) => return Err(fault),
        };
        match Name::read(words.into_string()) {
            Some(name) => Ok(name),
            None => Err(StoreFault::Failed),
        }
    }
}

impl Cell for Token {
    ghost value = { SqlText };

    ghost fits = { IsToken };

    fn read_at(row: &Row, at: usize) -> Result<Token, StoreFault> {
        let words = match words_at(row, at) {
            Ok(words) => words,
            Err(fault) => return Err(fault),
        };
        match Token::read(words.as_str().as_bytes()) {
            Some(token) => Ok(token),
            None => Err(StoreFault::Failed),
        }
    }
}

impl Cell for Moment {
    ghost value = { moment_value };

    ghost fits = { IsMoment };

    fn read_at(row: &Row, at: usize) -> Result<Moment, StoreFault> {
        moment_at(row, at)
    }
}

impl<const LOW: u32, const HIGH: u32> Cell for Bounded<LOW, HIGH> {
    ghost value = { number_value };

    ghost fits = { λ n. (LOW ≤ n) × (n ≤ HIGH) };

    fn read_at(row: &Row, at: usize) -> Result<Bounded<LOW, HIGH>, StoreFault> {
        bounded_at(row, at)
    }
}

impl Cell for Rating {
    ghost value = { λ it. SqlText (rating_text it) };

    ghost fits = { λ _. ⊤ };

    fn read_at(row: &Row, at: usize) -> Result<Rating, StoreFault> {
        let words = match words_at(row, at) {
            Ok(words) => words,
            Err(fault) => return Err(fault),
        };
        match Rating::read(words.as_str()) {
            Some(rating) => Ok(rating),
            None => Err(StoreFault::Failed),
        }
    }
}

impl Cell for Features {
    ghost value = { λ it. SqlText (features_text it) };

    ghost fits = { λ _. ⊤ };

    fn read_at(row: &Row, at: usize) -> Result<Features, StoreFault> {
        let words = match words_at(row, at) {
            Ok(words) => words,
            Err(fault) => return Err(fault),
        };
        match Features::read(words.as_str()) {
            Some(features) => Ok(features),
            None => Err(StoreFault::Failed),
        }
    }
}

impl Cell for Rule {
    ghost value = { λ it. rule_value (seen_rule it) };

    ghost fits = { λ _. ⊤ };

    fn read_at(row: &Row, at: usize) -> Result<Rule, StoreFault> {
        match number_at(row, at)? {
            0 => Ok(Rule::ByCode),
            1 => Ok(Rule::ByComment),
            _ => Err(StoreFault::Failed),
        }
    }
}

impl Cell for CopyState {
    ghost value = { λ it. state_value (seen_state it) };

    ghost fits = { λ _. ⊤ };

    fn read_at(row: &Row, at: usize) -> Result<CopyState, StoreFault> {
        match number_at(row, at)? {
            0 => Ok(CopyState::Here),
            1 => Ok(CopyState::Sent),
            2 => Ok(CopyState::Scrapped),
            _ => Err(StoreFault::Failed),
        }
    }
}

impl Cell for LineState {
    ghost value = { λ it. line_value (seen_line_state it) };

    ghost fits = { λ _. ⊤ };

    fn read_at(row: &Row, at: usize) -> Result<LineState, StoreFault> {
        match number_at(row, at)? {
            0 => Ok(LineState::UnderWay),
            1 => Ok(LineState::Arrived),
            2 => Ok(LineState::Missing),
            _ => Err(StoreFault::Failed),
        }
    }
}

impl Cell for DispatchPlace {
    ghost value = { number_value };

    ghost fits = { IsPlace };

    fn read_at(row: &Row, at: usize) -> Result<DispatchPlace, StoreFault> {
        let number: u64 = match row.get(at) {
            Ok(number) => number,
            Err(error) => return Err(fault_of(error)),
        };
        match DispatchPlace::new(number) {
            Some(place) => Ok(place),
            None => Err(StoreFault::Failed),
        }
    }
}

/// The version of this program's tables, which is in the one row of `chain`.
#[derive(Clone, Copy)]
pub struct ThisVersion;

impl Cell for ThisVersion {
    ghost value = { λ _. number_value 2 };

    ghost fits = { λ _. ⊤ };

    fn read_at(row: &Row, at: usize) -> Result<ThisVersion, StoreFault> {
        if number_at(row, at)? == 2 {
            Ok(ThisVersion)
        } else {
            Err(StoreFault::Failed)
        }
    }
}
