//! The tables: the texts that make them, and the columns of each, in order. The columns are the pair of the first
//! column and the columns after it.

use crate::place::DispatchPlace;
use crate::shop_cells::ThisVersion;
use shop_types::{
    ActorNo, Amount, BranchNo, CategoryNo, CityNo, ConsignmentNo, CopyNo, CopyState, CountryNo,
    CustomerNo, Features, FilmNo, Key, L45, L500, LanguageNo, LineNo, LineState, LotName, Minutes,
    Moment, PaymentNo, Period, Rate, Rating, RentalNo, RowNumber, Rule, StaffNo, T45, T128, Token,
};
use sql_rows::{Bytes, Words};

/// The statements that make the tables. Each statement makes a table or an index. The statements of version 1 are
/// first, and then the ones that version 2 adds.
pub(crate) const TEXTS: [&str; 33] = [
    "CREATE TABLE chain (version INTEGER NOT NULL, office_token TEXT NOT NULL) STRICT",
    "CREATE TABLE country (number INT NOT NULL, name TEXT NOT NULL, PRIMARY KEY (number), UNIQUE (name)) STRICT",
    "CREATE TABLE language (number INT NOT NULL, name TEXT NOT NULL, PRIMARY KEY (number), UNIQUE (name)) STRICT",
    "CREATE TABLE category (number INT NOT NULL, name TEXT NOT NULL, PRIMARY KEY (number), UNIQUE (name)) STRICT",
    "CREATE TABLE city (number INT NOT NULL, name TEXT NOT NULL, country INTEGER NOT NULL, PRIMARY KEY (number), FOREIGN KEY (country) REFERENCES country (number)) STRICT",
    "CREATE TABLE actor (number INT NOT NULL, first TEXT NOT NULL, last TEXT NOT NULL, PRIMARY KEY (number)) STRICT",
    "CREATE TABLE film (number INT NOT NULL, title TEXT NOT NULL, description TEXT NOT NULL, language INTEGER NOT NULL, category INTEGER NOT NULL, period INTEGER NOT NULL, rate INTEGER NOT NULL, replacement INTEGER NOT NULL, length INTEGER, rating TEXT NOT NULL, features TEXT NOT NULL, withdrawn INTEGER NOT NULL, PRIMARY KEY (number), FOREIGN KEY (language) REFERENCES language (number), FOREIGN KEY (category) REFERENCES category (number)) STRICT",
    "CREATE TABLE film_actor (film INTEGER NOT NULL, actor INTEGER NOT NULL, PRIMARY KEY (film, actor), FOREIGN KEY (film) REFERENCES film (number), FOREIGN KEY (actor) REFERENCES actor (number)) STRICT",
    "CREATE TABLE branch (number INT NOT NULL, token TEXT NOT NULL, address TEXT NOT NULL, postal TEXT NOT NULL, phone TEXT NOT NULL, city INTEGER NOT NULL, manager INTEGER, last_moment TEXT, PRIMARY KEY (number), UNIQUE (token), FOREIGN KEY (city) REFERENCES city (number)) STRICT",
    "CREATE TABLE staff (number INT NOT NULL, branch INTEGER NOT NULL, first TEXT NOT NULL, last TEXT NOT NULL, address TEXT NOT NULL, postal TEXT NOT NULL, phone TEXT NOT NULL, city INTEGER NOT NULL, gone INTEGER NOT NULL, PRIMARY KEY (number), FOREIGN KEY (branch) REFERENCES branch (number), FOREIGN KEY (city) REFERENCES city (number)) STRICT",
    "CREATE TABLE customer (branch INTEGER NOT NULL, number INTEGER NOT NULL, first TEXT NOT NULL, last TEXT NOT NULL, address TEXT NOT NULL, postal TEXT NOT NULL, phone TEXT NOT NULL, city INTEGER NOT NULL, active INTEGER NOT NULL, created TEXT NOT NULL, PRIMARY KEY (branch, number), FOREIGN KEY (branch) REFERENCES branch (number), FOREIGN KEY (city) REFERENCES city (number)) STRICT",
    "CREATE TABLE copy (branch INTEGER NOT NULL, number INTEGER NOT NULL, film INTEGER NOT NULL, state INTEGER NOT NULL, origin_branch INTEGER NOT NULL, origin_copy INTEGER NOT NULL, PRIMARY KEY (branch, number), FOREIGN KEY (branch) REFERENCES branch (number), FOREIGN KEY (film) REFERENCES film (number)) STRICT",
    "CREATE TABLE rental (branch INTEGER NOT NULL, number INTEGER NOT NULL, moment TEXT NOT NULL, copy INTEGER NOT NULL, customer INTEGER NOT NULL, returned TEXT, staff INTEGER NOT NULL, PRIMARY KEY (branch, number), UNIQUE (branch, moment, copy, customer), FOREIGN KEY (branch, copy) REFERENCES copy (branch, number), FOREIGN KEY (branch, customer) REFERENCES customer (branch, number), FOREIGN KEY (staff) REFERENCES staff (number)) STRICT",
    "CREATE TABLE payment (branch INTEGER NOT NULL, number INTEGER NOT NULL, customer INTEGER NOT NULL, staff INTEGER NOT NULL, rental INTEGER, amount INTEGER NOT NULL, moment TEXT NOT NULL, PRIMARY KEY (branch, number), FOREIGN KEY (branch, customer) REFERENCES customer (branch, number), FOREIGN KEY (staff) REFERENCES staff (number), FOREIGN KEY (branch, rental) REFERENCES rental (branch, number)) STRICT",
    "CREATE TABLE lot (branch INTEGER NOT NULL, name TEXT NOT NULL, PRIMARY KEY (branch, name), FOREIGN KEY (branch) REFERENCES branch (number)) STRICT",
    "CREATE TABLE consignment (source INTEGER NOT NULL, addressee INTEGER NOT NULL, number INTEGER NOT NULL, place INTEGER NOT NULL, received INTEGER NOT NULL, PRIMARY KEY (source, addressee, number), UNIQUE (place), FOREIGN KEY (source) REFERENCES branch (number), FOREIGN KEY (addressee) REFERENCES branch (number)) STRICT",
    "CREATE TABLE consignment_line (source INTEGER NOT NULL, addressee INTEGER NOT NULL, number INTEGER NOT NULL, line INTEGER NOT NULL, film INTEGER NOT NULL, origin_branch INTEGER NOT NULL, origin_copy INTEGER NOT NULL, state INTEGER NOT NULL, PRIMARY KEY (source, addressee, number, line), FOREIGN KEY (source, addressee, number) REFERENCES consignment (source, addressee, number), FOREIGN KEY (film) REFERENCES film (number)) STRICT",
    "CREATE TABLE kept (caller INTEGER NOT NULL, \"key\" TEXT NOT NULL, command BLOB NOT NULL, reply TEXT NOT NULL, PRIMARY KEY (caller, \"key\")) STRICT",
    "CREATE TABLE counter (caller INTEGER NOT NULL, kind INTEGER NOT NULL, last INTEGER NOT NULL, PRIMARY KEY (caller, kind)) STRICT",
    "CREATE TABLE out_copy (branch INTEGER NOT NULL, copy INTEGER NOT NULL, rental INTEGER NOT NULL, PRIMARY KEY (branch, copy), FOREIGN KEY (branch, copy) REFERENCES copy (branch, number), FOREIGN KEY (branch, rental) REFERENCES rental (branch, number)) STRICT",
    "CREATE INDEX copy_film ON copy (branch, film, number)",
    "CREATE INDEX rental_customer ON rental (branch, customer, number)",
    "CREATE INDEX payment_customer ON payment (branch, customer, number)",
    "CREATE INDEX payment_moment ON payment (branch, moment, number)",
    "CREATE INDEX film_actor_actor ON film_actor (actor, film)",
    "CREATE TABLE pair_count (source INTEGER NOT NULL, addressee INTEGER NOT NULL, last INTEGER NOT NULL, PRIMARY KEY (source, addressee), FOREIGN KEY (source) REFERENCES branch (number), FOREIGN KEY (addressee) REFERENCES branch (number)) STRICT",
    "CREATE INDEX consignment_addressee ON consignment (addressee, place)",
    "CREATE INDEX consignment_source ON consignment (source, place)",
    "CREATE INDEX consignment_open ON consignment (received, source, addressee, number)",
    "CREATE INDEX copy_origin ON copy (origin_branch, origin_copy)",
    "CREATE INDEX line_origin ON consignment_line (origin_branch, origin_copy)",
    "CREATE TABLE rental_terms (branch INTEGER NOT NULL, rental INTEGER NOT NULL, rate INTEGER NOT NULL, period INTEGER NOT NULL, replacement INTEGER NOT NULL, PRIMARY KEY (branch, rental), FOREIGN KEY (branch, rental) REFERENCES rental (branch, number)) STRICT",
    "CREATE TABLE chain_rule (comment_rule INTEGER NOT NULL) STRICT",
];

// ---- shared rows

pub type ChainCells = (ThisVersion, (Token, ()));

pub type RuleCells = (Rule, ());

/// A country, a language or a category.
pub type NamedCells<const KIND: u8> = (RowNumber<KIND>, (T45, ()));

pub type CityCells = (CityNo, (T45, (CountryNo, ())));

pub type ActorCells = (ActorNo, (T45, (T45, ())));

pub type FilmCells = (
    FilmNo,
    (T128, (L500, (LanguageNo, (CategoryNo, PricedCells)))),
);

/// A film's columns from its period on.
pub type PricedCells = (
    Period,
    (
        Rate,
        (Amount, (Option<Minutes>, (Rating, (Features, (bool, ()))))),
    ),
);

pub type CastCells = (FilmNo, (ActorNo, ()));

/// A branch, with its last moment.
pub type BranchCells = (
    BranchNo,
    (
        Token,
        (
            T128,
            (
                L45,
                (L45, (CityNo, (Option<StaffNo>, (Option<Moment>, ())))),
            ),
        ),
    ),
);

pub type StaffCells = (
    StaffNo,
    (
        BranchNo,
        (T45, (T45, (T128, (L45, (L45, (CityNo, (bool, ()))))))),
    ),
);

// ---- rows of a branch

pub type CustomerCells = (
    BranchNo,
    (
        CustomerNo,
        (
            T45,
            (T45, (T128, (L45, (L45, (CityNo, (bool, (Moment, ()))))))),
        ),
    ),
);

pub type CopyCells = (
    BranchNo,
    (CopyNo, (FilmNo, (CopyState, (BranchNo, (CopyNo, ()))))),
);

pub type RentalCells = (
    BranchNo,
    (
        RentalNo,
        (
            Moment,
            (CopyNo, (CustomerNo, (Option<Moment>, (StaffNo, ())))),
        ),
    ),
);

pub type TermsCells = (BranchNo, (RentalNo, (Rate, (Period, (Amount, ())))));

pub type PaymentCells = (
    BranchNo,
    (
        PaymentNo,
        (
            CustomerNo,
            (StaffNo, (Option<RentalNo>, (Amount, (Moment, ())))),
        ),
    ),
);

pub type LotCells = (BranchNo, (LotName, ()));

// ---- consignments

pub type HeaderCells = (
    BranchNo,
    (BranchNo, (ConsignmentNo, (DispatchPlace, (bool, ())))),
);

pub type LineCells = (
    BranchNo,
    (
        BranchNo,
        (
            ConsignmentNo,
            (LineNo, (FilmNo, (BranchNo, (CopyNo, (LineState, ()))))),
        ),
    ),
);

// ---- kept commands, each with its caller, who is the branch, or 0 for head office

pub type KeptCells = (u32, (Key, (Bytes, (Words, ()))));
