//! Calls public functions that no request calls, each once, by values worked out by hand: `call NAME`.
use crate::counter::name_of;
use crate::lists::are_lists;
use balance_rule::{Paid, last_month, rewarded};
use branch_core::{held_by, in_stock};
use chain_engine::{Chain, OpenFault};
use http_messages::part;
use row_player::Texts;
use shop_types::{
    Amount, BadCsv, Caller, CopyNo, CustomerNo, Limits, Moment, NoMemory, Refusal, Rental, StaffNo,
    Token, moment_texts_are_one_to_one,
};
use std::alloc::{AllocError, Global};

/// Checks that a chain with no shared row knows only head office.
fn knows_office(alloc: Global) -> bool {
    let (Some(office), Some(branch)) = (
        Token::read(b"0123456789abcdef0123456789abcdef"),
        Token::read(b"11111111111111111111111111111111"),
    ) else {
        return false;
    };
    match Chain::memory(alloc, Limits::default(), &office) {
        Ok(mut chain) => {
            matches!(chain.caller(&office), Ok(Caller::Office))
                && matches!(chain.caller(&branch), Ok(Caller::Nobody))
                && !chain.is_failed()
        }
        Err(_) => false,
    }
}

/// Checks that each fault by which there is no chain has its name.
fn are_named(alloc: Global) -> bool {
    let mut are_same = true;
    for fault in [
        OpenFault::Memory,
        OpenFault::Size,
        OpenFault::Store,
        OpenFault::NotAChain,
        OpenFault::OtherVersion,
        OpenFault::Damaged,
        OpenFault::Already,
    ] {
        match fault.to_string(alloc) {
            Ok(name) => are_same = are_same && name.as_str() == name_of(fault),
            Err(_) => are_same = false,
        }
    }
    are_same
}

fn paid(cents: u32, at: &str) -> Option<Paid> {
    match (Amount::new(cents), Moment::read(at)) {
        (Some(amount), Some(at)) => Some(Paid { amount, at }),
        _ => None,
    }
}

/// Checks that a customer is rewarded only after passing both thresholds.
fn are_rewarded() -> bool {
    let (Some(first), Some(last), Some(later), Some(at)) = (
        paid(300, "2028-02-01T00:00:00"),
        paid(200, "2028-02-29T23:59:59"),
        paid(300, "2028-03-01T00:00:00"),
        Moment::read("2028-03-31T00:00:00"),
    ) else {
        return false;
    };
    let payments = [first, last];
    let later = [later];
    match last_month(at) {
        Some(month) => {
            rewarded(&payments, month, 1, 499)
                && !rewarded(&payments, month, 1, 500)
                && !rewarded(&payments, month, 2, 499)
                && !rewarded(&later, month, 0, 0)
        }
        None => false,
    }
}

/// Checks that only an open rental puts a copy out, and that the rental's customer holds the copy.
fn are_out_by_open_rentals() -> bool {
    let (Some(rented), Some(back), Some(staff)) = (
        Moment::read("2026-03-01T10:00:00"),
        Moment::read("2026-03-02T10:00:00"),
        StaffNo::new(1),
    ) else {
        return false;
    };
    let (Some(first), Some(second), Some(customer), Some(holder)) = (
        CopyNo::new(1),
        CopyNo::new(2),
        CustomerNo::new(1),
        CustomerNo::new(2),
    ) else {
        return false;
    };
    let closed = Rental {
        rented,
        copy: second,
        customer,
        returned: Some(back),
        staff,
    };
    let rentals = [
        Rental {
            rented,
            copy: first,
            customer,
            returned: Some(back),
            staff,
        },
        Rental {
            rented,
            copy: first,
            customer: holder,
            returned: None,
            staff,
        },
        closed,
    ];
    !in_stock(&rentals, first)
        && in_stock(&rentals, second)
        && held_by(&rentals, first) == Some(holder)
        && held_by(&rentals, second).is_none()
}

const LOT_PATH: &str = "/import/k1/1/2026-03-01T10:00:00/L1";

/// A path with parts that are no key, number, moment or name: nothing is decoded.
const ODD_PATH: &str = "/import/k%2f/M\u{fc}ller/{at}/ ";

/// Paths, places in them, and the part at each place: the text between two slashes, not decoded.
const PARTS: [(&str, usize, &str); 10] = [
    (LOT_PATH, 0, ""),
    (LOT_PATH, 1, "import"),
    (LOT_PATH, 2, "k1"),
    (LOT_PATH, 3, "1"),
    (LOT_PATH, 4, "2026-03-01T10:00:00"),
    (LOT_PATH, 5, "L1"),
    (ODD_PATH, 2, "k%2f"),
    (ODD_PATH, 3, "M\u{fc}ller"),
    (ODD_PATH, 4, "{at}"),
    (ODD_PATH, 5, " "),
];

/// Checks that paths have their parts, and none after the last.
fn are_our_parts() -> bool {
    for (path, place, wanted) in PARTS {
        match part(path.as_bytes(), place) {
            Some(found) if found == wanted.as_bytes() => {}
            _ => return false,
        }
    }
    part(LOT_PATH.as_bytes(), 6).is_none()
}

/// Checks the texts and numbers of values that no reply shows.
fn are_texts(alloc: Global) -> bool {
    moment_texts_are_one_to_one();
    let Some(last) = Moment::read("9999-12-31T23:59:59") else {
        return false;
    };
    let (Ok(last), Ok(memory)) = (
        last.to_string(alloc),
        NoMemory::from(AllocError).to_string(alloc),
    ) else {
        return false;
    };
    last.as_str() == "9999-12-31T23:59:59"
        && memory.as_str() == "memory"
        && Refusal::BadCsv(BadCsv { line: 3 }).number() == 22
        && Refusal::NoBranch.number() == 23
        && Refusal::StoreFailed.number() == 42
}

/// Makes the calls of this name.
pub fn call(alloc: Global, name: &str, told: &mut Texts) {
    let holds = match name {
        "new_chain" => knows_office(alloc),
        "fault_names" => are_named(alloc),
        "rewards" => are_rewarded(),
        "rentals" => are_out_by_open_rentals(),
        "routes" => are_our_parts(),
        "texts" => are_texts(alloc),
        "lists" => are_lists(alloc),
        _ => false,
    };
    told.needs(holds, "another value, or there is no such call");
}
