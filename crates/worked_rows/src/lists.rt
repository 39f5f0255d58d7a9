//! The lists of rows as values: each once, with one row that is as short as it can be.
use serde_json::Value;
use shop_types::{ActorNo, BranchNo, CustomerNo, FilmNo, Minutes, Rate, Rating, StaffNo, Text};
use shop_views::actors::ActorRow;
use shop_views::films::ListedFilm;
use shop_views::overdue_rows::OverdueRow;
use shop_views::people::{ListedCustomer, ListedPerson, ListedStaff};
use shop_views::sales::{CategoryRow, StoreRow};
use shop_views::{
    PersonName, actor_info, customer_list, film_list, overdue, sales_by_film_category,
    sales_by_store, staff_list,
};
use std::alloc::{AllocError, Global};

fn text<const LOW: usize, const HIGH: usize>(alloc: Global, it: &str) -> Option<Text<LOW, HIGH>> {
    match String::from_str(alloc, it) {
        Ok(it) => Text::read(it),
        Err(_) => None,
    }
}

fn mary(alloc: Global) -> Option<PersonName> {
    let (first, last) = text(alloc, "MARY").zip(text(alloc, "SMITH"))?;
    Some(PersonName { first, last })
}

fn person(alloc: Global) -> Option<ListedPerson> {
    let branch = BranchNo::new(1)?;
    let home = text(alloc, "1 Main").zip(text(alloc, ""));
    let place = text(alloc, "Lethbridge").zip(text(alloc, "Canada"));
    let who = mary(alloc).zip(text(alloc, "555"));
    let ((name, phone), ((address, postal), (city, country))) = who.zip(home.zip(place))?;
    Some(ListedPerson {
        branch,
        name,
        address,
        postal,
        phone,
        city,
        country,
    })
}

/// Checks that the list is there, and has this text.
fn is_text(alloc: Global, list: Result<Value, AllocError>, wanted: &str) -> bool {
    let Ok(list) = list else {
        return false;
    };
    match list.to_string(alloc) {
        Ok(text) => text.as_str() == wanted,
        Err(_) => false,
    }
}

fn is_staff_list(alloc: Global) -> bool {
    let Some((number, person)) = StaffNo::new(2).zip(person(alloc)) else {
        return false;
    };
    let staff = [ListedStaff { number, person }];
    is_text(
        alloc,
        staff_list(alloc, &staff),
        "[{\"address\":\"1 Main\",\"branch\":1,\"city\":\"Lethbridge\",\"country\":\"Canada\",\"id\":2,\"name\":\"MARY SMITH\",\"phone\":\"555\",\"postal\":\"\"}]",
    )
}

fn is_customer_list(alloc: Global) -> bool {
    let Some((number, person)) = CustomerNo::new(1).zip(person(alloc)) else {
        return false;
    };
    let customers = [ListedCustomer {
        number,
        person,
        active: true,
    }];
    is_text(
        alloc,
        customer_list(alloc, &customers),
        "[{\"address\":\"1 Main\",\"branch\":1,\"city\":\"Lethbridge\",\"country\":\"Canada\",\"id\":1,\"name\":\"MARY SMITH\",\"note\":\"active\",\"phone\":\"555\",\"postal\":\"\"}]",
    )
}

fn is_film_list(alloc: Global) -> bool {
    let texts = text(alloc, "RIVER DAWN").zip(text(alloc, "").zip(text(alloc, "Action")));
    let facts = FilmNo::new(1).zip(Rate::new(499));
    let Some(((number, rate), (title, (description, category)))) = facts.zip(texts) else {
        return false;
    };
    let films = [ListedFilm {
        number,
        title,
        description,
        category,
        rate,
        minutes: Minutes::new(90),
        rating: Rating::Pg13,
        actors: Vec::new(alloc),
    }];
    is_text(
        alloc,
        film_list(alloc, &films),
        "[{\"actors\":\"\",\"category\":\"Action\",\"description\":\"\",\"film\":1,\"length\":90,\"price\":499,\"rating\":\"PG-13\",\"title\":\"RIVER DAWN\"}]",
    )
}

fn is_actor_info(alloc: Global) -> bool {
    let Some((number, name)) = ActorNo::new(1).zip(mary(alloc)) else {
        return false;
    };
    let actors = [ActorRow {
        number,
        name,
        groups: Vec::new(alloc),
    }];
    is_text(
        alloc,
        actor_info(alloc, &actors),
        "[{\"actor\":1,\"film_info\":\"\",\"first\":\"MARY\",\"last\":\"SMITH\"}]",
    )
}

fn is_by_store(alloc: Global) -> bool {
    let Some((city, country)) = text(alloc, "Lethbridge").zip(text(alloc, "Canada")) else {
        return false;
    };
    let stores = [StoreRow {
        city,
        country,
        manager: None,
        total: 499,
    }];
    is_text(
        alloc,
        sales_by_store(alloc, &stores),
        "[{\"manager\":\"\",\"store\":\"Lethbridge,Canada\",\"total\":499}]",
    )
}

fn is_by_category(alloc: Global) -> bool {
    let Some(category) = text(alloc, "Action") else {
        return false;
    };
    let categories = [CategoryRow {
        category,
        total: 499,
    }];
    is_text(
        alloc,
        sales_by_film_category(alloc, &categories),
        "[{\"category\":\"Action\",\"total\":499}]",
    )
}

fn is_overdue(alloc: Global) -> bool {
    let name = text(alloc, "MARY").zip(text(alloc, "SMITH"));
    let rest = text(alloc, "555").zip(text(alloc, "RIVER DAWN"));
    let Some(((first, last), (phone, title))) = name.zip(rest) else {
        return false;
    };
    let rentals = [OverdueRow {
        first,
        last,
        phone,
        title,
    }];
    is_text(
        alloc,
        overdue(alloc, &rentals),
        "[{\"customer\":\"SMITH, MARY\",\"phone\":\"555\",\"title\":\"RIVER DAWN\"}]",
    )
}

/// Checks that lists of rows made from values have the same texts as a request's lists, which are made row by row.
pub fn are_lists(alloc: Global) -> bool {
    is_staff_list(alloc)
        && is_customer_list(alloc)
        && is_film_list(alloc)
        && is_actor_info(alloc)
        && is_by_store(alloc)
        && is_by_category(alloc)
        && is_overdue(alloc)
}
