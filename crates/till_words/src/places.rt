//! The options of a word that may be given without their names, in their order.

ghost use Rattle.std.specs.Prelude.{◌≡◌, map};
ghost use Rattle.till_words.specs.Places.{till_places, found_places, stock_places, places_of};

fn till_places(word: &str) -> &'static [&'static str]
    ensures { map (λ s. s.now) result.now ≡ till_places word.now }
{
    match word {
        "rewards" => &["--purchases", "--amount"],
        "last" => &["--count"],
        "day" => &["--date"],
        "init" => &["--address", "--token"],
        "zone" => &["--name"],
        "today" => &["--date"],
        _ => &[],
    }
}

fn found_places(word: &str) -> &'static [&'static str]
    ensures { map (λ s. s.now) result.now ≡ found_places word.now }
{
    match word {
        "customer" => &["--find"],
        "film" => &["--find"],
        "in-stock" => &["--copy"],
        "held-by" => &["--copy"],
        "copies" => &["--film"],
        "balance" => &["--customer"],
        _ => till_places(word),
    }
}

fn stock_places(word: &str) -> &'static [&'static str]
    ensures { map (λ s. s.now) result.now ≡ stock_places word.now }
{
    match word {
        "import" => &["--file", "--lot"],
        "dispatch" => &["--to", "--copies"],
        "receive" => &["--from", "--number"],
        "scrap" => &["--copy"],
        _ => found_places(word),
    }
}

/// Returns the names of the options whose values may be given without names, in their order.
pub(crate) fn places_of(word: &str) -> &'static [&'static str]
    ensures { map (λ s. s.now) result.now ≡ places_of word.now }
{
    match word {
        "rent" => &["--customer", "--copy"],
        "return" => &["--copy"],
        "pay" => &["--customer", "--amount"],
        "join" => &["--first", "--last", "--address", "--phone", "--city"],
        "bar" => &["--customer"],
        "unbar" => &["--customer"],
        _ => stock_places(word),
    }
}
