ghost use Rattle.std.specs.Prelude.{◌≡◌, ◌≤◌, Some, None, IfSome, IfNone, nat_lt, if◌then◌else◌};
ghost use Rattle.shop_types.specs.declared.film.Rating.{Rating};
ghost use Rattle.shop_types.specs.declared.film.Features.{Features};
ghost use Rattle.shop_types.specs.Films.{rating_text, rating_of, features_text, features_of};

use crate::{Amount, CategoryNo, L500, LanguageNo, Minutes, Period, Rate, T128};
use std::marker::Model;

/// For whom a film is meant: the ratings of the Sakila sample database.
#[derive(Clone, Copy)]
pub enum Rating {
    G,
    Pg,
    Pg13,
    R,
    Nc17,
}

impl Rating {
    /// Returns the rating as the sample database spells it.
    pub fn text(self) -> &'static str
        ensures { result.now ≡ rating_text self }
    {
        match self {
            Rating::G => "G",
            Rating::Pg => "PG",
            Rating::Pg13 => "PG-13",
            Rating::R => "R",
            Rating::Nc17 => "NC-17",
        }
    }

    /// Returns the rating that the sample database spells so.
    pub fn read(text: &str) -> Option<Rating>
        ensures value { result ≡ rating_of text.now }
        ensures some { IfSome result (λ rating. rating_text rating ≡ text.now) }
        ensures none { IfNone result ((rating : Rating) → ¬ (rating_text rating ≡ text.now)) }
    {
        match text {
            "G" => Some(Rating::G),
            "PG" => Some(Rating::Pg),
            "PG-13" => Some(Rating::Pg13),
            "R" => Some(Rating::R),
            "NC-17" => Some(Rating::Nc17),
            _ => None,
        }
    }
}

/// What comes with a film: the special features of the Sakila sample database.
#[derive(Clone, Copy)]
pub struct Features {
    pub trailers: bool,
    pub commentaries: bool,
    pub deleted_scenes: bool,
    pub behind_the_scenes: bool,
}

impl Features {
    /// Returns the features' names in the sample database's order, with commas between, or nothing if there are none.
    pub fn text(self) -> &'static str
        ensures { result.now ≡ features_text self }
    {
        match (
            self.trailers,
            self.commentaries,
            self.deleted_scenes,
            self.behind_the_scenes,
        ) {
            (false, false, false, false) => "",
            (true, false, false, false) => "Trailers",
            (false, true, false, false) => "Commentaries",
            (true, true, false, false) => "Trailers,Commentaries",
            (false, false, true, false) => "Deleted Scenes",
            (true, false, true, false) => "Trailers,Deleted Scenes",
            (false, true, true, false) => "Commentaries,Deleted Scenes",
            (true, true, true, false) => "Trailers,Commentaries,Deleted Scenes",
            (false, false, false, true) => "Behind the Scenes",
            (true, false, false, true) => "Trailers,Behind the Scenes",
            (false, true, false, true) => "Commentaries,Behind the Scenes",
            (true, true, false, true) => "Trailers,Commentaries,Behind the Scenes",
            (false, false, true, true) => "Deleted Scenes,Behind the Scenes",
            (true, false, true, true) => "Trailers,Deleted Scenes,Behind the Scenes",
            (false, true, true, true) => "Commentaries,Deleted Scenes,Behind the Scenes",
            (true, true, true, true) => "Trailers,Commentaries,Deleted Scenes,Behind the Scenes",
        }
    }

    /// Returns the features whose names the text has: each at most once, in the sample database's order, with commas
    /// between.
    pub fn read(text: &str) -> Option<Features>
        ensures value { result ≡ features_of text.now }
        ensures some { IfSome result (λ features. features_text features ≡ text.now) }
        ensures none { IfNone result ((features : Features) → ¬ (features_text features ≡ text.now)) }
    {
        let (trailers, commentaries, deleted_scenes, behind_the_scenes) = match text {
            "" => (false, false, false, false),
            "Trailers" => (true, false, false, false),
            "Commentaries" => (false, true, false, false),
            "Trailers,Commentaries" => (true, true, false, false),
            "Deleted Scenes" => (false, false, true, false),
            "Trailers,Deleted Scenes" => (true, false, true, false),
            "Commentaries,Deleted Scenes" => (false, true, true, false),
            "Trailers,Commentaries,Deleted Scenes" => (true, true, true, false),
            "Behind the Scenes" => (false, false, false, true),
            "Trailers,Behind the Scenes" => (true, false, false, true),
            "Commentaries,Behind the Scenes" => (false, true, false, true),
            "Trailers,Commentaries,Behind the Scenes" => (true, true, false, true),
            "Deleted Scenes,Behind the Scenes" => (false, false, true, true),
            "Trailers,Deleted Scenes,Behind the Scenes" => (true, false, true, true),
            "Commentaries,Deleted Scenes,Behind the Scenes" => (false, true, true, true),
            "Trailers,Commentaries,Deleted Scenes,Behind the Scenes" => (true, true, true, true),
            _ => return None,
        };
        Some(Features {
            trailers,
            commentaries,
            deleted_scenes,
            behind_the_scenes,
        })
    }
}

/// A film that head office adds. It isn't withdrawn.
#[derive(Drop)]
pub struct Film {
    pub title: T128,
    pub description: L500,
    pub language: LanguageNo,
    pub category: CategoryNo,
    pub period: Period,
    /// What a rental of it costs.
    pub rate: Rate,
    /// What a lost copy costs, from 0 to 99,999 cents.
    pub replacement: Amount,
    pub minutes: Option<Minutes>,
    pub rating: Rating,
    pub features: Features,
}
