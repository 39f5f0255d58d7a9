//! Caches films by their numbers.

ghost use Rattle.std.specs.Prelude.{◌≡◌, ◌≤◌, [], Some, List, map, length, IfSome};
ghost use Rattle.lru.specs.LruCache.{lru_cache};
ghost use Rattle.shop_model.specs.Rows.{at, set_at};
ghost use Rattle.shop_model.specs.Values as model;
ghost use Rattle.shop_model.specs.Books.{head};
ghost use Rattle.shop_model.specs.Shop.{Catalogue};
ghost use Rattle.shop_model.specs.OfficeActs.{office_acted};
ghost use Rattle.shop_types.specs.Seen.{seen_office_act};
ghost use Rattle.chain_caches.specs.Films.{AreRows, IsRow, film_changed, known_of, seen_known};

use lru::LruCache;
use shop_types::{FilmNo, OfficeAct, Terms};
use std::alloc::Global;
use std::marker::Model;
use std::num::NonZeroUsize;

/// The terms of a rental of a film that begins now, and whether the film is withdrawn.
#[derive(Clone, Copy)]
pub struct KnownFilm {
    pub terms: Terms,
    pub withdrawn: bool,
}

/// Films with their numbers, the most recently used first. If there are 256, a new film takes the place of the last.
#[derive(Drop)]
pub struct FilmCache {
    alloc: Global,
    /// `None` before the first film is put.
    films: Option<LruCache<u32, KnownFilm>>,
}

impl Model for FilmCache {
    ghost use Rattle.std.specs.Prelude.{◌≡◌, ℕ, List, IfSome};
    ghost use Rattle.chain_caches.specs.declared.films.KnownFilm.{KnownFilm};
    ghost use Rattle.chain_caches.specs.Films.{entries_of};

    ghost Value = { List (ℕ × KnownFilm) };

    ghost view = { λ c. entries_of c.films };

    ghost invariant = { λ c. IfSome c.films (λ films. films.cap ≡ 256) };
}

impl FilmCache {
    /// Returns a cache without a film. Takes no memory.
    pub fn new(alloc: Global) -> FilmCache
        ensures { result ≡ [] }
    {
        FilmCache { alloc, films: None }
    }

    /// Returns how many films the cache has. Takes no memory.
    pub fn len(&self) -> usize
        ensures value { result ≡ length self.now }
        ensures most { result ≤ 256 }
    {
        match &self.films {
            Some(films) => films.len(),
            None => 0,
        }
    }

    /// Returns what is known of the film, and makes it the most recently used.
    pub fn known(&mut self, number: FilmNo) -> Option<KnownFilm>
        ensures row { (films : List model.Film) → AreRows self.old films
            → IfSome result (λ known. Some (seen_known known) ≡ head (map known_of (at number films))) }
        ensures kept { (films : List model.Film) → AreRows self.old films → AreRows self.new films }
    {
        let Some(films) = &mut self.films else {
            return None;
        };
        films.get(&number.get()).copied()
    }

    /// Keeps what was read of the film, if there is memory for it. Else the cache stays as it is, and no error is
    /// returned.
    pub fn put(&mut self, number: FilmNo, film: &KnownFilm)
        ensures { (films : List model.Film) → AreRows self.old films → IsRow number film.now films
            → AreRows self.new films }
    {
        self.make_room();
        let Some(films) = &mut self.films else {
            return;
        };
        drop(films.put(number.get(), *film));
    }

    /// Makes room for films, if there is no room yet and there is memory for it.
    fn make_room(&mut self)
        ensures { self.new ≡ self.old }
    {
        if self.films.is_some() {
            return;
        }
        self.films = no_films(self.alloc);
    }

    /// Takes out what is known of the film, before its row is changed. All other entries stay true, whatever is done to
    /// the row.
    pub fn take_out(&mut self, number: FilmNo)
        ensures kept { (films : List model.Film) → AreRows self.old films → AreRows self.new films }
        ensures free { (films : List model.Film) (change : model.Film → model.Film) → AreRows self.old films
            → AreRows self.new (set_at number change films) }
    {
        let Some(films) = &mut self.films else {
            return;
        };
        // The length says that no key comes twice.
        let _few = films.len();
        drop(films.pop(&number.get()));
    }

    /// Takes all films out. Takes no memory.
    pub fn clear(&mut self)
        ensures { self.new ≡ [] }
    {
        self.films = None;
    }

    /// Takes out the film whose row an act of head office changes, if it changes one. All other entries stay true,
    /// whether or not the act is done.
    #[tactic(auto, using(crate::proofs::FilmSteps::longer_rows))]
    pub fn take_out_changed(&mut self, act: &OfficeAct)
        ensures kept { (films : List model.Film) → AreRows self.old films → AreRows self.new films }
        ensures done { (catalogue : Catalogue) → AreRows self.old catalogue.films
            → AreRows self.new (office_acted (seen_office_act act.now) catalogue).films }
    {
        match changed_film(act) {
            Some(number) => self.take_out(number),
            None => {}
        }
    }
}

/// Returns room for 256 films, if there is memory for it.
fn no_films(alloc: Global) -> Option<LruCache<u32, KnownFilm>>
    ensures { IfSome result (λ films. films ≡ lru_cache [] 256) }
{
    let most = NonZeroUsize::new(256).unwrap();
    LruCache::sparse(alloc, most).ok()
}

/// Returns the film whose row the act changes, if it changes one.
fn changed_film(act: &OfficeAct) -> Option<FilmNo>
    ensures { result ≡ film_changed (seen_office_act act.now) }
{
    match act {
        OfficeAct::Price { film, .. } => Some(*film),
        OfficeAct::Withdraw(film) => Some(*film),
        OfficeAct::Country(_)
        | OfficeAct::City(_)
        | OfficeAct::Language(_)
        | OfficeAct::Category(_)
        | OfficeAct::Actor(_)
        | OfficeAct::Film(_)
        | OfficeAct::Cast { .. }
        | OfficeAct::Branch(_)
        | OfficeAct::Staff(_)
        | OfficeAct::Leave(_)
        | OfficeAct::Manager { .. }
        | OfficeAct::Rule(_) => None,
    }
}
