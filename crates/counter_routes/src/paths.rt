//! The routes of a counter's requests.

ghost use Rattle.std.specs.Prelude.{◌≡◌, IfOk, true};
ghost use Rattle.counter_routes.specs.Commands.{post_entries};
ghost use Rattle.counter_routes.specs.Looks.{get_entries};
ghost use Rattle.counter_routes.specs.Routes.{table, is_table, entries, entries_of, begins_with_slash, has_question_mark, route_of};

use crate::commands::{CommandForm, POST_ROUTES};
use crate::looks::{GET_ROUTES, LookForm};
use matchit::{InsertError, Router};
use shop_types::NoMemory;
use std::alloc::{AllocError, Global};

/// What a path asks for.
#[derive(Clone, Copy)]
pub(crate) enum Route {
    /// A command that the body writes.
    Command(CommandForm),
    /// An import, of the file that the body is.
    Import,
    Look(LookForm),
    View,
}

/// The paths that a route takes, and the route.
#[derive(Clone, Copy)]
pub(crate) struct Pattern(pub(crate) &'static str, pub(crate) Route);

fn build(alloc: Global, patterns: &[Pattern]) -> Result<Router<Route>, AllocError>
    requires { is_table (entries patterns.now) ≡ true }
    ensures { IfOk result (λ router. router ≡ table (entries patterns.now)) }
{
    let mut router = Router::new(alloc);
    for pattern in patterns {
        if let Err(e) = router.insert(pattern.0, pattern.1) {
            match e {
                InsertError::OutOfMemory => return Err(AllocError),
                _ => unreachable!(),
            }
        }
    }
    Ok(router)
}

fn post_routes(alloc: Global) -> Result<Router<Route>, AllocError>
    ensures { IfOk result (λ router. router ≡ table post_entries) }
{
    build(alloc, &POST_ROUTES)
}

fn get_routes(alloc: Global) -> Result<Router<Route>, AllocError>
    ensures { IfOk result (λ router. router ≡ table get_entries) }
{
    build(alloc, &GET_ROUTES)
}

fn starts_with_slash(target: &[u8]) -> bool
    ensures { result ≡ begins_with_slash target.now }
{
    match target {
        [first, ..] => *first == b'/',
        [] => false,
    }
}

fn has_query(target: &[u8]) -> bool
    ensures { result ≡ has_question_mark target.now }
{
    target.iter().any(|byte| *byte == b'?')
}

/// The routes that a counter's messages can take.
#[derive(Drop)]
pub struct Routes {
    posts: Router<Route>,
    gets: Router<Route>,
    ghost posts_are: { posts ≡ table post_entries },
    ghost gets_are: { gets ≡ table get_entries },
}

impl Routes {
    /// Returns the two routers, of the routes that are built so far.
    pub fn new(alloc: Global) -> Result<Routes, NoMemory>
        ensures posts { IfOk result (λ routes. routes.posts ≡ table post_entries) }
        ensures gets { IfOk result (λ routes. routes.gets ≡ table get_entries) }
    {
        Ok(Routes {
            posts: post_routes(alloc)?,
            gets: get_routes(alloc)?,
        })
    }

    fn router(&self, posts: bool) -> &Router<Route>
        ensures { result.now ≡ table (entries_of posts) }
    {
        if posts { &self.posts } else { &self.gets }
    }

    /// Returns what a target asks for: bytes that are UTF-8, begin with a slash and have no question mark. There is no
    /// other route.
    pub(crate) fn find(&self, posts: bool, target: &[u8]) -> Option<Route>
        ensures { result ≡ route_of posts target.now }
    {
        let Ok(path) = std::str::from_utf8(target) else {
            return None;
        };
        if !starts_with_slash(target) || has_query(target) {
            return None;
        }
        match self.router(posts).at(path) {
            Ok(found) => Some(*found.value),
            Err(_) => None,
        }
    }
}
