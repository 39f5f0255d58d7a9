//! A till's clock and its shelf for lists, both of the row's own.
ghost use Rattle.std.specs.Prelude.{⊤};

use std::alloc::Global;
use std::cell::{Cell, RefCell};
use std::io;
use std::marker::Model;
use std::time::{Clock, Duration};
use till_cashier::{Shelf, WallClock};

/// A clock that stands still until a line sets it.
#[derive(Drop)]
pub struct Hands {
    seconds: Cell<u64>,
}

/// The model is trivial, as for `Days`.
impl Model for Hands {
    ghost use Rattle.std.specs.Prelude.{⊤};

    ghost Value = { ⊤ };

    ghost view = { λ _. tt };
}

impl Hands {
    /// Makes a clock that stands at the first second of 1970.
    pub fn new() -> Hands {
        Hands {
            seconds: Cell::new(0),
        }
    }

    /// Sets the clock, in seconds since 1970.
    pub fn set(&self, seconds: u64) {
        self.seconds.set(seconds);
    }
}

impl Clock for Hands {
    fn monotonic(&self) -> io::Result<Duration> {
        self.since_1970()
    }

    fn since_1970(&self) -> io::Result<Duration> {
        Ok(Duration::from_secs(self.seconds.get()))
    }
}

impl WallClock for Hands {
    // nothing is known of what it shows
    ghost shows = { λ _ _. ⊤ };

    fn seconds(&self) -> io::Result<u64> {
        Ok(self.seconds.get())
    }
}

/// A list, and in which second it was put on the shelf.
#[derive(Drop)]
struct List {
    name: &'static str,
    second: u64,
    bytes: Vec<u8>,
}

/// A shelf in memory. For each name it has the last list that was put there.
#[derive(Drop)]
pub struct Board {
    lists: RefCell<Vec<List>>,
}

/// The model is trivial, as for `Days`.
impl Model for Board {
    ghost use Rattle.std.specs.Prelude.{⊤};

    ghost Value = { ⊤ };

    ghost view = { λ _. tt };
}

impl Board {
    /// Makes an empty shelf.
    pub fn new(alloc: Global) -> Board {
        Board {
            lists: RefCell::new(Vec::new(alloc)),
        }
    }
}

/// Returns the place of the last list of that name.
fn place_of(lists: &[List], name: &str) -> Option<usize> {
    let mut found = None;
    for (at, list) in lists.iter().enumerate() {
        if list.name == name {
            found = Some(at);
        }
    }
    found
}

/// Returns a copy of the list, with its second.
fn copied(alloc: Global, list: &List) -> Option<(u64, Vec<u8>)> {
    match Vec::from_slice(alloc, list.bytes.as_slice()) {
        Ok(bytes) => Some((list.second, bytes)),
        Err(_) => None,
    }
}

impl Shelf for Board {
    fn take(&self, alloc: Global, name: &'static str) -> Option<(u64, Vec<u8>)> {
        let Ok(lists) = self.lists.try_borrow() else {
            return None;
        };
        let lists = lists.as_slice();
        match lists.get(place_of(lists, name)?) {
            Some(list) => copied(alloc, list),
            None => None,
        }
    }

    fn put(&self, alloc: Global, name: &'static str, second: u64, bytes: &[u8]) {
        let (Ok(bytes), Ok(mut lists)) = (
            Vec::from_slice(alloc, bytes),
            self.lists.try_borrow_mut(),
        ) else {
            return;
        };
        let _ = lists.push(List {
            name,
            second,
            bytes,
        });
    }

    fn whole(&self, alloc: Global, name: &'static str) -> Option<Vec<u8>> {
        let Ok(lists) = self.lists.try_borrow() else {
            return None;
        };
        let lists = lists.as_slice();
        let Some(at) = place_of(lists, name) else {
            return Some(Vec::new(alloc));
        };
        let (_, bytes) = copied(alloc, lists.get(at)?)?;
        Some(bytes)
    }

    fn add(&self, alloc: Global, name: &'static str, bytes: &[u8]) -> bool {
        let Some(mut text) = self.whole(alloc, name) else {
            return false;
        };
        let (Ok(()), Ok(mut lists)) = (text.extend_from_slice(bytes), self.lists.try_borrow_mut())
        else {
            return false;
        };
        let list = List {
            name,
            second: 0,
            bytes: text,
        };
        lists.push(list).is_ok()
    }

    fn append(&self, alloc: Global, name: &'static str, bytes: &[u8]) -> bool {
        self.add(alloc, name, bytes)
    }

    fn forget(&self, name: &'static str) {
        let Ok(mut lists) = self.lists.try_borrow_mut() else {
            return;
        };
        for list in lists.as_mut_slice() {
            if list.name == name {
                list.name = "";
            }
        }
    }
}
