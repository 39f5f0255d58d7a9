//! A till's day: plays its lines, disturbed or not.
use crate::book::Book;
use crate::kit::Kit;
use crate::line::{Counter, Cut};
use crate::shop::Shop;
use crate::word::{Typist, window_of};
use crate::world::World;
use crate::zones::HEAD_OFFICE;
use row_player::{Asked, Calls, Fault, InMemory, Kind, NEVER, put_request, says_more};
use std::alloc::Global;
use std::mem;

/// The disturbances of a day.
#[derive(Clone, Copy)]
pub struct Trouble {
    /// After how many calls the disks of the book fail.
    pub book: Calls,
    /// Whether the book loses what wasn't synced when its disks fail.
    pub loses: bool,
    /// After how many calls the disks of the server fail.
    pub server: Calls,
    /// Where the first connection of each word breaks.
    pub cut: Cut,
    /// Whether each message comes once more after each later word.
    pub repeats: bool,
}

/// No disturbance.
pub const QUIET: Trouble = Trouble {
    book: NEVER,
    loses: true,
    server: NEVER,
    cut: Cut::Never,
    repeats: false,
};

/// A day as it is played.
#[derive(Drop)]
pub struct Day<'w, D: InMemory, C: Counter> {
    alloc: Global,
    world: &'w World,
    kit: Kit<C>,
    book: Book<D>,
    /// Where the first connection of each word breaks.
    cut: Cut,
    /// Whether the window stops before it gets the answer to the next word.
    is_lost: bool,
}

/// Begins a day with a server of its own, on disks of type `D`.
pub fn begin<'w, D: InMemory>(
    alloc: Global,
    world: &'w World,
    trouble: &Trouble,
) -> Day<'w, D, Shop<D>> {
    let shop = Shop::new(alloc, &world.chain, trouble.server);
    Day::new(alloc, world, shop, trouble)
}

impl<'w, D: InMemory, C: Counter> Day<'w, D, C> {
    /// Begins a day on a line to that server.
    fn new(alloc: Global, world: &'w World, counter: C, trouble: &Trouble) -> Day<'w, D, C> {
        Day {
            alloc,
            world,
            kit: Kit::new(alloc, counter, trouble.repeats),
            book: Book::new(alloc, &world.book, trouble.book, trouble.loses),
            cut: trouble.cut,
            is_lost: false,
        }
    }

    /// Returns how often something was stopped, cut or sent once more.
    pub fn stops(&mut self) -> u32 {
        let cuts = self.kit.wire.get_mut().stops();
        cuts.saturating_add(self.book.stops())
    }

    /// Puts all rows of the book.
    pub fn put_book(&mut self, text: &mut Vec<u8>) -> Result<(), Fault> {
        self.book.put_text(text)
    }

    /// Types words.
    fn types(&mut self, asked: &mut Asked, typist: Typist, words: &str) {
        asked.begin(Kind::Words, usize::MAX);
        let cut = self.cut;
        let before = self.kit.wire.get_mut().cuts_next(cut);
        let is_lost = mem::replace(&mut self.is_lost, false);
        let told = &mut asked.told;
        match self.book.types(self.world, &self.kit, typist, words, told) {
            Ok(true) if !is_lost => {}
            Ok(_) => asked.kind = Kind::Unseen,
            Err(fault) => told.fails(fault),
        }
        self.kit.wire.get_mut().come_again(before);
    }

    /// Sends somebody else's request.
    fn asks(&mut self, asked: &mut Asked, who: &str, line: &str) {
        asked.begin(Kind::Connection, usize::MAX);
        let told = &mut asked.told;
        let mut sent = Vec::new(self.alloc);
        put_request(self.alloc, &mut sent, who, line, told);
        told.puts("out", self.kit.wire.get_mut().ask(sent.as_slice()));
        told.ends("closed", 1);
    }

    /// Does what happens to the line. Reports whether that was it.
    fn befalls(&mut self, what: &str) -> bool {
        let wire = self.kit.wire.get_mut();
        match what {
            "down" => wire.is_down = true,
            "up" => wire.is_down = false,
            "other" => wire.is_other = true,
            "own" => wire.is_other = false,
            "keep" => wire.keeps = true,
            "late" => wire.come_late(),
            _ => return false,
        }
        true
    }

    /// Does what happens to the clock, the sheet, the book or the line.
    fn happens(&mut self, what: &str, text: &str) -> Result<(), Fault> {
        match what {
            "at" => self.kit.sets(text),
            "sheet" => self.kit.lays(self.alloc, text),
            "office" => {
                let world = self.world;
                let number = world.zones.number_of(HEAD_OFFICE)?;
                self.kit.zone.set(number);
                Ok(())
            }
            "lost" => {
                self.is_lost = true;
                Ok(())
            }
            "copy" => self.book.copies(),
            "back" => self.book.puts_back(),
            _ if self.befalls(what) => Ok(()),
            _ => Err(Fault::Line("this line isn't read")),
        }
    }

    /// Plays a line, given by its first word and the text after that word.
    pub fn play(&mut self, asked: &mut Asked, word: &str, rest: &str) {
        match word {
            "says" => self.types(asked, Typist::Till, rest),
            "window" => {
                let (staff, words) = rest.split_once(' ').unwrap_or((rest, ""));
                match window_of(staff) {
                    Some(typist) => self.types(asked, typist, words),
                    None => asked.told.needs(false, "a member of staff is wanted"),
                }
            }
            _ if says_more(word) => asked.wants(self.alloc, word, rest),
            _ if word.len() == 1 => self.asks(asked, word, rest),
            _ => {
                if let Err(fault) = self.happens(word, rest) {
                    asked.told.fails(fault);
                }
            }
        }
    }

    /// Ends the day. If the till was never stopped, compares all lines about settled entries.
    pub fn end(&mut self, asked: &mut Asked) {
        if self.book.stops() == 0 {
            asked.compare_sure();
        }
    }
}
