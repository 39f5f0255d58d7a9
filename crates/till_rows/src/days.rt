//! Plays rows of a till's day, each as it is, and disturbed in all ways if a line says so.
ghost use Rattle.std.specs.Prelude.{◌≡◌, OnOk};

use crate::day::{Day, QUIET, Trouble, begin};
use crate::line::{Counter, Cut};
use crate::shop::Shop;
use crate::world::World;
use row_player::{Asked, Fault, InMemory, Player, Texts, failing_after};
use std::alloc::Global;
use std::marker::Model;

/// More disturbed days than any part has.
const MOST_DAYS: u64 = 4000;

/// From this byte of a message on, a connection breaks only at each fifth byte.
const EACH_BYTE: u64 = 100;

/// A day is disturbed at more places than that, in each part. How many they are depends on how the book is kept.
const FEWEST: u32 = 50;

/// What is disturbed.
#[derive(Clone, Copy)]
enum DisturbedPart {
    /// The disk of the book's log and the disk of its other file, each in turn. What wasn't synced is lost.
    Till,
    /// The same disks, but nothing that was written is lost.
    Killed,
    /// The disks of the server, each in turn.
    Server,
    /// The bytes that the till sends, and the bytes of the replies.
    Line,
    /// All messages, in one day: each comes once more after each later word.
    Late,
}

/// Returns where the first connections of a day's words break.
fn cut_at(is_sent: bool, number: u64) -> Cut {
    let more = number.saturating_sub(EACH_BYTE).saturating_mul(4);
    let bytes = number.saturating_add(more);
    if is_sent {
        Cut::Sent(bytes)
    } else {
        Cut::Told(bytes)
    }
}

/// Returns the disturbances of the day with that number, in the first or the second half of the part.
fn trouble_at(part: DisturbedPart, is_first: bool, number: u64) -> Trouble {
    let mut trouble = QUIET;
    match part {
        DisturbedPart::Till => trouble.book = failing_after(is_first, number),
        DisturbedPart::Killed => {
            trouble.book = failing_after(is_first, number);
            trouble.loses = false;
        }
        DisturbedPart::Server => trouble.server = failing_after(is_first, number),
        DisturbedPart::Line => trouble.cut = cut_at(is_first, number),
        DisturbedPart::Late => trouble.repeats = is_first && number == 0,
    }
    trouble
}

/// A row that is played again: the lines of its day, each after its number, and all rows of its book.
#[derive(Clone, Copy)]
struct Script<'s> {
    lines: &'s str,
    book: &'s [u8],
}

/// Plays the lines of a day up to the first wrong one, and then ends the day. Puts all rows of the book.
fn lines<D: InMemory, C: Counter>(
    day: &mut Day<'_, D, C>,
    lines: &str,
    asked: &mut Asked,
    book: &mut Vec<u8>,
) -> Result<(), Fault> {
    for line in lines.lines() {
        let (at, line) = line.split_once(' ').unwrap_or((line, ""));
        let (word, rest) = line.split_once(' ').unwrap_or((line, ""));
        asked.compare(word);
        if !asked.told.is_well() {
            return Err(asked.told.fault());
        }
        asked.at = at.parse().unwrap_or(0);
        day.play(asked, word, rest);
    }
    ended(day, asked, book)
}

/// Ends a day, and puts all rows of its book if nothing is wrong.
fn ended<D: InMemory, C: Counter>(
    day: &mut Day<'_, D, C>,
    asked: &mut Asked,
    book: &mut Vec<u8>,
) -> Result<(), Fault> {
    asked.compare("");
    day.end(asked);
    match asked.told.fault() {
        Fault::Nothing => day.put_book(book),
        fault => Err(fault),
    }
}

/// Fails unless the book is the wanted one, in all bytes.
fn settle(book: &[u8], wanted: &[u8]) -> Result<(), Fault>
    ensures { OnOk result (book.now ≡ wanted.now) }
{
    if book != wanted {
        return Err(Fault::Line("another book"));
    }
    Ok(())
}

/// Plays the row disturbed, and fails unless its book, which is put into `book`, is that of the undisturbed row. Returns
/// how often the day was disturbed.
fn disturbed<D: InMemory>(
    alloc: Global,
    world: &World,
    script: &Script<'_>,
    trouble: &Trouble,
    asked: &mut Asked,
    book: &mut Vec<u8>,
) -> Result<u32, Fault>
    ensures { OnOk result (book.new.items ≡ script.now.book.now) }
{
    *asked = Asked::new(alloc);
    book.clear();
    let mut day = begin::<D>(alloc, world, trouble);
    let played = lines(&mut day, script.lines, asked, book);
    let stops = day.stops();
    drop(day);
    played?;
    settle(book.as_slice(), script.book)?;
    Ok(stops)
}

/// Disturbs one half of the part at each place in turn, from the first to the last. Returns how often it was disturbed.
fn sweep<D: InMemory>(
    alloc: Global,
    world: &World,
    script: &Script<'_>,
    part: DisturbedPart,
    is_first: bool,
    asked: &mut Asked,
    book: &mut Vec<u8>,
) -> Result<u32, Fault> {
    let mut stops = 0u32;
    for number in 0..MOST_DAYS {
        let trouble = trouble_at(part, is_first, number);
        let it = disturbed::<D>(alloc, world, script, &trouble, asked, book)?;
        if it == 0 {
            return Ok(stops);
        }
        stops = stops.saturating_add(it);
    }
    Err(Fault::Line("the day has more places"))
}

/// Disturbs both halves of the part at each place. Fails unless each disturbed day agrees, and the places are more than
/// the fewest.
fn sweeps<D: InMemory>(
    alloc: Global,
    world: &World,
    script: &Script<'_>,
    part: DisturbedPart,
    asked: &mut Asked,
    book: &mut Vec<u8>,
) -> Result<(), Fault> {
    let first = sweep::<D>(alloc, world, script, part, true, asked, book)?;
    let second = sweep::<D>(alloc, world, script, part, false, asked, book)?;
    if first.saturating_add(second) > FEWEST {
        Ok(())
    } else {
        Err(Fault::Line("the day is disturbed at few places"))
    }
}

/// Plays the row once more, disturbed in all ways, and prints the outcome of each.
fn all_disturbed<D: InMemory>(
    rt: &HostRuntime,
    world: &World,
    script: &Script<'_>,
    asked: &mut Asked,
) {
    let alloc = rt.alloc();
    let mut book = Vec::new(alloc);
    for (name, part) in [
        ("stopped_at_each_call", DisturbedPart::Till),
        ("killed_at_each_call", DisturbedPart::Killed),
        ("server_stopped_at_each_call", DisturbedPart::Server),
        ("cut_at_each_byte", DisturbedPart::Line),
        ("late_messages", DisturbedPart::Late),
    ] {
        let fewest = FEWEST;
        let _ = match sweeps::<D>(alloc, world, script, part, asked, &mut book) {
            Ok(()) => println!(rt; "{name}: more than {fewest}"),
            Err(fault) => {
                asked.told.fails(fault);
                println!(rt; "{name}: the row differs")
            }
        };
        if !asked.told.is_well() {
            return;
        }
    }
}

/// The row that is played.
#[derive(Drop)]
pub struct Days<'w, D: InMemory> {
    rt: &'w HostRuntime,
    world: &'w World,
    /// The row's day, once it has begun.
    day: Option<Day<'w, D, Shop<D>>>,
    /// The lines of the day, each after its number.
    lines: String,
    /// Whether the row is also played disturbed.
    is_disturbed: bool,
}

/// The model is trivial, so code that holds days isn't checked over their parts.
impl<'w, D: InMemory> Model for Days<'w, D> {
    ghost use Rattle.std.specs.Prelude.{⊤};

    ghost Value = { ⊤ };

    ghost view = { λ _. tt };
}

impl<'w, D: InMemory> Days<'w, D> {
    pub fn new(rt: &'w HostRuntime, world: &'w World) -> Days<'w, D> {
        Days {
            rt,
            world,
            day: None,
            lines: String::new(rt.alloc()),
            is_disturbed: false,
        }
    }

    /// Keeps a line, for the disturbed days. Reports whether there was memory.
    fn keep(&mut self, at: usize, word: &str, rest: &str) -> bool {
        match format!(in self.rt.alloc(); "{at} {word} {rest}\n") {
            Ok(line) => self.lines.push_str(line.as_str()).is_ok(),
            Err(_) => false,
        }
    }
}

impl<'w, D: InMemory> Player for Days<'w, D> {
    fn clear(&mut self, _: &mut Texts) {
        self.day = None;
        self.lines.clear();
        self.is_disturbed = false;
    }

    fn play(&mut self, asked: &mut Asked, word: &str, rest: &str) {
        match word {
            "day" if self.day.is_none() => {
                self.day = Some(begin(self.rt.alloc(), self.world, &QUIET));
            }
            "disturbed" => self.is_disturbed = true,
            _ => {
                let is_kept = self.keep(asked.at, word, rest);
                asked.told.needs(is_kept, "no memory");
                match &mut self.day {
                    Some(day) => day.play(asked, word, rest),
                    None => asked.told.needs(false, "no day has begun"),
                }
            }
        }
    }

    fn end(&mut self, asked: &mut Asked) {
        let mut book = Vec::new(self.rt.alloc());
        let played = match &mut self.day {
            Some(day) => ended(day, asked, &mut book),
            None => Ok(()),
        };
        if let Err(fault) = played {
            asked.told.fails(fault);
        } else if self.is_disturbed {
            let script = Script {
                lines: self.lines.as_str(),
                book: book.as_slice(),
            };
            let count = asked.count;
            all_disturbed::<D>(self.rt, self.world, &script, asked);
            asked.count = count;
        }
    }
}
