//! What lines say of what comes next: how requests come, standard input, and what tills do.
use crate::asked::Texts;
use crate::stage::{Come, How, WHOLE};
use crate::texts::{is_status, number, put_bytes, put_quoted, put_reply, put_request};
use crate::tills::{Step, What};
use std::alloc::Global;
use std::marker::Model;

/// What happens to the chain that gets the next requests.
#[derive(Clone, Copy)]
pub enum Way {
    /// Nothing.
    Plain,
    /// The disk of its log fails so many calls before the requests would be answered.
    Failing(u32),
    /// Before the requests, it is stopped at each call of the disks, on copies of the files. So is an opening.
    Swept,
    /// It is stopped at each call of the disks, on copies of the files. The requests come as values before the stop and
    /// after it.
    Stopped,
}

/// What lines say of what comes next.
#[derive(Drop)]
pub struct Next {
    pub way: Way,
    pub how: How,
    /// Whether a line says how the next requests come.
    pub is_said: bool,
    /// Standard input of the next run.
    pub input: Vec<u8>,
    /// The steps of the tills that aren't served yet, and how many tills come.
    pub steps: Vec<Step>,
    pub comers: u32,
}

/// Says nothing of the value. So its holder isn't checked over its parts.
impl Model for Next {
    ghost use Rattle.std.specs.Prelude.{⊤};

    ghost Value = { ⊤ };

    ghost view = { λ _. tt };
}

impl Next {
    /// Says nothing of what comes next.
    pub fn new(alloc: Global) -> Next {
        Next {
            way: Way::Plain,
            how: WHOLE,
            is_said: false,
            input: Vec::new(alloc),
            steps: Vec::new(alloc),
            comers: 0,
        }
    }

    /// Adds a step: a till comes (`comes`), so many milliseconds pass (`passes COUNT`), or a till does or gets
    /// something (`till NUMBER WORD REST`).
    fn step(&mut self, alloc: Global, word: &str, line: &str, told: &mut Texts) {
        let (count, line) = line.split_once(' ').unwrap_or((line, ""));
        let (does, rest) = line.split_once(' ').unwrap_or((line, ""));
        let mut bytes = Vec::new(alloc);
        let what = match (word, does) {
            ("comes", _) => What::Comes,
            ("passes", _) => What::Passes,
            (_, "waits") => What::Waits,
            (_, "left") => What::IsLeft,
            (_, "goes") => What::Goes,
            (_, "raw") => {
                put_quoted(alloc, rest, &mut bytes, told);
                What::Sends
            }
            _ if is_status(does) => {
                let is_put = put_reply(&mut bytes, does, rest.as_bytes());
                told.needs(is_put, "this is no status");
                What::IsTold
            }
            _ => {
                put_request(alloc, &mut bytes, does, rest, told);
                What::Sends
            }
        };
        let mut till = 0;
        if word == "comes" {
            self.comers = self.comers.saturating_add(1);
        } else {
            till = number(count, told);
        }
        let step = Step {
            what,
            number: till,
            bytes,
        };
        let is_put = self.steps.push(step).is_ok();
        told.needs(is_put, "no memory");
    }

    /// Reads a line that says something of what comes next.
    pub fn says(&mut self, alloc: Global, word: &str, rest: &str, told: &mut Texts) {
        match word {
            "comes" | "passes" | "till" => return self.step(alloc, word, rest, told),
            "stdin" => return put_bytes(alloc, rest, &mut self.input, told),
            "stops" => self.way = Way::Swept,
            "fails" => self.way = Way::Failing(number(rest, told)),
            "values" if rest == "stopped" => self.way = Way::Stopped,
            "values" if rest.is_empty() => self.how.come = Come::AsValues(None),
            "values" => self.how.come = Come::AsValues(Some(number(rest, told))),
            "most" => self.how.most = number(rest, told),
            "room" => self.how.room = number(rest, told) as usize,
            "pieces" => {
                self.how.pieces = number(rest, told) as usize;
                told.needs(self.how.pieces > 0, "a piece or a turn has nothing");
            }
            "turns" => {
                let turns = number(rest, told);
                self.how.come = Come::ByTurns(turns);
                told.needs(turns > 0, "a piece or a turn has nothing");
            }
            "cut" | "breaks" => {
                self.how.cut = number(rest, told) as usize;
                self.how.breaks = word == "breaks";
            }
            _ => return told.needs(false, "this line isn't read"),
        }
        self.is_said = true;
    }
}
