//! A row: has a player play its lines, one by one.
use crate::asked::{Asked, Texts};
use crate::names::Names;
use std::marker::Model;

/// Plays rows. What can't be played becomes a fault in `told`.
pub trait Player: Drop {
    /// Forgets the row before.
    fn clear(&mut self, told: &mut Texts);

    /// Plays a line, given by its first word and the text after that word, with names filled in. What was asked before is
    /// compared already, unless the line says more of it.
    fn play(&mut self, asked: &mut Asked, word: &str, rest: &str);

    /// Ends the row. What was asked last is compared already.
    fn end(&mut self, asked: &mut Asked);
}

/// A row. The first fault is in `asked.told`.
#[derive(Drop)]
pub struct Row<'t, P: Player> {
    rt: &'t HostRuntime,
    player: P,
    names: Names,
    pub asked: Asked,
}

/// Says nothing of the value. So its holder isn't checked over its parts.
impl<'t, P: Player> Model for Row<'t, P> {
    ghost use Rattle.std.specs.Prelude.{⊤};

    ghost Value = { ⊤ };

    ghost view = { λ _. tt };
}

impl<'t, P: Player> Row<'t, P> {
    pub fn new(rt: &'t HostRuntime, player: P) -> Row<'t, P> {
        let alloc = rt.alloc();
        Row {
            rt,
            player,
            names: Names::new(alloc),
            asked: Asked::new(alloc),
        }
    }

    /// Begins another file.
    pub fn begin_file(&mut self) {
        self.names = Names::new(self.rt.alloc());
        self.asked.at = 0;
    }

    /// Forgets the row before.
    pub fn clear(&mut self) {
        self.player.clear(&mut self.asked.told);
        self.asked = Asked::new(self.rt.alloc());
        self.names.begin_row();
    }

    /// Ends the row.
    pub fn end(&mut self) {
        let asked = &mut self.asked;
        asked.compare("");
        let is_empty = asked.count == 0;
        asked.told.needs(!is_empty, "the row is empty");
        self.player.end(asked);
    }

    /// Plays a line, given by its number, its first word and the text after that word. Does nothing if there is a
    /// fault. First compares what was asked before, unless the line says more of it.
    pub fn play(&mut self, at: usize, word: &str, rest: &str) {
        let alloc = self.rt.alloc();
        let asked = &mut self.asked;
        asked.compare(word);
        if !asked.told.is_well() {
            return;
        }
        asked.at = at;
        let mut filled = String::new(alloc);
        let told = &mut asked.told;
        self.names.fill(rest, &mut filled, told);
        told.needs(!rest.ends_with(' '), "the line ends in a space");
        if !told.is_well() {
            return;
        }
        let rest = filled.as_str();
        match word {
            "let" => self.names.set(rest, told),
            "next" => self.names.raise(alloc, rest, told),
            _ => self.player.play(asked, word, rest),
        }
    }
}
