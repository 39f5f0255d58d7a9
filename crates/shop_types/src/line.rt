use crate::{OfficeAsk, OfficeCommand, Token};

/// What a line of words asks the program of head office for.
#[derive(Drop)]
pub enum LineAct {
    /// A command of head office to the chain.
    Office(OfficeCommand),
    /// A reading of head office, from the chain.
    OfficeLook(OfficeAsk),
    /// To make a new chain, whose head office has the token.
    Init(Token),
    /// To bring the chain's file to the form that this program reads.
    Migrate,
    /// To answer requests at the port, over so many connections one after another.
    Serve { port: u16, connections: u32 },
    /// To answer the requests of an input.
    Replay,
}

/// A line of words, as it was read.
#[derive(Drop)]
pub struct Line {
    /// The name of the chain's file, or none for a chain in memory.
    pub db: Option<String>,
    pub act: LineAct,
}

/// Why words are no line.
#[derive(Drop)]
pub enum Usage {
    /// A text that says what is wrong with them.
    Words(String),
    /// There was no memory left to read them.
    Memory,
}
