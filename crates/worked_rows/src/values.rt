//! Requests as values.
use counter_http::{Message, MessageReading, read_request};
use counter_routes::{Reading, Routes};
use office_words::ClapWords;
use row_player::Texts;
use shop_types::{BranchNo, Caller, Request, Token};
use std::alloc::Global;
use std::marker::Model;

/// Requests with their tokens.
#[derive(Drop)]
pub struct Values {
    list: Vec<(Token, Request)>,
}

/// Says nothing of the value. So its holder isn't checked over its parts.
impl Model for Values {
    ghost use Rattle.std.specs.Prelude.{⊤};

    ghost Value = { ⊤ };

    ghost view = { λ _. tt };
}

impl Values {
    pub fn list(&self) -> &[(Token, Request)] {
        self.list.as_slice()
    }

    /// Adds what the message of a branch asks, with its token. Reports whether the message was read.
    fn put(&mut self, alloc: Global, routes: &Routes, message: &Message<'_>) -> bool {
        let (Some(token), Some(branch)) = (
            Token::read(message.token.unwrap_or(b"")),
            BranchNo::new(1),
        ) else {
            return false;
        };
        match routes.read(alloc, &ClapWords { alloc }, message, Caller::Branch(branch)) {
            Ok(Reading::Asked(request)) => {
                let put = self.list.push((token, request));
                let is_put = put.is_ok();
                drop(put);
                is_put
            }
            Ok(Reading::Refused(_)) | Err(_) => false,
        }
    }

    /// Adds what the messages ask. Reports whether all were read.
    fn put_all(&mut self, alloc: Global, routes: &Routes, input: &[u8]) -> bool {
        let mut rest = input;
        for _ in 0..input.len() {
            let MessageReading::Whole(message, length) = read_request(rest) else {
                return true;
            };
            if !self.put(alloc, routes, &message) {
                return false;
            }
            rest = rest.get(length..).unwrap_or(&[]);
        }
        true
    }

    /// Reads what the messages of branches ask, with their tokens.
    pub fn read(alloc: Global, input: &[u8], told: &mut Texts) -> Values {
        let mut values = Values {
            list: Vec::new(alloc),
        };
        let is_read = match Routes::new(alloc) {
            Ok(routes) => {
                let is_read = values.put_all(alloc, &routes, input);
                drop(routes);
                is_read
            }
            Err(_) => false,
        };
        told.needs(is_read, "a value isn't read");
        values
    }
}
