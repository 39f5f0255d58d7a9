//! What a message asks.

ghost use Rattle.std.specs.Prelude.{◌≡◌, ◌≤◌, true, IfOk, IfErr, OnErr, Err, Option, Some, None, option_map, length};
ghost use Rattle.http_messages.specs.Shown.{message_of};
ghost use Rattle.shop_model.specs.Values.{Command as Written, Ask as Asking, View as Viewing};
ghost use Rattle.shop_types.specs.Seen.{seen_command, seen_ask, seen_view, seen_caller};
ghost use Rattle.counter_routes.specs.Routes.{route_of};
ghost use Rattle.counter_routes.specs.Readings.{Reads, command_or_bad, look_or_bad, view_or_no_route, request_at, reading_of, is_command, takes_memory};
ghost use Rattle.counter_routes.specs.declared.bodies.BodyFault.TheVariants.{BadBody, NoMemory as OutOfMemory};

use crate::bodies::BodyFault;
use crate::commands::body_command;
use crate::imports::import_command;
use crate::looks::{look_asked, view_asked};
use crate::office::read_office;
use crate::paths::{Route, Routes};
use shop_types::{Ask, Caller, Command, NoMemory, OfficeWords, Refusal, Request, View};
use std::alloc::Global;

/// What a message asks: a request to the shop, or why it is none.
#[derive(Drop)]
pub enum Reading {
    Asked(Request),
    Refused(Refusal),
}

/// Returns what a command's message asks: the command, or `bad_body` if the message writes none.
fn read_command(command: Result<Command, BodyFault>) -> Result<Reading, NoMemory>
    ensures reading { (written : Option Written) → IfOk command (λ c. written ≡ Some (seen_command c))
        → IfErr command (λ fault. fault ≡ BadBody → written ≡ None)
        → IfOk result (λ reading. Reads reading (command_or_bad written)) }
    ensures memory { OnErr result (command ≡ Err OutOfMemory) }
{
    match command {
        Ok(command) => Ok(Reading::Asked(Request::Do(command))),
        Err(fault) => match fault {
            BodyFault::BadBody => Ok(Reading::Refused(Refusal::BadBody)),
            BodyFault::NoMemory => Err(NoMemory),
        },
    }
}

/// Returns what a look's message asks: the look, or `bad_body` if a part of the path is not of its form.
fn read_look(ask: Option<Ask>) -> Reading
    ensures { (asking : Option Asking) → option_map seen_ask ask ≡ asking → Reads result (look_or_bad asking) }
{
    match ask {
        Some(ask) => Reading::Asked(Request::Look(ask)),
        None => Reading::Refused(Refusal::BadBody),
    }
}

/// Returns what a view's message asks: the view, or `no_route` if no view has the name.
fn read_view(view: Option<View>) -> Reading
    ensures { (viewing : Option Viewing) → option_map seen_view view ≡ viewing
        → Reads result (view_or_no_route viewing) }
{
    match view {
        Some(view) => Reading::Asked(Request::View(view)),
        None => Reading::Refused(Refusal::NoRoute),
    }
}

impl Routes {
    fn read_counter(
        &self,
        alloc: Global,
        message: &http_messages::Request<'_>,
    ) -> Result<Reading, NoMemory>
        requires { length message.now.body.now ≤ 65_536 }
        ensures reading { let m = message_of message.now in
            IfOk result (λ reading. Reads reading (request_at m (route_of m.posts m.target))) }
        ensures memory { OnErr result (is_command (route_of message.now.posts message.now.target.now) ≡ true) }
    {
        let Some(route) = self.find(message.posts, message.target) else {
            return Ok(Reading::Refused(Refusal::NoRoute));
        };
        let http_messages::Request { target, body, .. } = *message;
        match route {
            Route::Command(form) => read_command(body_command(alloc, form, body)),
            Route::Import => read_command(import_command(alloc, target, body)),
            Route::Look(form) => Ok(read_look(look_asked(form, target))),
            Route::View => Ok(read_view(view_asked(target))),
        }
    }

    /// Returns what a message asks of that caller. The refusal is `no_counter` if nobody asks, and `too_long` if the
    /// body has more than 65,536 bytes. It is `no_route` if there is no such request for that caller or no view of
    /// that name. It is `bad_body` if a part of the path or a JSON body is not of its form. A stock file is kept as it
    /// came, whatever it says. Head office has one request: its words, sent by POST to `/office` as a JSON list of
    /// texts. They ask for a command or for a reading over all branches. The refusal is `usage` if `words` reads
    /// neither in them, or a file's name too, or what only the program can do. Only a counter's command and head
    /// office's words take memory.
    pub fn read<O: OfficeWords>(
        &self,
        alloc: Global,
        words: &O,
        message: &http_messages::Request<'_>,
        caller: Caller,
    ) -> Result<Reading, NoMemory>
        ensures reading { IfOk result (λ reading. Reads reading
            (reading_of (O.meaning words.now) (message_of message.now) (seen_caller caller))) }
        ensures memory { OnErr result (takes_memory (message_of message.now) (seen_caller caller) ≡ true) }
    {
        match caller {
            // No message that `read_request` reads has a body of this length.
            Caller::Branch(_) if message.body.len() > 65_536 => {
                Ok(Reading::Refused(Refusal::TooLong))
            }
            Caller::Branch(_) => self.read_counter(alloc, message),
            Caller::Office => read_office(alloc, words, message),
            Caller::Nobody => Ok(Reading::Refused(Refusal::NoCounter)),
        }
    }
}
