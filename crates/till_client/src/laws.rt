//! Laws of messages, each on a function with nothing to do.

ghost use Rattle.till_client.specs.Laws.{OneAnswer, OneCommand, OneExchange, OneMessage};

/// The same bytes say only one command.
pub fn one_command()
    ensures { OneCommand }
{}

/// The bytes of a reply determine which reply it is, and where it ends.
pub fn one_answer()
    ensures { OneAnswer }
{}

/// However a connection with one request breaks, the server reads this request or none.
pub fn one_message()
    ensures { OneMessage }
{}

/// The answer that a till read from its connection is the server's answer to the message that the till sent there.
pub fn one_exchange()
    ensures { OneExchange }
{}
