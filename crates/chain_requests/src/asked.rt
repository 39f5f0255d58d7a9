//! The requests that the tables answer: a branch's request, or a command of head office.

ghost use Rattle.shop_types.specs.Seen.{seen_request};
ghost use Rattle.chain_requests.specs.Steps.{IsAsker, IsAsked, asker, asked_of};

use shop_schema::{command_values, office_values};
use shop_types::{BranchNo, OfficeCommand, Request};

/// A request, and who asks it.
#[derive(Clone, Copy)]
pub enum Asked<'a> {
    /// A request of a branch. `is_known` says whether the branch is known to be there.
    OfBranch {
        branch: BranchNo,
        is_known: bool,
        request: &'a Request,
    },
    /// A command of head office.
    OfOffice(&'a OfficeCommand),
}

/// Shows that the tables can hold the caller and the values of the request. The function has nothing to do: it is a
/// law.
pub fn asked_values(asked: &Asked<'_>)
    ensures caller { IsAsker (asker asked.now) }
    ensures request { IsAsked (asked_of asked.now) }
{
    match *asked {
        Asked::OfBranch {
            branch,
            request,
            ..
        } => {
            let _number = branch.get();
            request_values(request);
        }
        Asked::OfOffice(command) => office_values(command),
    }
}

/// Shows that the tables can hold the values of a branch's request.
fn request_values(request: &Request)
    ensures { IsAsked (seen_request request.now) }
{
    match request {
        Request::Do(command) => command_values(command),
        Request::Office(command) => office_values(command),
        Request::Look(_) | Request::View(_) | Request::OfficeLook(_) => {}
    }
}
