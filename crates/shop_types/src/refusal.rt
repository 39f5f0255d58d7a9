ghost use Rattle.std.specs.Prelude.{◌≡◌};
ghost use Rattle.shop_model.specs.Refusals.{problem_number, problem_name, problem_status};
ghost use Rattle.shop_types.specs.Seen.{seen_refusal};

/// A stock file is at fault: the number of its first line that is, where the file's first line has the number 1.
#[derive(Clone, Copy)]
pub struct BadCsv {
    pub line: u32,
}

/// Says why a request is refused. If several refusals apply, the reply names the one with the lowest number. There are
/// two exceptions: `Usage` is checked before `KeyUsed`, and the last three may occur at any point.
#[derive(Clone, Copy)]
pub enum Refusal {
    /// The server does not serve a message with this head.
    BadHead,
    /// The head is longer than 8,192 bytes, or the body longer than 65,536.
    TooLong,
    /// The token is missing, there twice, or nobody's.
    NoCounter,
    /// There is no such request for this caller.
    NoRoute,
    /// A part of the path, or the body, isn't of its form.
    BadBody,
    /// The key is kept with another command.
    KeyUsed,
    /// The caller has as many kept keys as the limits allow, or the branch would have more copies than they allow.
    Full,
    /// The moment is before that of the branch's last command.
    MomentBack,
    /// There is no such member of staff, or not one who works at this branch.
    NoStaff,
    /// The branch has no such customer.
    NoCustomer,
    /// The customer may not rent.
    CustomerInactive,
    /// The branch has no such copy.
    NoCopy,
    /// The copy was sent off or scrapped.
    CopyNotHere,
    /// A customer has the copy.
    CopyOut,
    /// The film is withdrawn.
    FilmWithdrawn,
    /// The customer rented the copy at this very moment before.
    SameMoment,
    /// The branch has no such rental.
    NoRental,
    /// The rental was returned before.
    RentalReturned,
    /// The rental is another customer's.
    WrongCustomer,
    /// There is no such film.
    NoFilm,
    /// The branch has a lot of that name.
    LotIn,
    /// The stock file has a line at fault.
    BadCsv(BadCsv),
    /// There is no such branch, or it isn't the one of the member of staff.
    NoBranch,
    /// A branch sends nothing to itself.
    OwnBranch,
    /// No such consignment came to the branch.
    NoArrival,
    /// The consignment was received before.
    ArrivalReceived,
    /// The copies or lines named are none, too many, twice the same, or not of the consignment.
    BadLines,
    /// A threshold is 0.
    BadThreshold,
    /// The token is another branch's or head office's.
    TokenTaken,
    /// There is no such country, city, language, category or actor.
    NoSharedRow,
    /// What is asked for is so already.
    Already,
    /// The words are no request of head office.
    Usage,
    /// There was no memory left.
    Memory,
    /// The store can hold no more.
    Size,
    /// The store failed, or holds what no books are.
    StoreFailed,
}

impl Refusal {
    /// Returns the refusal's number, from 1 to 42. Of several refusals the one with the lowest number is sent.
    pub fn number(&self) -> u8
        ensures { result ≡ problem_number (seen_refusal self.now) }
    {
        match self {
            Refusal::BadHead => 1,
            Refusal::TooLong => 2,
            Refusal::NoCounter => 3,
            Refusal::NoRoute => 4,
            Refusal::BadBody => 5,
            Refusal::KeyUsed => 6,
            Refusal::Full => 7,
            Refusal::MomentBack => 8,
            Refusal::NoStaff => 9,
            Refusal::NoCustomer => 10,
            Refusal::CustomerInactive => 11,
            Refusal::NoCopy => 12,
            Refusal::CopyNotHere => 13,
            Refusal::CopyOut => 14,
            Refusal::FilmWithdrawn => 15,
            Refusal::SameMoment => 16,
            Refusal::NoRental => 17,
            Refusal::RentalReturned => 18,
            Refusal::WrongCustomer => 19,
            Refusal::NoFilm => 20,
            Refusal::LotIn => 21,
            Refusal::BadCsv(_) => 22,
            Refusal::NoBranch => 23,
            Refusal::OwnBranch => 24,
            Refusal::NoArrival => 25,
            Refusal::ArrivalReceived => 26,
            Refusal::BadLines => 27,
            Refusal::BadThreshold => 28,
            Refusal::TokenTaken => 29,
            Refusal::NoSharedRow => 30,
            Refusal::Already => 31,
            Refusal::Usage => 32,
            Refusal::Memory => 40,
            Refusal::Size => 41,
            Refusal::StoreFailed => 42,
        }
    }

    /// Returns the name that a reply gives to the refusal.
    pub fn name(&self) -> &'static str
        ensures { result.now ≡ problem_name (seen_refusal self.now) }
    {
        match self {
            Refusal::BadHead => "bad_head",
            Refusal::TooLong => "too_long",
            Refusal::NoCounter => "no_counter",
            Refusal::NoRoute => "no_route",
            Refusal::BadBody => "bad_body",
            Refusal::KeyUsed => "key_used",
            Refusal::Full => "full",
            Refusal::MomentBack => "moment_back",
            Refusal::NoStaff => "no_staff",
            Refusal::NoCustomer => "no_customer",
            Refusal::CustomerInactive => "customer_inactive",
            Refusal::NoCopy => "no_copy",
            Refusal::CopyNotHere => "copy_not_here",
            Refusal::CopyOut => "copy_out",
            Refusal::FilmWithdrawn => "film_withdrawn",
            Refusal::SameMoment => "same_moment",
            Refusal::NoRental => "no_rental",
            Refusal::RentalReturned => "rental_returned",
            Refusal::WrongCustomer => "wrong_customer",
            Refusal::NoFilm => "no_film",
            Refusal::LotIn => "lot_in",
            Refusal::BadCsv(_) => "bad_csv",
            Refusal::NoBranch => "no_branch",
            Refusal::OwnBranch => "own_branch",
            Refusal::NoArrival => "no_arrival",
            Refusal::ArrivalReceived => "arrival_received",
            Refusal::BadLines => "bad_lines",
            Refusal::BadThreshold => "bad_threshold",
            Refusal::TokenTaken => "token_taken",
            Refusal::NoSharedRow => "no_shared_row",
            Refusal::Already => "already",
            Refusal::Usage => "usage",
            Refusal::Memory => "memory",
            Refusal::Size => "size",
            Refusal::StoreFailed => "store_failed",
        }
    }

    /// Returns the status of its reply, which is one of RFC 9110: 400, 403, 404, 409 or 503.
    pub fn status(&self) -> u16
        ensures { result ≡ problem_status (seen_refusal self.now) }
    {
        match self.number() {
            3 => 403,
            4 => 404,
            6..=31 => 409,
            40..=42 => 503,
            _ => 400,
        }
    }
}
