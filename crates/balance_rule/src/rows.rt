//! What the rules read of a customer's rows.

use shop_types::{Amount, Moment, Period, Rate};

/// What a balance reads of a rental, and of its terms.
#[derive(Clone, Copy)]
pub struct RentalTerms {
    pub rented: Moment,
    /// When the copy came back. A rental without it is open.
    pub returned: Option<Moment>,
    pub rate: Rate,
    /// For how many days it was rented.
    pub period: Period,
    /// What the film cost to replace when the rental began.
    pub replacement: Amount,
}

/// What a balance reads of a payment.
#[derive(Clone, Copy)]
pub struct Paid {
    pub amount: Amount,
    pub at: Moment,
}
