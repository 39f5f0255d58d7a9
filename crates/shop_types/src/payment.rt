use crate::{Amount, CustomerNo, Moment, RentalNo, StaffNo};

/// A payment of a customer. Its number is that of its row.
#[derive(Clone, Copy)]
pub struct Payment {
    pub customer: CustomerNo,
    /// Who gave the command by which it was taken.
    pub staff: StaffNo,
    /// The rental that it is of, which is one of the customer, where it is of one.
    pub rental: Option<RentalNo>,
    pub amount: Amount,
    pub paid: Moment,
}
