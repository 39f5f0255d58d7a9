use crate::{Amount, CopyNo, CustomerNo, Moment, Period, Rate, StaffNo};

/// A rental of a branch. Its number is that of its row. A copy has one open rental at most.
#[derive(Clone, Copy)]
pub struct Rental {
    pub rented: Moment,
    pub copy: CopyNo,
    pub customer: CustomerNo,
    /// When the copy came back. A rental without it is open.
    pub returned: Option<Moment>,
    /// Who gave the command by which it was rented.
    pub staff: StaffNo,
}

/// By what a rental is charged: its film's rate, period and replacement cost, as they were when it began.
#[derive(Clone, Copy)]
pub struct Terms {
    pub rate: Rate,
    pub period: Period,
    pub replacement: Amount,
}
