use crate::{
    Amount, BranchNo, ConsignmentNo, CopyNo, CopyNos, CustomerNo, Key, LineNos, LotName, Moment,
    NewCustomer, RentalNo, StaffNo, StockFile,
};

/// What a counter's command does.
#[derive(Drop)]
pub enum Act {
    /// Adds a customer to the branch, who is active.
    Customer(NewCustomer),
    /// Sets whether a customer may rent.
    Active {
        customer: CustomerNo,
        active: bool,
    },
    /// Rents a copy to a customer.
    Rent {
        customer: CustomerNo,
        copy: CopyNo,
    },
    /// Takes the copy of a rental back.
    TakeBack(RentalNo),
    /// Takes a customer's payment, of a rental or of none.
    Pay {
        customer: CustomerNo,
        rental: Option<RentalNo>,
        amount: Amount,
    },
    /// Adds the copies that a stock file lists to the branch, as a lot of that name.
    Import {
        lot: LotName,
        file: StockFile,
    },
    /// Sends copies to another branch, as a consignment with a line for each, in the order given.
    Dispatch {
        to: BranchNo,
        copies: CopyNos,
    },
    /// Takes a consignment in that another branch sent, with all of its lines but those that are missing.
    Receive {
        from: BranchNo,
        /// Its number, among the consignments of that sender to this branch.
        number: ConsignmentNo,
        missing: LineNos,
    },
    /// Takes a copy out of the shop permanently.
    Scrap(CopyNo),
}

/// A command of a branch's counter.
#[derive(Drop)]
pub struct Command {
    /// By which the command is known where it is sent again.
    pub key: Key,
    /// Who gives it.
    pub staff: StaffNo,
    /// When it is given, by the counter's clock.
    pub at: Moment,
    pub act: Act,
}
