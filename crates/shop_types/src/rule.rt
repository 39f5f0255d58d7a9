/// By which rule balances go.
#[derive(Clone, Copy)]
pub enum Rule {
    /// The manual's code: a rental's rate, and a dollar for each late day.
    ByCode,
    /// The comment beside it: a dollar for each day that a rental is past its period, returned or not. If these
    /// days are more than twice its period, its replacement cost is added.
    ByComment,
}
