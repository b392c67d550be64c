// What a line of the list comes to.
use crate::table::{Operation, Order};

// A line that was compared: its operation, its order if it states one, and whether the two answers are the same.
#[derive(Clone, Copy)]
pub struct Compared {
    pub operation: Operation,
    pub order: Option<Order>,
    pub same: bool,
}

// Why a line was not compared.
#[derive(Clone, Copy)]
pub enum Uncompared {
    // It can't be read.
    NotRead,
    // Its operation is not known, or not at its order.
    NotKnown,
}
