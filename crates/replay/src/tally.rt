// Counts what the lines come to.
use crate::outcome::{Compared, Uncompared};
use crate::table::{COUNT, LISTED, Operation};

// What the lines of an operation come to.
#[derive(Clone, Copy)]
pub struct Counts {
    // Lines compared, of each order from 2 on.
    pub compared: [u64; 3],
    // Lines whose answers differ.
    pub different: u64,
}

impl Counts {
    // No line. The name says what it is, as `default()` would not.
    const NONE: Counts = Counts {
        compared: [0; 3],
        different: 0,
    };

    // How many lines were compared.
    pub(crate) fn compared_in_all(&self) -> u64 {
        let [two, three, four] = self.compared;
        two.saturating_add(three).saturating_add(four)
    }
}

// The counts, each up to the most there can be.
#[derive(Drop)]
pub struct Tally {
    // Those of each operation.
    counts: [Counts; COUNT],
    // Lines that can't be read.
    pub not_read: u64,
    // Lines whose operation is not known, or not at their order.
    pub not_known: u64,
}

impl Tally {
    // Nothing counted. No Default, since `Counts` has none.
    pub(crate) fn new() -> Tally {
        Tally {
            counts: [Counts::NONE; COUNT],
            not_read: 0,
            not_known: 0,
        }
    }

    // Counts one line more.
    pub(crate) fn add(&mut self, outcome: Result<Compared, Uncompared>) {
        match outcome {
            Ok(line) => self.add_compared(line),
            Err(Uncompared::NotRead) => self.not_read = self.not_read.saturating_add(1),
            Err(Uncompared::NotKnown) => self.not_known = self.not_known.saturating_add(1),
        }
    }

    // Counts one compared line more.
    fn add_compared(&mut self, line: Compared) {
        let counts = &mut self.counts[line.operation as usize];
        if let Some(order) = line.order {
            let place = order as usize;
            counts.compared[place] = counts.compared[place].saturating_add(1);
        }
        if !line.same {
            counts.different = counts.different.saturating_add(1);
        }
    }

    // The counts of an operation.
    pub(crate) fn of(&self, operation: Operation) -> Counts {
        self.counts[operation as usize]
    }

    // How many lines were compared, without the planted.
    pub(crate) fn compared_in_all(&self) -> u64 {
        LISTED.iter().fold(0, |sum: u64, row| {
            sum.saturating_add(self.of(row.0).compared_in_all())
        })
    }

    // How many lines differ, without the planted.
    pub(crate) fn different_in_all(&self) -> u64 {
        LISTED.iter().fold(
            0,
            |sum: u64, row| sum.saturating_add(self.of(row.0).different),
        )
    }
}
