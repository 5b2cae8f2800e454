use crate::writer::Writer;
use std::alloc::Global;

/// Items, after their number.
#[derive(Drop)]
pub struct Section {
    count: u64,
    items: Writer,
}

impl Section {
    /// Creates a section without items. Allocates nothing.
    pub fn new(alloc: Global) -> Section {
        Section {
            count: 0,
            items: Writer::new(alloc),
        }
    }

    /// Returns the number of items.
    pub fn count(&self) -> u64 {
        self.count
    }

    /// Begins one more item, and returns the writer for it.
    pub fn begin(&mut self) -> &mut Writer {
        self.count = self.count.saturating_add(1);
        &mut self.items
    }

    /// Writes the number of items, and then the items.
    pub fn write(&self, writer: &mut Writer) {
        writer.write_number(self.count);
        writer.append(&self.items);
    }
}
