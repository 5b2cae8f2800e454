use crate::ending::Ending;
use answers::{Answer, push_answer};
use io::write_all;
use messages::{FieldsFault, Head, StreamEnd, read_fields, read_head, skip};
use std::alloc::{AllocError, Global};

// The room that is reserved for a reply from the start. Most replies fit.
const REPLY: usize = 4_096;

// The kinds of orders to load a module and to explain the order before, and the most bytes that a module may have.
const LOAD: u64 = 1;

const EXPLAIN: u64 = 18;

pub const MAX_MODULE_SIZE: u64 = 67_108_864;

/// What was received.
#[derive(Clone, Copy)]
pub enum Received {
    /// An order of this kind. Its fields are kept.
    Order(u64),
    /// An order to explain the one before, whose fields are still kept.
    Explain,
    /// An order to load a module of that many bytes, which are too many. No fields are kept.
    TooLarge(u64),
    /// An order for which memory ran out. No fields are kept.
    OutOfMemory,
}

/// The client: its messages are read from one descriptor, and messages to it are written to the other.
#[derive(Drop)]
pub struct Client {
    alloc: Global,
    ask: i32,
    hear: i32,
    incoming: Vec<u8>,
    fields: Vec<u8>,
    outgoing: Vec<u8>,
}

impl Client {
    /// Creates a client for these descriptors. Messages are written to `ask` and read from `hear`. Fails if an allocation fails
    /// for a reply.
    pub fn new(alloc: Global, ask: i32, hear: i32) -> Result<Client, AllocError> {
        let fields = Vec::with_capacity(alloc, REPLY)?;
        let outgoing = Vec::with_capacity(alloc, REPLY)?;
        Ok(Client {
            alloc,
            ask,
            hear,
            incoming: Vec::new(alloc),
            fields,
            outgoing,
        })
    }

    /// Returns the fields of the last message, or of the one before it if the last one is an order to explain that.
    pub fn fields(&self) -> &[u8] {
        self.incoming.as_slice()
    }

    /// Sends an answer.
    pub fn send(&mut self, answer: &Answer) -> Result<(), Ending> {
        self.outgoing.clear();
        if push_answer(self.alloc, &mut self.fields, &mut self.outgoing, answer).is_err() {
            return Err(Ending::OutOfMemory);
        }
        if !write_all(self.ask, self.outgoing.as_slice()) {
            return Err(Ending::NotWritten);
        }
        Ok(())
    }

    // Skips the fields of a module that is too large.
    fn skip_fields(&mut self, size: u64) -> Result<Received, Ending> {
        self.incoming = Vec::new(self.alloc);
        if skip(self.hear, size) {
            Ok(Received::TooLarge(size))
        } else {
            Err(Ending::CutShort)
        }
    }

    // Reads the fields of a message. A module that is too large is skipped to its end.
    fn receive_fields(&mut self, size: u64, kind: u64) -> Result<Received, Ending> {
        if kind == EXPLAIN && size == 0 {
            return Ok(Received::Explain);
        }
        if kind == LOAD && size > MAX_MODULE_SIZE {
            return self.skip_fields(size);
        }
        match read_fields(self.hear, size, &mut self.incoming) {
            Ok(()) => Ok(Received::Order(kind)),
            Err(FieldsFault::CutShort) => Err(Ending::CutShort),
            Err(FieldsFault::OutOfMemory) => {
                self.incoming = Vec::new(self.alloc);
                Ok(Received::OutOfMemory)
            }
        }
    }

    /// Reads the next message.
    pub fn receive(&mut self) -> Result<Received, Ending> {
        match read_head(self.hear) {
            Ok(Head { size, kind }) => self.receive_fields(size, kind),
            Err(StreamEnd::Over) => Err(Ending::InputOver),
            Err(StreamEnd::CutShort) => Err(Ending::CutShort),
        }
    }
}
