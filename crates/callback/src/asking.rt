ghost use Rattle.std.specs.Prelude.{◌≡◌, ◌+◌, ◌-◌, ◌^◌, ◌<◌, IsTrue, false};

use io::write_all;
use messages::write_message;

// The kind of the message that contains bytes of the borrowed memory.
const LENT: u64 = 11;

/// The descriptor that requests to a client are written to, and the number of requests so far.
#[derive(Drop)]
pub struct Asking {
    descriptor: i32,
    requests: u64,
}

impl Asking {
    /// Creates a descriptor for requests, with no requests so far.
    pub fn new(descriptor: i32) -> Asking
        ensures { result ≡ record { descriptor = descriptor; requests = 0 } }
    {
        Asking {
            descriptor,
            requests: 0,
        }
    }

    /// Returns whether the number of requests is 2^64 - 1, so that one more cannot be counted.
    pub fn is_spent(&self) -> bool
        ensures spent { IsTrue result → self.now.requests ≡ 2 ^ 64 - 1 }
        ensures room { result ≡ false → self.now.requests < 2 ^ 64 - 1 }
    {
        self.requests == u64::MAX
    }

    /// Sends a request and counts it. Returns whether it was written. Fewer than 2^64 - 1 requests must have been counted.
    pub fn request(&mut self, bytes: &[u8]) -> bool
        requires { self.old.requests < 2 ^ 64 - 1 }
        ensures { self.new ≡ record self.old { requests = self.old.requests + 1 } }
    {
        self.requests += 1;
        write_all(self.descriptor, bytes)
    }

    /// Sends bytes of the borrowed memory, which does not count as a request. Returns whether they were written.
    pub fn lend(&self, bytes: &[u8]) -> bool {
        write_message(self.descriptor, LENT, bytes)
    }
}
