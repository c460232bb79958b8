// Bytes that stand somewhere, as a source.
ghost use Rattle.std.specs.Prelude.{◌≡◌, ◌<◌, ◌≤◌, ◌+◌, ◌++◌, length};
ghost use Rattle.http_edge.specs.Limits.{head_limit};
ghost use Rattle.front_session.specs.Views.{given_by};

use engine_ports::{Got, Source};
use http_edge::Ahead;

/// Bytes that stand somewhere, as a source.
#[derive(Drop)]
pub struct Given<'p> {
    left: &'p [u8],
}

impl<'p> Given<'p> {
    pub(crate) fn new(left: &'p [u8]) -> Given<'p>
        ensures { result.left.now ≡ left.now }
    {
        Given { left }
    }

    /// How many bytes are left.
    fn len(&self) -> usize
        ensures { result ≡ length self.now.left.now }
    {
        self.left.len()
    }
}

impl Source for Given<'_> {
    ghost use Rattle.front_session.specs.Views.{given_by};

    ghost gives = { given_by };

    fn read(&mut self, into: &mut [u8]) -> Got {
        if self.left.is_empty() {
            return Got::End;
        }
        let count = self.left.len().min(into.len());
        let (front, rest) = self.left.split_at(count);
        into[..count].copy_from_slice(front);
        self.left = rest;
        Got::Bytes(count)
    }
}

/// Puts bytes behind those ahead.
pub(crate) fn feed(ahead: &mut Ahead, bytes: &[u8])
    requires { length ahead.old + length bytes.now ≤ head_limit }
    ensures { ahead.new ≡ ahead.old ++ bytes.now }
{
    let mut given = Given::new(bytes);
    while given.len() > 0 {
        match ahead.read(&mut given) {
            Got::Bytes(_) => {}
            Got::End | Got::Failed => unreachable!(),
        }
    }
}
