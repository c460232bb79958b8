// A rest behind the head of a connection that is taken over.
ghost use Rattle.std.specs.Prelude.{◌≡◌};
ghost use Rattle.front_session.specs.Resting as spec;

use std::thread;
use std::time::{self, Duration};

/// How long nothing is written behind such a head, in milliseconds: some clients read the connection beneath the
/// buffer through which they read the head, and lose what comes along with it.
const REST: u64 = 20;

/// Whether a piece begins with the head of a connection that is taken over.
fn is_takeover(piece: &[u8]) -> bool
    ensures { result ≡ spec.is_takeover piece.now }
{
    piece.starts_with(
        b"HTTP/1.1 101 UPGRADED\r\nContent-Type: application/vnd.docker.multiplexed-stream\r\nConnection: Upgrade\r\nUpgrade: tcp\r\n\r\n",
    ) || piece.starts_with(
        b"HTTP/1.1 200 OK\r\nContent-Type: application/vnd.docker.raw-stream\r\n\r\n",
    )
}

/// How long nothing is written behind a piece, in milliseconds.
fn rest_of(piece: &[u8]) -> u64
    ensures { result ≡ spec.rest_of piece.now }
{
    if is_takeover(piece) { REST } else { 0 }
}

/// Lets that time go by behind a piece: no clause of a clock says that it does.
pub(crate) fn rest_behind<R: time::Clock>(rt: &R, piece: &[u8]) {
    let rest = rest_of(piece);
    if rest > 0 {
        thread::sleep(rt, Duration::from_millis(rest));
    }
}
