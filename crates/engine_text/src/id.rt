// Ids of containers and execs (own: 24 bytes of a ChaCha20 keystream, and the number).
ghost use Rattle.std.specs.Prelude.{◌≡◌};
ghost use Rattle.engine_text.specs.Id.{key_bytes, id_bytes, id_of, IdsDiffer};

use rand_chacha::ChaCha20Rng;
use rand_core::{Rng, SeedableRng};

// The first 24 bytes of the keystream on the stream `n`.
fn key_bytes(seed: &[u8; 32], n: u64) -> [u8; 24]
    ensures { result ≡ key_bytes seed.now n }
{
    let mut rng = ChaCha20Rng::from_seed(*seed);
    rng.set_stream(n);
    let mut bytes = [0u8; 24];
    rng.fill_bytes(&mut bytes);
    bytes
}

// The bytes that the id of the number `n` stands for.
fn id_bytes(seed: &[u8; 32], n: u64) -> [u8; 32]
    ensures { result ≡ id_bytes seed.now n }
{
    let mut bytes = [0u8; 32];
    bytes[..24].copy_from_slice(&key_bytes(seed, n));
    bytes[24..].copy_from_slice(&n.to_be_bytes());
    bytes
}

/// The id of the number `n` under the seed, as 64 lower-case hexadecimal digits.
pub fn id_of(seed: &[u8; 32], n: u64) -> [u8; 64]
    ensures { result ≡ id_of seed.now n }
{
    let bytes = id_bytes(seed, n);
    let mut text = [0u8; 64];
    let _ = hex::encode_to_slice(&bytes, &mut text);
    text
}

/// A law: ids of distinct numbers differ, under any seed.
pub fn law_ids_differ()
    ensures { IdsDiffer }
{}
