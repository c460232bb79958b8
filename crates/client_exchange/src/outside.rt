// What a client has outside.

/// What a client has outside: its link, standard input, output and error.
#[derive(Drop)]
pub struct Outside<L, N, K, E> {
    pub link: L,
    pub input: N,
    pub out: K,
    pub errors: E,
}
