// A line over memory of its own: what was written can be read at once.
ghost use Rattle.std.specs.Prelude.{◌<◌, ◌≤◌, vec_len};

mod methods;

// The queued bytes begin at `head` and go on, past the memory's end, from its start. The memory is
// handed over and stays as long as it is, so it is no growing queue of the library's.
#[derive(Drop)]
pub struct Ring {
    memory: Vec<u8>,
    head: usize,
    used: usize,
    ghost size: { vec_len memory ≤ 65536 },
    ghost inside: { head < vec_len memory },
    ghost fits: { used ≤ vec_len memory },
}
