ghost use Rattle.std.specs.Prelude.{◌≤◌, length};

pub mod methods;

// Records put one after another into a lent slice: the first `used` places hold them, and the memory past them keeps its values.
#[derive(Drop)]
pub struct Tray<'a, T> {
    memory: &'a mut [T],
    used: usize,
    ghost within: { used ≤ length memory.now },
}
