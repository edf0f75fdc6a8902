// The part of a bank whose registers are renamed.
ghost use Rattle.std.specs.Prelude.{◌+◌, ◌-◌, ◌≤◌};

// `size` registers, whose cells begin at `base` behind those of the fixed registers; the first `rotating` of them are turned by `rename`.
#[derive(Clone, Copy, PartialEq, Eq, Debug)]
pub struct Window {
    pub base: u16,
    pub size: u16,
    pub rotating: u16,
    pub rename: u16,
    ghost part: { rotating ≤ size },
    ghost turn: { rename ≤ rotating - 1 },
    ghost within: { base + size ≤ 4096 },
}
