//! Sets of ports.
ghost use Rattle.re_net.specs.Marks.{has_port};
ghost use Rattle.std.specs.Prelude.{◌≡◌, ◌<◌, ◌≢◌, false, true, ℕ};

/// A set of ports below 8 in one byte: bit `port` is 1 exactly where the port is in it.
#[derive(Clone, Copy, Debug)]
pub(crate) struct PortSet {
    pub(crate) bits: u8,
}

impl PortSet {
    /// The set without ports.
    pub(crate) const NONE: PortSet = PortSet { bits: 0 };

    /// Whether the port is in the set.
    pub(crate) fn has(self, port: u8) -> bool
        requires { port < 8 }
        ensures { result ≡ has_port self port }
    {
        (self.bits >> port) & 1 == 1
    }

    /// The set with the port.
    pub(crate) fn with(self, port: u8) -> PortSet
        requires { port < 8 }
        ensures held { has_port result port ≡ true }
        ensures others { (i : ℕ) → i < 8 → i ≢ port → has_port result i ≡ has_port self i }
    {
        PortSet {
            bits: self.bits | (1 << port),
        }
    }

    /// The set without the port.
    pub(crate) fn without(self, port: u8) -> PortSet
        requires { port < 8 }
        ensures gone { has_port result port ≡ false }
        ensures others { (i : ℕ) → i < 8 → i ≢ port → has_port result i ≡ has_port self i }
    {
        PortSet {
            bits: self.bits & !(1 << port),
        }
    }
}
