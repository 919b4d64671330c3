//! The words of a module at one moment.

ghost use Rattle.std.specs.Prelude.{◌≡◌};

use sqlite_items::Items;
use std::marker::Model;

/// Numbers in order.
pub type Numbers = Items<u64>;

/// The words of the registers, by register in flat order and by index, of the inputs other than the clock, and of the
/// wires, each in flat order.
#[derive(Drop)]
pub struct View {
    registers: Numbers,
    inputs: Numbers,
    wires: Numbers,
}

impl Model for View {
    ghost use Rattle.joint_ir.specs.States.{View as Viewed};

    ghost Value = { Viewed };

    ghost view = { λ v. record { registers = v.registers; inputs = v.inputs; wires = v.wires } };
}

impl View {
    /// The view with these words.
    pub fn new(registers: Numbers, inputs: Numbers, wires: Numbers) -> View
        ensures { result ≡ record { registers = registers; inputs = inputs; wires = wires } }
    {
        View {
            registers,
            inputs,
            wires,
        }
    }

    /// The words of the registers, by register in flat order and by index.
    pub fn registers(&self) -> &[u64]
        ensures { result.now ≡ self.now.registers }
    {
        self.registers.as_slice()
    }

    /// The words of the inputs other than the clock, in flat order.
    pub fn inputs(&self) -> &[u64]
        ensures { result.now ≡ self.now.inputs }
    {
        self.inputs.as_slice()
    }

    /// The words of the wires, in flat order.
    pub fn wires(&self) -> &[u64]
        ensures { result.now ≡ self.now.wires }
    {
        self.wires.as_slice()
    }
}
