//! Laws of the definitions: functions that do nothing, each with its law as its contract.

ghost use Rattle.soup_hold.specs.Fitting.{QuantumFits, SerialFits};

/// Does nothing: its contract is the law that the numbers of a sound world still fit their types after a quantum.
pub fn quantum_fits()
    ensures { QuantumFits }
{}

/// Does nothing: its contract is the law that the numbers of every world of a serial run fit their types.
pub fn serial_fits()
    ensures { SerialFits }
{}
