//! Places in the ring of cells.

ghost use Rattle.std.specs.Prelude.{◌≡◌, ◌<◌, ◌+◌, ◌%◌};

/// The number modulo the size. Only numbers of at least twice the size are divided.
#[tactic(auto, using(crate::proofs::Modulo::mod_once))]
pub fn place_at(number: u32, size: u32) -> u32
    requires { 0 < size }
    ensures place { result ≡ number % size }
    ensures below { result < size }
{
    if number < size {
        number
    } else if number - size < size {
        number - size
    } else {
        number % size
    }
}

/// The cell after `place`.
pub fn next_place(place: u32, size: u32) -> u32
    requires { place < size }
    ensures next { result ≡ (place + 1) % size }
    ensures below { result < size }
{
    if place + 1 < size { place + 1 } else { 0 }
}

/// The cell before `place`.
pub fn previous_place(place: u32, size: u32) -> u32
    requires { place < size }
    ensures previous { (result + 1) % size ≡ place }
    ensures below { result < size }
{
    if place > 0 { place - 1 } else { size - 1 }
}
