// A step that only looks.
ghost use Rattle.std.specs.Prelude.{◌≡◌, Ok, Err, if◌then◌else◌};

// Goes on where the fact holds; else it gives the fault.
pub fn ensure<E: Drop>(fact: bool, fault: E) -> Result<(), E>
    ensures { result ≡ (if fact then Ok tt else Err fault) }
{
    if fact { Ok(()) } else { Err(fault) }
}
