// Work that is done again.
ghost use Rattle.std.specs.Prelude.{◌-◌};
ghost use Rattle.test_input.specs.Turns.{Turns};

// Takes a step so many times, once at least, until one fails; answers what the last one did.
pub fn repeat<T: Drop, E: Drop, F: FnMut() -> Result<T, E>>(
    times: usize,
    mut step: F,
) -> Result<T, E>
    requires { F.IsAlwaysCallable step }
    ensures { (last : F) × Turns F.step step (times - 1) result last }
{
    for _ in 1..times {
        step()?;
    }
    step()
}
