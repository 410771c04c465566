// The lines of the bench sheet that are executed: settings out of range, and wrong lengths. What is printed is compared with `stdout`.
#![tactic(auto)]

ghost use Rattle.std.specs.Prelude.{◌≡◌, length};

use model::{Refusal, Settings};
use std::io::{self, Print};

fn print<R: Print>(rt: &R, text: &str, answer: Result<(), Refusal>) -> io::Result<()> {
    let number = match answer {
        Ok(()) => 0,
        Err(refusal) => u32::from(refusal),
    };
    println!(rt; "{text}{number}")
}

fn formatted(target: usize, tolerance: usize) -> Result<(), Refusal> {
    let mut image = [0u8; 8192];
    let matrix = Settings::MATRIX;
    let usual = Settings::usual(2);
    let settings = Settings {
        pages: usual.pages,
        target,
        tolerance,
        form: usual.form,
    };
    store::format(&mut image, settings, &matrix, 7)
}

// The `ensures` gives only the length, which lending the array needs.
fn zeros<const N: usize>() -> [u8; N]
    ensures { N ≡ length result }
{
    [0u8; N]
}

fn main(rt: HostRuntime) -> io::Result<()> {
    print(&rt, "usual settings: ", formatted(128, 409))?;
    print(&rt, "target 63: ", formatted(63, 409))?;
    print(&rt, "target 193: ", formatted(193, 409))?;
    print(&rt, "tolerance 513: ", formatted(128, 513))?;
    let page = zeros::<4096>();
    print(&rt, "length 4096: ", store::check(&page))?;
    // one page more than an image may have
    let image = zeros::<4198400>();
    print(&rt, "length 4198400: ", store::check(&image))
}
