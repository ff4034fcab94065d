//! The first steps of the scripts that seeds make.
ghost use Rattle.mar_gen.specs.Plan.{IsStepWithin};

use crate::answers::in_hex;
use crate::text::three_numbers;
use mar_gen::{Made, Planned, finalization};
use mar_types::Digestible;
use std::alloc::{AllocError, Global};

// A step as a line of a script.
fn line_of(alloc: Global, made: &Made, step: Planned) -> Result<String, AllocError>
    requires { IsStepWithin made.now.last step }
{
    match step {
        Planned::Open => {
            let text = in_hex(alloc, made.block(0))?;
            format!(in alloc; "\nopen genesis {text}")
        }
        Planned::Buffer(height) => {
            let text = in_hex(alloc, made.block(height))?;
            format!(in alloc; "\nbuffer {text}")
        }
        Planned::Final(height) => {
            let digest = made.block(height).digest();
            let text = in_hex(alloc, &finalization(alloc, height, digest)?)?;
            format!(in alloc; "\nfinal {text}")
        }
        Planned::Crash(luck) => format!(in alloc; "\ncrash {luck}"),
    }
}

// How many steps there are up to so many, and each behind that on a line of its own.
fn steps_of(alloc: Global, made: &Made, count: u64) -> Result<String, AllocError> {
    let mut text = String::new(alloc);
    let mut place = 0;
    let mut steps = 0;
    for number in 0..count {
        let Some((step, after)) = made.step(place) else {
            break;
        };
        let line = line_of(alloc, made, step)?;
        text.push_str(line.as_str())?;
        place = after;
        steps = number.saturating_add(1);
    }
    format!(in alloc; "{steps} steps{text}")
}

/// The first steps of a script, a line each, by its seed, how many heights it has and how many steps are asked for.
pub(crate) fn told(alloc: Global, text: &str) -> Result<String, AllocError> {
    let Some((seed, last, count)) = three_numbers(text) else {
        return "no case".to_string(alloc);
    };
    if last < 1 || last > 10_000 {
        return "no script".to_string(alloc);
    }
    let made = Made::new(alloc, seed, last)?;
    steps_of(alloc, &made, count)
}
