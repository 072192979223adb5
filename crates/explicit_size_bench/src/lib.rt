// The explicit size call by itself, for the bench to hold against the Rust's. No part of the library.

#![tactic(auto)]

ghost use Rattle.std.specs.Prelude.{◌≡◌, Some};
ghost use Rattle.sizing.specs.Words.{largest_bits, float_up_to, sizing_of};
ghost use Rattle.template_rules.specs.Template.{template_of};
ghost use Rattle.template_rules.specs.Explicit.{explicit_size_of, answered_size};
ghost use Rattle.template_rules.specs.declared.AutoRepeatStrategy.TheVariants.{MaxRepetitionsThatDoNotOverflow};
ghost use Rattle.explicit_size_bench.specs.Numbers.{numbers_of};

use coordinates::Fault;
use explicit_size::compute_explicit_grid_size_in_axis;
use sizing::Sizing;
use sizing::word::length_of;
use template_rules::{AutoRepeatStrategy, ExplicitSize, RepeatSpace, SizeTables, Template};

// The answer as numbers: the refusal, 0 where there is none, the repetitions and the explicit count.
#[repr(C)]
#[derive(Clone, Copy, Debug, PartialEq, Eq, Default)]
pub struct SizeNumbers {
    pub number: u32,
    pub repetitions: u32,
    pub explicit: u32,
}

impl From<Result<ExplicitSize, Fault>> for SizeNumbers {
    ghost from_gives = { λ answer numbers. numbers ≡ numbers_of (answered_size answer) };

    // An answer as numbers.
    fn from(answer: Result<ExplicitSize, Fault>) -> SizeNumbers {
        match answer {
            Ok(size) => SizeNumbers {
                number: 0,
                repetitions: size.repetitions,
                explicit: size.explicit,
            },
            Err(fault) => SizeNumbers {
                number: u32::from(fault),
                ..SizeNumbers::default()
            },
        }
    }
}

// The explicit size of a template in an inner size, by rule max and without areas. Sizes are bits and words.
#[unsafe(no_mangle)]
pub extern "C" fn explicit_size_in_axis(
    components: &[u64],
    minimums: &[u64],
    maximums: &[u64],
    inner: u32,
    gap: u64,
) -> SizeNumbers
    ensures { result ≡ numbers_of (explicit_size_of (Some (float_up_to largest_bits inner)) MaxRepetitionsThatDoNotOverflow (sizing_of gap) 0 (template_of components.now minimums.now maximums.now)) }
{
    let sizes = SizeTables { minimums, maximums };
    let template = Template { components, sizes };
    let space = RepeatSpace {
        inner: Some(length_of(inner)),
        strategy: AutoRepeatStrategy::MaxRepetitionsThatDoNotOverflow,
        gap: Sizing::from(gap),
    };
    SizeNumbers::from(compute_explicit_grid_size_in_axis(template, space, 0))
}
