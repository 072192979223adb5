// The number of a rule, as the words of an axis have it.
ghost use Rattle.std.specs.Prelude.{◌≡◌};
ghost use Rattle.template_rules.specs.Strategies.{rule_number, strategy_of};

use crate::AutoRepeatStrategy;

impl From<AutoRepeatStrategy> for u32 {
    ghost from_gives = { λ rule number. number ≡ rule_number rule };

    // The number of a rule, which is its place in the enum.
    fn from(rule: AutoRepeatStrategy) -> u32 {
        rule as u32
    }
}

impl From<u32> for AutoRepeatStrategy {
    ghost from_gives = { λ number rule. rule ≡ strategy_of number };

    // The rule of a number. Any number gives one.
    fn from(number: u32) -> AutoRepeatStrategy {
        match number {
            0 => AutoRepeatStrategy::MaxRepetitionsThatDoNotOverflow,
            _ => AutoRepeatStrategy::MinRepetitionsThatDoOverflow,
        }
    }
}
