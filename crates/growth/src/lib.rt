#![tactic(auto)]

ghost use Rattle.std.specs.Prelude.{◌≡◌, ℕ, ◌^◌, ◌<◌, ◌≤◌};
ghost use Rattle.growth.specs.Rules.{doubled};
ghost use Rattle.growth.specs.RuleLaws.{doubled_enough, doubled_fits, need_enough};

// Which size a block grows to. Asking changes nothing.
pub trait Growth {
    ghost answer: { Self → ℕ → ℕ → ℕ };

    // The new size of a block of `size` bytes that needs at least `need`.
    fn grown(&self, size: u32, need: u32) -> u32
        ensures { result ≡ answer self.now size need };

    // The answer is never below the need.
    ghost enough: { (rule : Self) (size need : ℕ) → need ≤ answer rule size need };

    // The answer to 32-bit numbers has 32 bits.
    ghost fits: { (rule : Self) (size need : ℕ) → need < 2 ^ 32 → answer rule size need < 2 ^ 32 };
}

// The largest of twice the size, the need and a minimum.
#[derive(Clone, Copy, PartialEq, Eq, Debug)]
pub struct Doubling {
    minimum: u32,
    ghost small: { minimum < 2 ^ 32 },
}

impl Doubling {
    pub fn new(minimum: u32) -> Self
        ensures { result.minimum ≡ minimum }
    {
        Doubling { minimum }
    }
}

// Made without a minimum, it uses 8.
impl Default for Doubling {
    ghost is_default = { λ rule. rule.minimum ≡ 8 };

    fn default() -> Self {
        Doubling { minimum: 8 }
    }
}

impl Growth for Doubling {
    ghost answer = { λ rule. doubled rule.minimum };

    ghost enough = { λ rule. doubled_enough rule.minimum };

    ghost fits = { λ rule. doubled_fits rule.minimum rule.small };

    fn grown(&self, size: u32, need: u32) -> u32 {
        size.saturating_mul(2).max(need).max(self.minimum)
    }
}

// The need itself.
#[derive(Clone, Copy, PartialEq, Eq, Debug)]
pub struct Exact;

impl Growth for Exact {
    ghost answer = { λ rule size need. need };

    ghost enough = { λ rule size need. need_enough need };

    ghost fits = { λ rule size need fits. fits };

    fn grown(&self, _size: u32, need: u32) -> u32 {
        need
    }
}

#[cfg(test)]
mod tests {
    use super::*;

    #[test]
    fn doubling_without_a_minimum_uses_8(rt: HostRuntime) {
        let rule = Doubling::default();
        assert_eq!(rt; rule.grown(0, 1), 8);
        assert_eq!(rt; rule.grown(8, 9), 16);
    }

    #[test]
    fn doubling_answers_the_largest_of_three(rt: HostRuntime) {
        let rule = Doubling::new(64);
        assert_eq!(rt; rule.grown(0, 0), 64);
        assert_eq!(rt; rule.grown(40, 41), 80);
        assert_eq!(rt; rule.grown(40, 81), 81);
        assert_eq!(rt; rule.grown(2147483647, 1), 4294967294);
        assert_eq!(rt; rule.grown(2147483648, 1), 4294967295);
        assert_eq!(rt; Doubling::new(0).grown(0, 0), 0);
    }

    #[test]
    fn exact_answers_the_need(rt: HostRuntime) {
        assert_eq!(rt; Exact.grown(8, 9), 9);
        assert_eq!(rt; Exact.grown(9, 0), 0);
        assert_eq!(rt; Exact.grown(0, 4294967295), 4294967295);
    }
}
